//! Checks of files.
use crate::faults::Fault;
use crate::files::{read_both, read_network};
use network_reasons::Checked;
use std::path::Path;

/// Checks a service file, with the network's file that it names, and prints what was found. Says whether nothing is
/// wrong.
pub(crate) fn check_service(rt: &HostRuntime, file: &str) -> Result<bool, Fault> {
    let octets = read_both(rt, file)?;
    let checked = service_files::check_service(
        rt.alloc(),
        octets.service.as_slice(),
        octets.network.as_slice(),
    )?;
    say(rt, &checked)
}

/// Checks the file of a network, and prints what was found. Says whether nothing is wrong.
pub(crate) fn check_network(rt: &HostRuntime, file: &str) -> Result<bool, Fault> {
    let network = read_network(rt, Path::new(file))?;
    let checked = network_reasons::check_network(rt.alloc(), network.as_slice())?;
    say(rt, &checked)
}

fn say(rt: &HostRuntime, checked: &Checked) -> Result<bool, Fault> {
    rt.print(checked.text.as_str())?;
    Ok(checked.is_right)
}
