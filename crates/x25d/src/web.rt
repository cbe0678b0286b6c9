//! What the service answers to those who want its page.
use crate::log::Log;
use crate::names::Names;
use crate::serving::Running;
use crate::status::status_of;
use crate::visits::Visit;
use status_pages::{Request, Wanted, answer, status_json};
use std::alloc::{AllocError, Global};
use std::io;

/// Reads a request, answers it, and says whether the connection is still wanted.
pub(crate) fn serve_visit(
    rt: &HostRuntime,
    service: &Running,
    names: Names<'_>,
    log: &Log,
    visit: &mut Visit,
    ticks: u16,
) -> bool {
    hear(rt, service, names, log, visit, ticks).is_ok() && visit.goes_on(ticks)
}

/// Reads a request, and has it answered once it is certain what it asks for.
fn hear(
    rt: &HostRuntime,
    service: &Running,
    names: Names<'_>,
    log: &Log,
    visit: &mut Visit,
    ticks: u16,
) -> io::Result<()> {
    let Some(request) = visit.asked(ticks)? else {
        return Ok(());
    };
    let status = status_for(rt.alloc(), service, names, log, request)?;
    visit.answer(answer(rt.alloc(), request, status.as_str())?);
    Ok(())
}

/// The status as JSON, if it is wanted.
fn status_for(
    alloc: Global,
    service: &Running,
    names: Names<'_>,
    log: &Log,
    request: Request,
) -> Result<String, AllocError> {
    match request.wanted {
        Wanted::Status => status_json(alloc, &status_of(alloc, service, names, log)?),
        _ => Ok(String::new(alloc)),
    }
}
