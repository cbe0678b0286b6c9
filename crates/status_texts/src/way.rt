//! The lines that a call passes over.
ghost use Rattle.std.specs.Prelude.{◌<◌, length, All, IfOk};

use crate::status::{NetLine, Route};
use std::alloc::{AllocError, Global};

/// The numbers of the lines that a call passes over, from the line of the calling address on, as the routes of the
/// switches lead it. They end early at a switch without a route to the called address. None are known of an address
/// that is no line's.
pub fn way_of(
    alloc: Global,
    lines: &[NetLine<'_>],
    routes: &[Route<'_>],
    from: &str,
    to: &str,
) -> Result<Vec<usize>, AllocError>
    ensures { IfOk result (λ way. All (λ number. number < length lines.now) way.items) }
{
    let mut way = Vec::new(alloc);
    let mut next = line_of(lines, from);
    let mut at = "";
    for _ in 0..lines.len() {
        let Some(number) = next else { break };
        let Some(line) = lines.get(number) else { break };
        way.push(number)?;
        at = far_end(line, at);
        next = leads_to(routes, at, to);
    }
    Ok(way)
}

/// The line of the DTE with this address.
fn line_of(lines: &[NetLine<'_>], address: &str) -> Option<usize> {
    lines.iter().position(|line| !line.address.is_empty() && address.starts_with(line.address))
}

/// The end of a line at which this node is not. Seen from a node that is not at the line, it is the DCE.
fn far_end<'a>(line: &NetLine<'a>, node: &str) -> &'a str {
    if line.dce == node { line.dte } else { line.dce }
}

/// The line to which a switch passes calls to an address: that of its longest prefix that the address begins with.
fn leads_to(routes: &[Route<'_>], switch: &str, address: &str) -> Option<usize> {
    let mut longest: Option<&Route<'_>> = None;
    for route in routes {
        if route.switch == switch
            && address.starts_with(route.prefix)
            && is_longer(route, longest)
        {
            longest = Some(route);
        }
    }
    Some(longest?.line)
}

/// Whether a route has a longer prefix than the one that was found before.
fn is_longer(route: &Route<'_>, than: Option<&Route<'_>>) -> bool {
    match than {
        Some(other) => route.prefix.len() > other.prefix.len(),
        None => true,
    }
}
