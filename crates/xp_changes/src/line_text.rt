//! What changes of lines, and what that does to calls, in words. No contract says what is told.

use crate::listing::ChangedSubs;
use crate::refusing::name_in;
use std::alloc::AllocError;
use std::fmt::Write;
use xp_subs::{Access, Line, LineNo, Subs};

/// The lines that are gone, and those that are new.
pub(crate) fn push_lines(
    text: &mut String,
    old: &Subs,
    new: &Subs,
    changes: &ChangedSubs,
) -> Result<(), AllocError> {
    push_each(text, old, &changes.gone_lines, "gone: its call ends")?;
    push_each(text, new, &changes.new_lines, "new")
}

/// What becomes of each of these lines.
fn push_each(
    text: &mut String,
    subs: &Subs,
    lines: &[LineNo],
    what: &str,
) -> Result<(), AllocError> {
    for line in lines {
        let name = name_in(subs, *line);
        writeln!(text, "line {name}: {what}")?;
    }
    Ok(())
}

/// The port or the router of a line, where it is another one than before.
pub(crate) fn push_access(text: &mut String, was: &Line, is: &Line) -> Result<(), AllocError> {
    if is.access == was.access {
        return Ok(());
    }
    let name = is.name.as_str();
    let (before, after) = (kind_of(&was.access), kind_of(&is.access));
    write!(text, "line {name}: ")?;
    push_place(text, before, &was.access)?;
    text.push_str(" becomes ")?;
    push_place(text, if after == before { "" } else { after }, &is.access)?;
    text.push_str(": its call ends\n")
}

/// Whether a line has a port or a router, in words.
fn kind_of(access: &Access) -> &'static str {
    match access {
        Access::Port(_) => "port ",
        Access::Router(_) => "router ",
        Access::Spare => "nothing",
    }
}

/// The kind of a port or a router, and its number or where it takes connections.
fn push_place(text: &mut String, kind: &str, access: &Access) -> Result<(), AllocError> {
    match access {
        Access::Port(port) => write!(text, "{kind}{port}"),
        Access::Router(router) => {
            let address = router.address();
            let port = router.port();
            write!(text, "{kind}{address} port {port}")
        }
        Access::Spare => text.push_str(kind),
    }
}
