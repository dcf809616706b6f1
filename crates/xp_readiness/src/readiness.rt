//! Whether a subscription file can be served here, and why not.

ghost use Rattle.std.specs.Prelude.{◌<◌};
ghost use Rattle.xp_subs.specs.Tables.{line_count};

use crate::failure::Failure;
use std::alloc::{AllocError, AllocGlobal, Global};
use std::net::Net;
use xp_arguments::{CheckDepth, CheckForm};
use xp_listening::{PortFault, ServeFailure, check_serving, line_at_port, try_ports};
use xp_subs::{Access, LineNo, Subs};
use xp_tcp::Admission;

/// Looks at as much of what serving needs as is asked for.
pub fn check_readiness<R: AllocGlobal + Net>(
    rt: &R,
    subs: &Subs,
    depth: CheckDepth,
) -> Result<(), Failure> {
    if depth == CheckDepth::File {
        return Ok(());
    }
    let host = match check_serving(subs) {
        Ok(host) => host,
        Err(failure) => return Err(explained(rt, subs, failure)),
    };
    if depth == CheckDepth::Serving {
        return Ok(());
    }
    match try_ports(rt, subs, host) {
        Ok(()) => Ok(()),
        Err(fault) => Err(of_port(rt.alloc(), fault)),
    }
}

/// What a summary for people says besides: that serving refuses the file, as one line. Nothing where it does not.
pub fn refusal_warning<R: AllocGlobal + Net>(
    rt: &R,
    subs: &Subs,
    form: CheckForm,
) -> Result<String, AllocError> {
    let alloc = rt.alloc();
    let reason = match form {
        CheckForm::Words => refusal_reason(rt, subs),
        CheckForm::Counts => None,
    };
    match reason {
        Some(reason) => format!(in alloc; "warning: xp serve refuses this file: {reason}\n"),
        None => Ok(String::new(alloc)),
    }
}

/// Why serving refuses these subscriptions, where it does and that is found.
fn refusal_reason<R: AllocGlobal + Net>(rt: &R, subs: &Subs) -> Option<String> {
    match check_serving(subs) {
        Ok(_) => None,
        Err(failure) => reason_of(rt, subs, &failure),
    }
}

/// The failure of a port, with its address and what the system told, if there was memory for that text.
fn of_port(alloc: Global, fault: PortFault) -> Failure {
    let reason = format!(in alloc; "{fault}");
    let PortFault {
        failure,
        at: _,
        error: _,
    } = fault;
    match reason {
        Ok(reason) => Failure::Explained(failure, reason),
        Err(_) => Failure::Serve(failure),
    }
}

/// Why lines of these subscriptions were not served, with which, where and why if that is found. A port is tried once more for this.
pub fn explained<R: AllocGlobal + Net>(rt: &R, subs: &Subs, failure: ServeFailure) -> Failure {
    match reason_of(rt, subs, &failure) {
        Some(reason) => Failure::Explained(failure, reason),
        None => Failure::Serve(failure),
    }
}

/// Which, where and why lines of these subscriptions were not served, if that is found and there is memory for its text.
fn reason_of<R: AllocGlobal + Net>(rt: &R, subs: &Subs, failure: &ServeFailure) -> Option<String> {
    let alloc = rt.alloc();
    let reason = match failure {
        ServeFailure::Host => format!(in alloc;
            "host = {:?}: neither localhost nor an IP address",
            subs.host()
        ),
        ServeFailure::From(name) => strange_source(alloc, subs, name.as_str()),
        ServeFailure::Router(name) => strange_router(alloc, subs, name.as_str()),
        ServeFailure::Port(_) | ServeFailure::XotPort => return reason_of_port(rt, subs, failure),
        _ => return None,
    };
    reason.ok()
}

/// The source of the line with this name from which no connection can come.
fn strange_source(alloc: Global, subs: &Subs, name: &str) -> Result<String, AllocError> {
    let source = match subs.line_named(name) {
        Some(line) => refused_source(subs, line),
        None => None,
    };
    match source {
        Some(text) => format!(in alloc; "from = {text:?}: neither an address nor a network"),
        None => String::from_str(alloc, "from: neither an address nor a network"),
    }
}

/// The first source of a line from which no connection can come.
fn refused_source(subs: &Subs, line: LineNo) -> Option<&str>
    requires { line < line_count subs.now }
{
    let sources = subs.sources_of(line);
    for place in 0..sources.len() {
        let text = sources.get(place)?;
        if Admission::any().add(text).is_err() {
            return Some(text);
        }
    }
    None
}

/// The router of the line with this name, which has no address.
fn strange_router(alloc: Global, subs: &Subs, name: &str) -> Result<String, AllocError> {
    let access = match subs.line_named(name) {
        Some(line) => Some(subs.access_of(line)),
        None => None,
    };
    match access {
        Some(Access::Router(router)) => {
            format!(in alloc; "router = {:?}: no IP address", router.address())
        }
        _ => String::from_str(alloc, "router: no IP address"),
    }
}

/// What the system tells now of a port that failed so, or the line that has the port for routers too.
fn reason_of_port<R: AllocGlobal + Net>(
    rt: &R,
    subs: &Subs,
    failure: &ServeFailure,
) -> Option<String> {
    let Ok(host) = check_serving(subs) else {
        return shared_port(rt.alloc(), subs).ok();
    };
    match try_ports(rt, subs, host) {
        Err(fault) if fault.failure == *failure => format!(in rt.alloc(); "{fault}").ok(),
        _ => None,
    }
}

/// That a line's own port is that for routers.
fn shared_port(alloc: Global, subs: &Subs) -> Result<String, AllocError> {
    let port = subs.xot_port();
    match line_at_port(subs, port) {
        Some(line) => format!(in alloc; "port {port} is that of line {} too", subs.name_of(line)),
        None => format!(in alloc; "port {port}"),
    }
}
