//! A station in words: its lines, rights, groups and redirection.

ghost use Rattle.std.specs.Prelude.{◌<◌};
ghost use Rattle.xp_subs.specs.Tables.{line_count, station_count};

use crate::default_callers::is_default_caller;
use std::alloc::AllocError;
use std::fmt::Write;
use xp_packets::Modulus;
use xp_subs::{Access, Facilities, LineNo, Membership, Redirection, Sources, StationNo, Subs};

/// A station, with its number from 1.
pub(crate) fn push_station(
    text: &mut String,
    subs: &Subs,
    number: StationNo,
) -> Result<(), AllocError>
    requires { number < station_count subs.now }
{
    let station = subs.station(number);
    let shown = usize::from(number) + 1;
    let caller = if is_default_caller(subs, number) {
        ", default caller of its router"
    } else {
        ""
    };
    writeln!(text, "{shown} station {}{caller}", station.address)?;
    push_lines(text, subs, number)?;
    push_rights(text, &station.facilities)?;
    for held in station.memberships.as_slice() {
        push_group(text, subs, station.preferential, *held)?;
    }
    match &station.redirect {
        Some(redirect) => push_redirection(text, redirect),
        None => Ok(()),
    }
}

fn push_lines(text: &mut String, subs: &Subs, number: StationNo) -> Result<(), AllocError>
    requires { number < station_count subs.now }
{
    // The contract of this call says that the lines of stations are lines of the exchange.
    let _ = subs.counts();
    for line in subs.station(number).lines.as_slice() {
        push_line(text, subs, *line)?;
    }
    Ok(())
}

/// A line, with its port or its router, its own address, modulo 128, and the addresses from which it may connect.
fn push_line(text: &mut String, subs: &Subs, number: LineNo) -> Result<(), AllocError>
    requires { number < line_count subs.now }
{
    let line = subs.line(number);
    let name = line.name.as_str();
    write!(text, "  line {name}: ")?;
    push_access(text, &line.access)?;
    if let Some(address) = &line.address {
        write!(text, ", address {address}")?;
    }
    if line.modulus == Modulus::Long {
        text.push_str(", modulo 128")?;
    }
    push_sources(text, &line.from)
}

fn push_access(text: &mut String, access: &Access) -> Result<(), AllocError> {
    match access {
        Access::Port(port) => write!(text, "port {port}"),
        Access::Router(router) => {
            let address = router.address();
            let port = router.port();
            write!(text, "router {address} port {port}")
        }
        // No line of a station is a spare place.
        Access::Spare => Ok(()),
    }
}

/// The addresses from which connections may come, if not from any, up to the end of the line.
fn push_sources(text: &mut String, sources: &Sources) -> Result<(), AllocError> {
    if sources.is_empty() {
        return text.push_str("\n");
    }
    text.push_str(", from")?;
    for place in 0..sources.len() {
        let source = sources.get(place).unwrap_or("");
        write!(text, " {source}")?;
    }
    text.push_str("\n")
}

/// The keys of its rights that are set.
fn push_rights(text: &mut String, rights: &Facilities) -> Result<(), AllocError> {
    let keys = [
        (rights.outgoing_barred, "outgoing_barred"),
        (rights.incoming_barred, "incoming_barred"),
        (rights.reverse_charging, "reverse_charging"),
        (rights.fast_select, "fast_select"),
        (rights.outgoing_access, "outgoing_access"),
        (rights.incoming_access, "incoming_access"),
    ];
    if *rights == Facilities::default() {
        return text.push_str("  no special rights\n");
    }
    text.push_str("  rights:")?;
    push_keys(text, &keys)
}

/// Why its calls are redirected, and where to.
fn push_redirection(text: &mut String, redirect: &Redirection) -> Result<(), AllocError> {
    let keys = [
        (redirect.systematic, "systematic"),
        (redirect.busy, "busy"),
        (redirect.out_of_order, "out_of_order"),
    ];
    write!(text, "  redirected to {}:", redirect.to)?;
    push_keys(text, &keys)
}

/// Those of the keys that are set, up to the end of the line.
fn push_keys(text: &mut String, keys: &[(bool, &str)]) -> Result<(), AllocError> {
    let mut end = " none\n";
    for (is_set, key) in keys {
        if *is_set {
            write!(text, " {key}")?;
            end = "\n";
        }
    }
    text.push_str(end)
}

/// A group, with the station's index and what is barred to it there.
fn push_group(
    text: &mut String,
    subs: &Subs,
    preferential: Option<u16>,
    held: Membership,
) -> Result<(), AllocError> {
    let name = subs.group_name(held.group).unwrap_or("");
    let preferred = if preferential == Some(held.index) {
        " preferential"
    } else {
        ""
    };
    let outgoing = if held.outgoing_barred {
        " outgoing_barred"
    } else {
        ""
    };
    let incoming = if held.incoming_barred {
        " incoming_barred"
    } else {
        ""
    };
    let index = held.index;
    writeln!(
        text,
        "  group {name}: index {index}{preferred}{outgoing}{incoming}"
    )
}
