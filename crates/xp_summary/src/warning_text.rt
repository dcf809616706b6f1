//! What to look at again in a station, in words.

ghost use Rattle.std.specs.Prelude.{◌<◌};
ghost use Rattle.xp_subs.specs.Tables.{station_count};

use crate::station_warnings::{StationWarnings, is_alone, warnings};
use std::alloc::AllocError;
use std::fmt::Write;
use xp_packets::Digits;
use xp_subs::{Membership, StationNo, Subs};

/// What to look at again in the station with this number.
pub(crate) fn push_warnings(
    text: &mut String,
    subs: &Subs,
    number: StationNo,
) -> Result<(), AllocError>
    requires { number < station_count subs.now }
{
    let address = &subs.station(number).address;
    let found = warnings(subs, number);
    push_redirection_warnings(text, address, found)?;
    push_calling_warnings(text, subs, address, found)?;
    push_lone_groups(text, subs, number)
}

/// What to look at again in its redirection.
fn push_redirection_warnings(
    text: &mut String,
    address: &Digits,
    found: StationWarnings<'_>,
) -> Result<(), AllocError> {
    if found.in_circle {
        push_warning(text, address, "redirections lead back to it")?;
    }
    if let Some(alternate) = found.alternate_of_nobody {
        writeln!(
            text,
            "warning: station {address}: nobody has {alternate}, to which its calls are redirected"
        )?;
    }
    if found.redirects_never {
        let why = "its redirection has none of systematic, busy and out_of_order";
        return push_warning(text, address, why);
    }
    Ok(())
}

/// What to look at again in how it calls others.
fn push_calling_warnings(
    text: &mut String,
    subs: &Subs,
    address: &Digits,
    found: StationWarnings<'_>,
) -> Result<(), AllocError> {
    if let Some(held) = found.barred_preferential {
        let name = name_of(subs, held);
        writeln!(
            text,
            "warning: station {address}: outgoing_barred in its preferential group {name}"
        )?;
    }
    if found.needs_selection {
        let why = "it reaches no station without a selection of a group";
        return push_warning(text, address, why);
    }
    Ok(())
}

fn push_warning(text: &mut String, address: &Digits, why: &str) -> Result<(), AllocError> {
    writeln!(text, "warning: station {address}: {why}")
}

/// The groups that it alone is in.
fn push_lone_groups(text: &mut String, subs: &Subs, number: StationNo) -> Result<(), AllocError>
    requires { number < station_count subs.now }
{
    let station = subs.station(number);
    for held in station.memberships.as_slice() {
        if is_alone(subs, number, held.group) {
            let address = &station.address;
            let name = name_of(subs, *held);
            writeln!(
                text,
                "warning: station {address}: no other station is in its group {name}"
            )?;
        }
    }
    Ok(())
}

/// The name of a group.
fn name_of(subs: &Subs, held: Membership) -> &str {
    subs.group_name(held.group).unwrap_or("")
}
