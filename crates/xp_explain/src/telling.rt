//! What is wrong with a name or an address that an operator wrote, in words for a person. No contract says what is told.

ghost use Rattle.std.specs.Prelude.{◌<◌, IfSome};
ghost use Rattle.xp_subs.specs.Sound.{IsTarget};
ghost use Rattle.xp_subs.specs.Tables.{station_count};

use std::alloc::{AllocError, Global};
use std::fmt::Write;
use xp_packets::Digits;
use xp_subs::{StationNo, Subs, Target};

/// Why no line has this name, as one line without its end: `no line is named "x9"`. An address is told as one, with the names of its
/// lines.
///
/// # Errors
///
/// An allocation failed.
pub fn no_line_named(alloc: Global, subs: &Subs, name: &str) -> Result<String, AllocError> {
    let mut told = String::new(alloc);
    match target_of(subs, name) {
        Some(target) => push_address(&mut told, subs, name, target)?,
        None => write!(told, "no line is named {name:?}")?,
    }
    Ok(told)
}

/// Why a text is no address, as one line without its end: `1 to 15 digits are wanted, found "2080x"`. The name of a line is told as
/// one, with the line's address.
///
/// # Errors
///
/// An allocation failed.
pub fn no_address(alloc: Global, subs: &Subs, text: &str) -> Result<String, AllocError> {
    match subs.line_named(text) {
        Some(line) => format!(in alloc;
            "{text:?} is the name of a line: an address is wanted ({})",
            subs.address_of(line)
        ),
        None => format!(in alloc; "1 to 15 digits are wanted, found {text:?}"),
    }
}

/// The station or the line whose address a text is.
fn target_of(subs: &Subs, text: &str) -> Option<Target>
    ensures { IfSome result (IsTarget subs.now) }
{
    let address = Digits::from_text(text)?;
    subs.find(&address)
}

/// An address where the name of a line is wanted, and the lines that have it.
fn push_address(
    told: &mut String,
    subs: &Subs,
    text: &str,
    target: Target,
) -> Result<(), AllocError>
    requires { IsTarget subs.now target }
{
    write!(told, "{text:?} is an address: a line's name is wanted (")?;
    match target.line {
        Some(line) => told.push_str(subs.name_of(line))?,
        None => push_names(told, subs, target.station)?,
    }
    told.push_str(")")
}

/// The names of a station's lines, with commas between them.
fn push_names(told: &mut String, subs: &Subs, station: StationNo) -> Result<(), AllocError>
    requires { station < station_count subs.now }
{
    // The contract of this call says that the lines of stations are lines of the exchange.
    let _ = subs.counts();
    let mut before = "";
    for line in subs.station(station).lines.as_slice() {
        write!(told, "{before}{}", subs.name_of(*line))?;
        before = ", ";
    }
    Ok(())
}
