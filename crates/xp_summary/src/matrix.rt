//! Who may call whom, as a matrix with a row for each caller.

ghost use Rattle.std.specs.Prelude.{◌≡◌, ℕ, ◌<◌, ◌≤◌, IfOk, [], ◌∷◌};
ghost use Rattle.std.specs.String.{string_bytes};
ghost use Rattle.xp_subs.specs.Bounds.{most_stations};
ghost use Rattle.xp_subs.specs.Tables.{station_count};
ghost use Rattle.xp_summary.specs.Matrix.{AreFields, IsField};

use crate::reach::{Reach, reach_between};
use std::alloc::{AllocError, Global};
use std::fmt::Write;
use xp_subs::{StationNo, Subs};

/// How many fields stand in a line of text. With the caller's number before them and its address behind, a line has at most
/// 80 columns.
const WIDTH: usize = 60;

/// The fields of a caller's row for the called stations from `first` to the one before `past`: `x` where it reaches the station by
/// a call without facilities, `s` where only by one that selects a closed user group, and `.` where never.
///
/// # Errors
///
/// An allocation failed.
pub fn fields(
    alloc: Global,
    subs: &Subs,
    caller: StationNo,
    first: StationNo,
    past: StationNo,
) -> Result<String, AllocError>
    requires caller { caller < station_count subs.now }
    requires first { first ≤ past }
    requires past { past ≤ station_count subs.now }
    ensures { IfOk result (λ fields. AreFields subs.now caller first past (string_bytes fields)) }
{
    let mut fields = String::new(alloc);
    for called in first..past {
        fields.push_str(field(subs, caller, called))?;
    }
    Ok(fields)
}

/// A field of the matrix as text.
fn field(subs: &Subs, caller: StationNo, called: StationNo) -> &'static str
    requires caller { caller < station_count subs.now }
    requires called { called < station_count subs.now }
    ensures { (code : ℕ) × (result.now ≡ code ∷ []) × IsField subs.now caller called code }
{
    match reach_between(subs, caller, called) {
        Reach::Plain => "x",
        Reach::Selecting => "s",
        Reach::Never => ".",
    }
}

/// The matrix, in blocks of so many columns as a line of text has room for.
pub(crate) fn push_matrix(alloc: Global, text: &mut String, subs: &Subs) -> Result<(), AllocError> {
    let stations = subs.counts().stations;
    for block in 0..stations.div_ceil(WIDTH) {
        let first = block * WIDTH;
        let past = (first + WIDTH).min(stations);
        push_block(alloc, text, subs, first, past)?;
    }
    Ok(())
}

/// The columns from the first station to the one before `past`.
fn push_block(
    alloc: Global,
    text: &mut String,
    subs: &Subs,
    first: usize,
    past: usize,
) -> Result<(), AllocError>
    requires first { first ≤ past }
    requires past { past ≤ station_count subs.now }
{
    let stations = subs.counts().stations;
    push_heading(text, first, past)?;
    for caller in 0..stations {
        let row = fields(
            alloc,
            subs,
            caller as StationNo,
            first as StationNo,
            past as StationNo,
        )?;
        let number = caller + 1;
        let address = &subs.station(caller as StationNo).address;
        writeln!(text, "{number:3} {row} {address}")?;
    }
    Ok(())
}

/// Which stations the columns are, and the last digit of the number of each.
fn push_heading(text: &mut String, first: usize, past: usize) -> Result<(), AllocError>
    requires first { first ≤ past }
    requires past { past ≤ most_stations }
{
    let number = first + 1;
    write!(text, "called stations {number} to {past}:\n    ")?;
    for column in first..past {
        let digit = (column + 1) % 10;
        write!(text, "{digit}")?;
    }
    text.push_str("\n")
}
