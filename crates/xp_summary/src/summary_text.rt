//! The summary as text.

use crate::by_group::push_groups;
use crate::line_warning_text::push_line_warnings;
use crate::matrix::push_matrix;
use crate::spare_lines::spare_count;
use crate::stations::push_station;
use crate::warning_text::push_warnings;
use std::alloc::{AllocError, Global};
use std::fmt::Write;
use xp_subs::{LineNo, StationNo, Subs};

/// How many stations a matrix has at most.
const MOST_IN_MATRIX: usize = 64;

/// A summary of the subscriptions: each station, who may call whom, and what to look at again.
///
/// # Errors
///
/// An allocation failed.
pub fn summary(alloc: Global, subs: &Subs) -> Result<String, AllocError> {
    let mut text = String::new(alloc);
    push_counts(&mut text, subs)?;
    push_stations(&mut text, subs)?;
    push_calls(alloc, &mut text, subs)?;
    push_all_warnings(&mut text, subs)?;
    Ok(text)
}

/// How many stations, lines and groups there are, and how many spare lines, if any.
fn push_counts(text: &mut String, subs: &Subs) -> Result<(), AllocError> {
    let counts = subs.counts();
    let spare = spare_count(subs);
    let lines = counts.lines.saturating_sub(spare);
    write!(
        text,
        "stations {} lines {lines} groups {}",
        counts.stations, counts.groups
    )?;
    match spare {
        0 => text.push_str("\n"),
        _ => writeln!(text, " spare lines {spare}"),
    }
}

/// Who may call whom: a matrix, or where that would be too wide and too long, a list by groups.
fn push_calls(alloc: Global, text: &mut String, subs: &Subs) -> Result<(), AllocError> {
    if subs.counts().stations > MOST_IN_MATRIX {
        text.push_str(
            "who may call whom, where lines are idle and no call is redirected: callers reach those called beside them\n",
        )?;
        return push_groups(alloc, text, subs);
    }
    text.push_str(
        "who may call whom, where lines are idle and no call is redirected: a row for each caller\n\
        x: put through, s: only with a closed user group selection, .: never\n",
    )?;
    push_matrix(alloc, text, subs)
}

fn push_stations(text: &mut String, subs: &Subs) -> Result<(), AllocError> {
    for number in 0..subs.counts().stations {
        push_station(text, subs, number as StationNo)?;
    }
    Ok(())
}

/// What to look at again in the stations, and then in the lines.
fn push_all_warnings(text: &mut String, subs: &Subs) -> Result<(), AllocError> {
    for number in 0..subs.counts().stations {
        push_warnings(text, subs, number as StationNo)?;
    }
    for number in 0..subs.counts().lines {
        push_line_warnings(text, subs, number as LineNo)?;
    }
    Ok(())
}
