//! The lines that come and go as other subscriptions come into force.

ghost use Rattle.std.specs.Prelude.{◌≡◌, ◌<◌, ◌≤◌};
ghost use Rattle.xp_subs.specs.Tables.{line_count};
ghost use Rattle.xp_transcript.specs.Changed.{comes, coming, gone_lines, is_other, new_lines};

use crate::names::name_of;
use xp_subs::{LineNo, Subs};

/// How many lines come and go.
#[derive(Clone, Copy)]
pub(crate) struct Change {
    pub(crate) new: usize,
    pub(crate) gone: usize,
}

impl Change {
    /// How many come and go as the next subscriptions come into force after the old ones, which have as many places.
    pub(crate) fn between(old: &Subs, next: &Subs) -> Change
        requires { line_count next.now ≡ line_count old.now }
        ensures { result ≡ record { new = new_lines old.now next.now; gone = gone_lines old.now next.now } }
    {
        let lines = old.counts().lines;
        Change {
            new: coming(old, next, lines),
            gone: coming(next, old, lines),
        }
    }
}

/// Whether a place has another line than before, or none.
pub(crate) fn is_other(old: &Subs, next: &Subs, line: LineNo) -> bool
    ensures { result ≡ is_other old.now next.now line }
{
    name_of(old, line) != name_of(next, line)
}

/// How many lines come to the first so many places.
#[tactic(auto, using(crate::proofs::Coming::coming_within))]
fn coming(old: &Subs, next: &Subs, lines: usize) -> usize
    requires { lines ≤ line_count next.now }
    ensures { result ≡ coming old.now next.now lines }
{
    // The contract of this call says that there are few lines.
    let _ = next.counts();
    let mut count = 0;
    for number in 0..lines {
        if comes(old, next, number as LineNo) {
            count += 1;
        }
    }
    count
}

/// Whether a line comes to a place.
fn comes(old: &Subs, next: &Subs, line: LineNo) -> bool
    requires { line < line_count next.now }
    ensures { result ≡ comes old.now next.now line }
{
    is_other(old, next, line) && !next.is_spare(line)
}
