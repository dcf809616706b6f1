//! Where a line stands in a ladder diagram.

ghost use Rattle.std.specs.Prelude.{◌≡◌};
ghost use Rattle.xp_transcript.specs.Places.{alone, pair_by, renewed_pair, renewed_place, still};
ghost use Rattle.xp_transcript.specs.Rows.{same_line, same_pair};

use crate::changed::is_other;
use xp_ladder::Side;
use xp_subs::{LineNo, Subs};

/// Where a line stands: at the left if it called, at the right if it was called, and opposite to whom.
#[derive(Clone, Copy)]
pub(crate) struct Place {
    pub(crate) side: Side,
    pub(crate) other: Option<LineNo>,
}

/// The lines at both sides.
#[derive(Clone, Copy)]
pub(crate) struct Pair {
    pub(crate) left: Option<LineNo>,
    pub(crate) right: Option<LineNo>,
}

impl Place {
    /// At the left, with nobody at the right.
    pub(crate) fn alone() -> Place
        ensures { result ≡ alone }
    {
        Place {
            side: Side::Left,
            other: None,
        }
    }

    /// The lines at both sides where this line stands so.
    pub(crate) fn pair(self, line: LineNo) -> Pair
        ensures { result ≡ pair_by self.side self.other line }
    {
        match self.side {
            Side::Left => Pair {
                left: Some(line),
                right: self.other,
            },
            Side::Right => Pair {
                left: self.other,
                right: Some(line),
            },
        }
    }
}

impl Place {
    /// Where a line stands once the next subscriptions are in force: a line that comes is alone, and nobody is opposite to one that is
    /// gone.
    pub(crate) fn renewed(self, old: &Subs, next: &Subs, line: LineNo) -> Place
        ensures { result ≡ renewed_place old.now next.now line self }
    {
        if is_other(old, next, line) {
            return Place::alone();
        }
        Place {
            side: self.side,
            other: still(old, next, self.other),
        }
    }
}

impl Pair {
    /// The lines that stay as the next subscriptions come into force.
    pub(crate) fn renewed(self, old: &Subs, next: &Subs) -> Pair
        ensures { result ≡ renewed_pair old.now next.now self }
    {
        Pair {
            left: still(old, next, self.left),
            right: still(old, next, self.right),
        }
    }

    /// Whether these are the same lines.
    pub(crate) fn is(self, other: Pair) -> bool
        ensures { result ≡ same_pair self other }
    {
        same_line(self.left, other.left) && same_line(self.right, other.right)
    }
}

/// The line, where its place has no other line now.
fn still(old: &Subs, next: &Subs, line: Option<LineNo>) -> Option<LineNo>
    ensures { result ≡ still old.now next.now line }
{
    match line {
        Some(line) if !is_other(old, next, line) => Some(line),
        _ => None,
    }
}

fn same_line(one: Option<LineNo>, other: Option<LineNo>) -> bool
    ensures { result ≡ same_line one other }
{
    match (one, other) {
        (None, None) => true,
        (Some(one), Some(other)) => one == other,
        _ => false,
    }
}
