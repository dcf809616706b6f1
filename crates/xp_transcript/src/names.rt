//! The names of lines.

ghost use Rattle.std.specs.Prelude.{◌≡◌};
ghost use Rattle.xp_charge.specs.Text.{name_of};

use xp_subs::{LineNo, Subs};

/// The name of a line. A number that no line has is given no name.
pub(crate) fn name_of(subs: &Subs, line: LineNo) -> &str
    ensures { result.now ≡ name_of subs.now line }
{
    if usize::from(line) < subs.counts().lines {
        subs.name_of(line)
    } else {
        ""
    }
}
