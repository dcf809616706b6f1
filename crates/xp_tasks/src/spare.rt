//! The places that have no line.

ghost use Rattle.std.specs.Prelude.{◌≡◌, count_by};
ghost use Rattle.xp_subs.specs.Tables.{is_spare};
ghost use Rattle.xp_tasks.specs.SetUp.{spare_text};

use std::fmt;
use xp_subs::{LineNo, Subs};

/// How many places have no line.
pub(crate) fn spare_count(subs: &Subs) -> usize
    ensures { result ≡ count_by is_spare subs.now.lines }
{
    let mut count: usize = 0;
    for number in 0..subs.counts().lines {
        if subs.is_spare(number as LineNo) {
            count += 1;
        }
    }
    count
}

/// So many places without a line, as `check` prints them: nothing where there are none.
#[derive(Clone, Copy)]
pub(crate) struct SpareLines(pub(crate) usize);

impl fmt::Display for SpareLines {
    ghost use Rattle.std.specs.Prelude.{Some};

    ghost output = { λ spare. Some (spare_text spare.0) };

    fn fmt<W: fmt::Write>(&self, f: &mut fmt::Formatter<W>) -> fmt::Result {
        let count = self.0;
        if count == 0 {
            return Ok(());
        }
        write!(f, " spare lines {count}")
    }
}
