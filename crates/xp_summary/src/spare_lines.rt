//! The places that have no line.

ghost use Rattle.std.specs.Prelude.{◌≡◌, count_by};
ghost use Rattle.xp_subs.specs.Tables.{is_spare};

use xp_subs::{LineNo, Subs};

/// How many places have no line.
pub fn spare_count(subs: &Subs) -> usize
    ensures { result ≡ count_by is_spare subs.now.lines }
{
    let mut count: usize = 0;
    for number in 0..subs.counts().lines {
        if subs.is_spare(number as LineNo) {
            count += 1;
        }
    }
    count
}
