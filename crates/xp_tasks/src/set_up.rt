ghost use Rattle.xp_tasks.specs.SetUp.{set_up_text};

use crate::spare::{SpareLines, spare_count};
use std::fmt;
use xp_subs::{Counts, Subs};

/// The counts of subscriptions, as `check` prints them.
#[derive(Clone, Copy)]
pub struct SetUp<'a> {
    pub subs: &'a Subs,
}

impl fmt::Display for SetUp<'_> {
    ghost use Rattle.std.specs.Prelude.{Some};

    ghost output = { λ set_up. Some (set_up_text set_up.subs.now) };

    fn fmt<W: fmt::Write>(&self, f: &mut fmt::Formatter<W>) -> fmt::Result {
        let Counts {
            stations,
            lines: places,
            groups,
        } = self.subs.counts();
        let count = spare_count(self.subs);
        let lines = places.saturating_sub(count);
        let spare = SpareLines(count);
        write!(
            f,
            "stations {stations} lines {lines} groups {groups}{spare}"
        )
    }
}
