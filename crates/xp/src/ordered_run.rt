//! A run that serves lines as it was ordered.

use xp_arguments::ServeOrder;
use xp_clock::WallClock;

/// A run that serves lines: what it takes of the system, how it was ordered, and the clock that began with it.
#[derive(Drop)]
pub(crate) struct OrderedRun<'a, 'w, R> {
    pub(crate) rt: &'a R,
    pub(crate) order: &'a ServeOrder<'w>,
    pub(crate) clock: WallClock,
}
