//! A line on its link.

mod offering;
mod reading;
mod writing;

use std::alloc::{Allocator, Global};
use xp_frames::Deframer;
use xp_links::Link;

/// A line on its link, from the link's Up to its Down.
pub struct Session<L: Link, A: Allocator = Global> {
    pub link: L,
    /// How often the line has come into service, this link included: 1 for its first link.
    pub connection: u64,
    /// Whether the link went and the exchange has not accepted that yet, as an allocation failed.
    pub owes_down: bool,
    /// Cuts the octets from the link into frames.
    pub frames: Deframer<A>,
    /// Octets that are still to be pushed into the link.
    pub unwritten: Vec<u8, A>,
    /// Since when an incoming call waits for the line's answer, in seconds; none where no call waits.
    pub unanswered_since: Option<u64>,
}

impl<L: Link, A: Allocator> Drop for Session<L, A> {
    fn drop(self) {
        let Session {
            link: _,
            connection: _,
            owes_down: _,
            frames: _,
            unwritten: _,
            unanswered_since: _,
        } = self;
    }
}
