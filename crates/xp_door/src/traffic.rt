//! The octets that the connections of lines have moved.

use crossbeam_utils::CachePadded;
use std::alloc::{AllocError, Global};
use std::sync::atomic::AtomicU64;
use std::sync::atomic::Ordering::SeqCst;
use xp_subs::LineNo;

/// Over how many places the counts are spread, so that the threads of lines seldom write to the same one.
const PLACES: usize = 16;

/// What the connections of some lines have moved.
#[derive(Drop)]
struct Counts {
    received: AtomicU64,
    sent: AtomicU64,
}

/// The octets that the connections of all lines have received and sent.
#[derive(Drop)]
pub(crate) struct Traffic {
    places: Vec<CachePadded<Counts>>,
}

impl Traffic {
    /// Nothing was moved yet.
    pub(crate) fn new(alloc: Global) -> Result<Traffic, AllocError> {
        let mut places = Vec::with_capacity(alloc, PLACES)?;
        for _place in 0..PLACES {
            places.push(CachePadded::new(Counts {
                received: AtomicU64::new(0),
                sent: AtomicU64::new(0),
            }))?;
        }
        Ok(Traffic { places })
    }

    /// Counts octets that a line has received.
    pub(crate) fn receive(&self, line: LineNo, octets: usize) {
        if let Some(counts) = self.places.get(usize::from(line) % PLACES) {
            counts.received.fetch_add(octets as u64, SeqCst);
        }
    }

    /// Counts octets that a line has sent.
    pub(crate) fn send(&self, line: LineNo, octets: usize) {
        if let Some(counts) = self.places.get(usize::from(line) % PLACES) {
            counts.sent.fetch_add(octets as u64, SeqCst);
        }
    }

    /// How many octets were received so far, and how many sent.
    pub(crate) fn sums(&self) -> (u64, u64) {
        let mut received = 0_u64;
        let mut sent = 0_u64;
        for counts in &self.places {
            received = received.wrapping_add(counts.received.load(SeqCst));
            sent = sent.wrapping_add(counts.sent.load(SeqCst));
        }
        (received, sent)
    }
}
