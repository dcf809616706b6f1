//! What the lines of an exchange share.

use crate::signals::Signals;
use std::alloc::{Allocator, Global};
use xp_lock::Exchange;
use xp_seats::Name;

/// What the lines of an exchange share: the runtime, the allocator, the exchange, and the signals between the threads.
#[derive(Drop)]
pub struct Shared<'a, N: Name, R, A: Allocator = Global> {
    pub(crate) rt: &'a R,
    pub(crate) alloc: A,
    pub(crate) exchange: &'a Exchange<N, A>,
    pub(crate) signals: &'a Signals,
}

impl<'a, N: Name, R, A: Allocator> Shared<'a, N, R, A> {
    /// What these lines share.
    pub fn new(
        rt: &'a R,
        alloc: A,
        exchange: &'a Exchange<N, A>,
        signals: &'a Signals,
    ) -> Shared<'a, N, R, A> {
        Shared {
            rt,
            alloc,
            exchange,
            signals,
        }
    }
}
