//! Other subscriptions, which are to come into force while the exchange serves.

use thiserror::Error;
use xp_core::ReloadFault;
use xp_subs::Subs;

/// Other subscriptions, which are to come into force.
#[derive(Drop)]
pub struct NextSubs {
    pub subs: Subs,
    /// When they are asked for, in seconds since 1970.
    pub moment: u64,
}

/// Why other subscriptions did not come into force. Those before them are in force as they were.
#[derive(Clone, Copy, Debug, Error)]
pub enum NotInForce {
    /// The exchange was halted.
    #[error("the exchange is halted")]
    Halted,
    /// They cannot come into force now.
    #[error("{0}")]
    Refused(ReloadFault),
    /// An allocation failed.
    #[error("out of memory")]
    Memory,
}
