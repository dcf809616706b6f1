//! Whether a line goes on, and with what.

use crate::line::EndReason;
use crate::session::Session;
use xp_links::Link;

/// The state of a line that a thread serves.
#[derive(Drop)]
pub(crate) enum LineState<L: Link> {
    /// It goes on, with its link if it has one.
    Open(Option<Session<L>>),
    /// It was stopped: the exchange has accepted its Down, and what waits for its link is still to be written.
    Stopped(Session<L>),
    /// It has ended.
    Ended(EndReason),
}
