//! How the call of a connection is cleared, by the frames that pass on it (RFC 1613, X.25 clause 4.1.7), and with which octet it
//! ends. No octet is kept.
#![tactic(auto)]

mod call_watch;
mod clearing;
mod frame_watch;

pub use call_watch::CallWatch;
pub use clearing::Clearing;
pub use frame_watch::{FrameWatch, PassedFrame, begins_with_call, front_length};
