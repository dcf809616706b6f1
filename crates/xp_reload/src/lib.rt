//! What stays as it is while the exchange serves, though the rest of its subscriptions changes.
#![tactic(auto)]

mod frame;

pub use frame::{FrameChange, frame_change, keeps_line};
