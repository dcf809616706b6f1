//! The state of the exchange: its lines, its live calls and the relays of the connected ones, with the changes of this
//! state.
#![tactic(auto)]

mod agreement;
mod call;
mod change;
mod channel;
mod machine;
mod relays;
mod view;
mod workspace;

pub use agreement::Agreement;
pub use call::{CallKey, LiveCall};
pub use change::{Change, NoCallState};
pub use channel::{ChannelState, LogicalChannel};
pub use machine::Machine;
pub use relays::{MeteredRelay, RelayUpdate, Relays, StoredMeteredRelay};
pub use view::LineView;
pub use workspace::Workspace;
