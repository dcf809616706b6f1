//! The calls that are connected, kept in a file as the records that they would have if the exchange died now; and the records that
//! the calls of a run that died get from it.
#![tactic(auto)]

mod beginning;
mod connected;
mod kept_text;
mod laws;
mod left_calls;
mod live_fault;
mod live_file;
mod live_keeper;
mod live_thread;
mod text;

pub use beginning::{LeftBehind, begin_live};
pub use connected::live_calls;
pub use kept_text::KeptText;
pub use laws::live_calls_are_connected;
pub use left_calls::LeftCalls;
pub use live_fault::LiveFault;
pub use live_file::{LiveFile, WholeFile};
pub use live_keeper::LiveKeeper;
pub use live_thread::LiveThread;
pub use text::live_text;
