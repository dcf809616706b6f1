//! What an operator is shown of a serving exchange: its lines, live calls and last records, as they are at one moment.
#![tactic(auto)]

mod board;
mod board_name;
mod calls;
mod ended;
mod lines;
mod naming;
mod notes;
mod observer;
mod reloading;
mod routers;
mod stations;

pub use board::{BoardSource, StatusBoard};
pub use board_name::BoardName;
pub use naming::Naming;
pub use notes::RunBegin;
pub use observer::{Observer, Traffic};
pub use reloading::ReloadOutcome;
