//! Replays a script: reads its lines, and writes the text of what the exchange sends and records.
#![tactic(auto)]

mod acting;
mod fault;
mod frames;
mod line_reader;
mod next_tables;
mod playing;
mod reloading;
mod replaying;
mod streams;
mod writing;

pub use fault::ReplayFault;
pub use next_tables::NextTables;
pub use playing::ScriptPlayer;
pub use replaying::{Replayed, replay, replay_on};
pub use writing::write_out;
