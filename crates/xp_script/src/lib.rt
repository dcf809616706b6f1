//! Scripts: what their lines say, and the text of what the exchange puts out and records.
#![tactic(auto)]

mod command;
mod digits;
mod entry;
mod fault;
mod input_octets;
mod line;
mod moment;
mod named_tables;
mod output;
mod text;
mod words;

pub use command::{Command, MAX_LINE_OCTETS};
pub use entry::write_entry;
pub use fault::LineFault;
pub use input_octets::InputOctets;
pub use named_tables::NamedTables;
