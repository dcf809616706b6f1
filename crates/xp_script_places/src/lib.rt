//! What was wanted at the faulty line of a script, and why subscriptions that a line names cannot come into force, in words for a
//! person.
#![tactic(auto)]

mod kept_lines;
mod kept_script;
mod refused;
mod shown;
mod trial;
mod wanted;

pub use kept_lines::KeptLines;
pub use kept_script::KeptScript;
pub use refused::{refused_lines, refused_tables};
pub use wanted::wanted_in;
