//! Writing a whole text, with what a writer that fails has taken of it.
#![tactic(auto)]

mod writing;

pub use writing::{NotWritten, write_out};
