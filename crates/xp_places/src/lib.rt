//! Where the fault of a refused subscription file is, in words for a person.
#![tactic(auto)]

mod alone;
mod default_callers;
mod file_line;
mod indexes;
mod place;
mod refused;
mod twice;
mod wanted;

pub use refused::place_of;
