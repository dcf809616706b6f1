//! Lists that only proofs read. A program that runs for years has such a list of all that happened, and no memory of it.
#![tactic(auto)]

mod past;

pub use past::Past;
