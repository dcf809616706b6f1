//! The messages of lines as a ladder diagram of text, in 80 columns.
#![tactic(auto)]

mod heading;
mod repeated;
mod rung;
mod side;

pub use heading::Heading;
pub use rung::Rung;
pub use side::Side;
