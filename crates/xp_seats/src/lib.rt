//! Who has seen how much of an exchange's history, for proofs alone; the recorder; and the name that ties passes and the recorder to
//! one exchange.
#![tactic(auto)]

mod name;
mod recorder;
mod seats_for_proofs;

pub use name::Name;
pub use recorder::Recorder;
pub use seats_for_proofs::{HistorySeat, SeatsForProofs};
