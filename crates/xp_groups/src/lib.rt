//! Closed user groups (X.25 clause 6.14, X.301): the group within which a call is made, and the stations that admit
//! it.
#![tactic(auto)]

mod admission;
mod calling;
mod intention;
mod laws;

pub use admission::{Admission, admit};
pub use calling::intent;
pub use intention::Intent;
pub use laws::{
    admission_is_determined, every_intent_is_answered, every_selection_is_answered,
    intent_is_determined, joined_stations_may_join,
};
