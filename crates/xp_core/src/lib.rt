//! The call-control exchange as one machine. It takes an event of a line, and enters it into the history, which
//! proofs alone can read.
#![tactic(auto)]

mod advance;
mod call_view;
mod exchange;
mod fault;
mod journal;
mod laws;
mod reload;
mod stalling;

pub use call_view::CallView;
pub use exchange::Core;
pub use fault::StepFault;
pub use laws::{
    every_event_has_a_step, other_lines_follow, stalls_give_lines_up, state_follows_the_table,
    step_is_determined_but_the_line,
};
pub use reload::ReloadFault;
