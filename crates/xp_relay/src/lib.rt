//! What one call carries once it is set up: data, flow control, interrupts and resets (X.25 clauses 4.3 and 4.4).
#![tactic(auto)]

mod data;
mod direction_state;
mod judged;
mod laws;
mod moves;
mod relay;
mod state;
mod terms;
mod turns;

pub use data::{Data, Interruption, SequenceNumbers};
pub use judged::Judged;
pub use laws::{
    a_turn_puts_out_few, every_packet_put_out_can_be_encoded, everything_is_delivered,
    interrupts_are_delivered, received_number_stands_for_the_count, senders_are_told,
};
pub use moves::{Move, Moves};
pub use relay::Relay;
pub use state::FlowState;
pub use terms::{Agreed, DirectionTerms, Terms};
