//! Packets, causes, diagnostics and facilities in words.
#![tactic(auto)]

mod block;
mod causes;
mod direction;
mod facility;
mod field;
mod names;
mod numbers;
mod octets;
mod packet;
mod short;

pub use causes::{ClearingCause, Diagnostic, ResettingCause};
pub use direction::{Direction, type_name};
pub use octets::OctetWords;
pub use packet::PacketWords;
pub use short::ShortPacketWords;
