//! Packets of X.25 clause 5, as octets and as values.
#![tactic(auto)]

mod address;
mod block;
mod call;
mod clear;
mod data;
mod digits;
mod encodability;
mod end;
mod fault;
mod flow;
mod header;
mod in_place;
mod interrupt;
mod kind;
mod laws;
mod modulus;
mod numbers;
mod octets;
mod packet;
mod reading;
mod reset;
mod writing;

pub use block::Block;
pub use digits::Digits;
pub use end::End;
pub use fault::{Malformed, PacketFault};
pub use laws::{
    either_spelled_or_malformed, encodable_by_both, encodable_is_written, one_written_spelling,
    spelled_is_encodable, written_is_read_back,
};
pub use modulus::Modulus;
pub use octets::Octets;
pub use packet::Packet;
pub use reading::decode;
pub use writing::{encode, write_packet};
