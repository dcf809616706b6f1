//! Who sends a packet, and the name of its type.

ghost use Rattle.std.specs.Prelude.{◌≡◌};
ghost use Rattle.xp_words.specs.Packets.{type_name};

use std::alloc::Allocator;
use xp_packets::Packet;

/// Who sends a packet (X.25 table 5-2).
#[derive(Clone, Copy, Debug, PartialEq, Eq)]
pub enum Direction {
    /// A line sends it to the exchange.
    FromDte,
    /// The exchange sends it to a line.
    FromDce,
}

/// The name of a packet's type, by who sends it (X.25 table 5-2).
pub fn type_name<A: Allocator>(direction: Direction, packet: &Packet<A>) -> &'static str
    ensures { result.now ≡ type_name direction packet.now }
{
    match (packet, direction) {
        (Packet::Call { .. }, Direction::FromDte) => "call request",
        (Packet::Call { .. }, Direction::FromDce) => "incoming call",
        (Packet::Accepted { .. }, Direction::FromDte) => "call accepted",
        (Packet::Accepted { .. }, Direction::FromDce) => "call connected",
        (Packet::Clear { .. }, Direction::FromDte) => "clear request",
        (Packet::Clear { .. }, Direction::FromDce) => "clear indication",
        (Packet::ClearConfirm { .. }, _) => "clear confirmation",
        (Packet::DataPacket { .. }, _) => "data",
        (Packet::Ready { .. }, _) => "RR",
        (Packet::NotReady { .. }, _) => "RNR",
        (Packet::Reject { .. }, _) => "REJ",
        (Packet::Interrupt { .. }, _) => "interrupt",
        (Packet::InterruptConfirm, _) => "interrupt confirmation",
        (Packet::Reset { .. }, Direction::FromDte) => "reset request",
        (Packet::Reset { .. }, Direction::FromDce) => "reset indication",
        (Packet::ResetConfirm, _) => "reset confirmation",
    }
}
