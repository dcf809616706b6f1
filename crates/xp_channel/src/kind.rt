ghost use Rattle.std.specs.Prelude.{◌≡◌};
ghost use Rattle.xp_channel.specs.Kinds.{kind_of, kind_of_malformed};

use std::alloc::Allocator;
use xp_packets::{Malformed, Packet};

/// The kinds of events: the columns of the table of actions.
#[derive(Clone, Copy)]
pub enum EventKind {
    /// The line's connection is up.
    Up,
    /// The line's connection is down, or the exchange gave it up because nothing was read from it.
    Down,
    Call,
    Accepted,
    Clear,
    ClearConfirm,
    /// Data, flow control, interrupts and resets.
    Relayed,
    /// The time to answer an incoming call (T11) is over.
    Expire,
    /// A frame that is not a packet, with the diagnostic that gives the reason.
    Malformed(u8),
}

impl EventKind {
    /// The kind of a packet.
    pub fn of<A: Allocator>(packet: &Packet<A>) -> EventKind
        ensures { result ≡ kind_of packet.now }
    {
        match packet {
            Packet::Call { .. } => EventKind::Call,
            Packet::Accepted { .. } => EventKind::Accepted,
            Packet::Clear { .. } => EventKind::Clear,
            Packet::ClearConfirm { .. } => EventKind::ClearConfirm,
            Packet::DataPacket { .. }
            | Packet::Ready { .. }
            | Packet::NotReady { .. }
            | Packet::Reject { .. }
            | Packet::Interrupt { .. }
            | Packet::InterruptConfirm
            | Packet::Reset { .. }
            | Packet::ResetConfirm => EventKind::Relayed,
        }
    }

    /// The kind of a frame that is not a packet.
    pub fn of_malformed(wrong: Malformed) -> EventKind
        ensures { result ≡ kind_of_malformed wrong }
    {
        EventKind::Malformed(wrong.diagnostic())
    }
}
