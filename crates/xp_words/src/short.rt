//! Packets in few words, for a column of a diagram.

ghost use Rattle.std.specs.Prelude.{◌≡◌, IfOk};
ghost use Rattle.std.specs.String.{string_bytes};
ghost use Rattle.xp_words.specs.Packets.{short_packet_text};

use crate::block::AddressWords;
use crate::direction::{Direction, type_name};
use crate::numbers::NumberWords;
use crate::octets::HexOctet;
use std::alloc::{AllocError, Allocator, Global};
use std::fmt::{self, Display};
use xp_packets::Packet;

/// A packet in few words, such as `call request 2080020`, `data P(S)=2 P(R)=3 M` or `clear indication 09/0`: a cause in
/// hexadecimal with a diagnostic in decimal.
#[derive(Drop)]
pub struct ShortPacketWords<'a, A: Allocator> {
    pub direction: Direction,
    pub packet: &'a Packet<A>,
}

impl<'a, A: Allocator> ShortPacketWords<'a, A> {
    /// The few words.
    ///
    /// # Errors
    ///
    /// An allocation failed.
    pub fn text(&self, alloc: Global) -> Result<String, AllocError>
        ensures { IfOk result (λ text. string_bytes text ≡ short_packet_text self.now.direction self.now.packet.now) }
    {
        self.to_string(alloc)
    }
}

impl<'a, A: Allocator> Display for ShortPacketWords<'a, A> {
    ghost use Rattle.std.specs.Prelude.{Some};
    ghost use Rattle.xp_words.specs.Packets.{short_packet_text};

    ghost output = { λ words. Some (short_packet_text words.direction words.packet.now) };

    fn fmt<W: fmt::Write>(&self, f: &mut fmt::Formatter<W>) -> fmt::Result {
        let name = type_name(self.direction, self.packet);
        let body = ShortBodyWords(self.packet);
        write!(f, "{name}{body}")
    }
}

/// What a packet says in few words, behind the name of its type.
#[derive(Drop)]
struct ShortBodyWords<'a, A: Allocator>(&'a Packet<A>);

impl<'a, A: Allocator> Display for ShortBodyWords<'a, A> {
    ghost use Rattle.std.specs.Prelude.{Some};
    ghost use Rattle.xp_words.specs.Packets.{short_body_text};

    ghost output = { λ words. Some (short_body_text words.0.now) };

    fn fmt<W: fmt::Write>(&self, f: &mut fmt::Formatter<W>) -> fmt::Result {
        match self.0 {
            Packet::Call { block, .. } => AddressWords {
                preposition: " ",
                digits: &block.called,
            }
            .fmt(f),
            Packet::Clear {
                cause,
                diagnostic,
                ..
            }
            | Packet::Reset { cause, diagnostic } => {
                let cause = HexOctet(*cause);
                match diagnostic {
                    None => write!(f, " {cause}"),
                    Some(diagnostic) => write!(f, " {cause}/{diagnostic}"),
                }
            }
            Packet::DataPacket {
                q,
                d,
                more,
                ps,
                pr,
                ..
            } => NumberWords {
                q: *q,
                d: *d,
                more: *more,
                ps: *ps,
                pr: *pr,
            }
            .fmt(f),
            Packet::Ready { pr } | Packet::NotReady { pr } | Packet::Reject { pr } => {
                write!(f, " P(R)={pr}")
            }
            Packet::Accepted { .. }
            | Packet::ClearConfirm { .. }
            | Packet::Interrupt { .. }
            | Packet::InterruptConfirm
            | Packet::ResetConfirm => Ok(()),
        }
    }
}
