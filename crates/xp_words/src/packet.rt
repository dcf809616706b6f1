//! Packets in words (X.25 clause 5).

ghost use Rattle.std.specs.Prelude.{◌≡◌, IfOk};
ghost use Rattle.std.specs.String.{string_bytes};
ghost use Rattle.xp_words.specs.Packets.{packet_text};

use crate::block::{BlockWords, OptionalBlockWords};
use crate::causes::{ClearingCause, OptionalDiagnostic, ResettingCause};
use crate::direction::{Direction, type_name};
use crate::numbers::NumberWords;
use crate::octets::OctetWords;
use std::alloc::{AllocError, Allocator, Global};
use std::fmt::{self, Display};
use xp_packets::Packet;

/// A packet as a line of words, such as `data P(S)=2 P(R)=3 M, 5 octets 68656c6c6f "hello"`.
#[derive(Drop)]
pub struct PacketWords<'a, A: Allocator> {
    pub direction: Direction,
    pub packet: &'a Packet<A>,
}

impl<'a, A: Allocator> PacketWords<'a, A> {
    /// The line of words.
    ///
    /// # Errors
    ///
    /// An allocation failed.
    pub fn text(&self, alloc: Global) -> Result<String, AllocError>
        ensures { IfOk result (λ text. string_bytes text ≡ packet_text self.now.direction self.now.packet.now) }
    {
        self.to_string(alloc)
    }
}

impl<'a, A: Allocator> Display for PacketWords<'a, A> {
    ghost use Rattle.std.specs.Prelude.{Some};
    ghost use Rattle.xp_words.specs.Packets.{packet_text};

    ghost output = { λ words. Some (packet_text words.direction words.packet.now) };

    fn fmt<W: fmt::Write>(&self, f: &mut fmt::Formatter<W>) -> fmt::Result {
        let name = type_name(self.direction, self.packet);
        let body = BodyWords(self.packet);
        write!(f, "{name}{body}")
    }
}

/// What a packet says, behind the name of its type.
#[derive(Drop)]
struct BodyWords<'a, A: Allocator>(&'a Packet<A>);

impl<'a, A: Allocator> Display for BodyWords<'a, A> {
    ghost use Rattle.std.specs.Prelude.{Some};
    ghost use Rattle.xp_words.specs.Packets.{body_text};

    ghost output = { λ words. Some (body_text words.0.now) };

    fn fmt<W: fmt::Write>(&self, f: &mut fmt::Formatter<W>) -> fmt::Result {
        match self.0 {
            Packet::Call { d, block } => BlockWords { d: *d, block }.fmt(f),
            Packet::Accepted { d, block } => OptionalBlockWords { d: *d, block }.fmt(f),
            Packet::Clear {
                cause,
                diagnostic,
                block,
            } => {
                let cause = ClearingCause(*cause);
                let diagnostic = OptionalDiagnostic(*diagnostic);
                let block = OptionalBlockWords { d: false, block };
                write!(f, ", cause {cause}{diagnostic}{block}")
            }
            Packet::ClearConfirm { block } => OptionalBlockWords { d: false, block }.fmt(f),
            Packet::DataPacket {
                q,
                d,
                more,
                ps,
                pr,
                octets,
            } => {
                let numbers = NumberWords {
                    q: *q,
                    d: *d,
                    more: *more,
                    ps: *ps,
                    pr: *pr,
                };
                let octets = OctetWords {
                    octets: octets.as_slice(),
                };
                write!(f, "{numbers}, {octets}")
            }
            Packet::Ready { pr } | Packet::NotReady { pr } | Packet::Reject { pr } => {
                write!(f, " P(R)={pr}")
            }
            Packet::Interrupt { octets } => {
                let octets = OctetWords {
                    octets: octets.as_slice(),
                };
                write!(f, ", {octets}")
            }
            Packet::Reset { cause, diagnostic } => {
                let cause = ResettingCause(*cause);
                let diagnostic = OptionalDiagnostic(*diagnostic);
                write!(f, ", cause {cause}{diagnostic}")
            }
            Packet::InterruptConfirm | Packet::ResetConfirm => Ok(()),
        }
    }
}
