//! The call that a router's connection opens with.

ghost use Rattle.std.specs.Prelude.{◌≡◌, IfOk, IfSome};
ghost use Rattle.xp_door.specs.RouterCalls.{IsCallOf, IsRefusal};
ghost use Rattle.xp_door.specs.steps.RouterCalls.{IsCallBy, call_in};

use std::alloc::{AllocError, Global};
use std::net::IpAddr;
use xp_causes::Refusal;
use xp_frames::write_frame;
use xp_packets::{
    Digits, Modulus, Packet, PacketFault, decode, either_spelled_or_malformed, encode,
};

/// A call request that a router brings (X.25 clause 5.2.2).
#[derive(Drop)]
pub struct RouterCall {
    /// Where the connection comes from.
    pub peer: IpAddr,
    /// How its packets are numbered, by its general format identifier.
    pub modulus: Modulus,
    /// Its logical channel identifier, 0 to 4,095.
    pub identifier: u16,
    /// The calling address, which may have no digits.
    pub calling: Digits,
}

impl RouterCall {
    /// The call request that a packet is. `None` where it is none by either modulus.
    ///
    /// # Errors
    ///
    /// `AllocError` if an allocation fails.
    pub fn of(alloc: Global, peer: IpAddr, packet: &[u8]) -> Result<Option<RouterCall>, AllocError>
        ensures { IfOk result (IsCallOf peer packet.now) }
    {
        match RouterCall::by(alloc, Modulus::Eight, peer, packet)? {
            Some(call) => Ok(Some(call)),
            None => RouterCall::by(alloc, Modulus::Long, peer, packet),
        }
    }

    /// The call request that a packet of this modulus is.
    fn by(
        alloc: Global,
        modulus: Modulus,
        peer: IpAddr,
        packet: &[u8],
    ) -> Result<Option<RouterCall>, AllocError>
        ensures { IfOk result (IsCallBy modulus peer packet.now) }
    {
        // Octets spell one packet at most.
        either_spelled_or_malformed::<Global>();
        match decode(alloc, modulus, packet) {
            Ok((identifier, packet)) => Ok(RouterCall::in_packet(
                modulus, identifier, peer, &packet,
            )),
            Err(PacketFault::Malformed(_)) => Ok(None),
            Err(PacketFault::Memory) => Err(AllocError),
        }
    }

    /// The call request that a packet is, on this logical channel.
    fn in_packet(
        modulus: Modulus,
        identifier: u16,
        peer: IpAddr,
        packet: &Packet,
    ) -> Option<RouterCall>
        ensures { result ≡ call_in modulus identifier peer packet.now }
    {
        match packet {
            Packet::Call { d: _, block } => Some(RouterCall {
                peer,
                modulus,
                identifier,
                calling: block.calling.copy(),
            }),
            _ => None,
        }
    }

    /// The frame of the clear indication that refuses it (X.25 clause 5.2.4). `None` if an allocation fails.
    pub fn refusal(&self, alloc: Global, refusal: Refusal) -> Option<Vec<u8>>
        ensures { IfSome result (λ octets. IsRefusal self.now refusal octets.items) }
    {
        let clear = Packet::Clear {
            cause: refusal.cause,
            diagnostic: Some(refusal.diagnostic),
            block: None,
        };
        let packet = encode(alloc, self.modulus, self.identifier, &clear).ok()?;
        let mut octets = Vec::new(alloc);
        write_frame(&packet, &mut octets).ok()?;
        Some(octets)
    }
}
