//! Which packets cannot be encoded.

ghost use Rattle.std.specs.Prelude.{◌≡◌};
ghost use Rattle.xp_packets.specs.Encodability.{block_of, has_long_facilities, has_more_user_data, has_wrong_number, is_too_long, lacks_octet, encoding_fault};

use crate::block::{Block, MOST_FACILITIES, MOST_USER, NO_USER};
use crate::data::MOST_DATA;
use crate::fault::Malformed;
use crate::interrupt::MOST_INTERRUPT;
use crate::modulus::Modulus;
use crate::numbers::is_over;
use crate::packet::Packet;
use std::alloc::Allocator;

/// The greatest logical channel identifier (X.25 clauses 5.1.2 and 5.1.3).
const MOST_IDENTIFIER: u16 = 4095;

/// The first reason, in the order of the checks, why the packet cannot be encoded.
pub(crate) fn first_encoding_fault<A: Allocator>(
    modulus: Modulus,
    identifier: u16,
    packet: &Packet<A>,
) -> Option<Malformed>
    ensures { result ≡ encoding_fault modulus identifier packet.now }
{
    if lacks_octet(packet) {
        return Some(Malformed::Short);
    }
    if has_wrong_number(modulus, packet) || identifier > MOST_IDENTIFIER {
        return Some(Malformed::Format);
    }
    if carries_long_facilities(packet) {
        return Some(Malformed::Facilities);
    }
    if is_too_long(packet) {
        return Some(Malformed::Long);
    }
    None
}

/// Whether this is an interrupt without data, or a clear with a block but no diagnostic before it.
fn lacks_octet<A: Allocator>(packet: &Packet<A>) -> bool
    ensures { result ≡ lacks_octet packet.now }
{
    match packet {
        Packet::Clear {
            diagnostic: None,
            block: Some(_),
            ..
        } => true,
        Packet::Interrupt { octets } => octets.is_empty(),
        _ => false,
    }
}

/// Whether P(S) or P(R) is over 7, or modulo 128 over 127.
fn has_wrong_number<A: Allocator>(modulus: Modulus, packet: &Packet<A>) -> bool
    ensures { result ≡ has_wrong_number modulus packet.now }
{
    match packet {
        Packet::DataPacket { ps, pr, .. } => is_over(modulus, *ps) || is_over(modulus, *pr),
        Packet::Ready { pr } | Packet::NotReady { pr } | Packet::Reject { pr } => is_over(
            modulus, *pr,
        ),
        _ => false,
    }
}

/// Whether there are more than 109 octets of facilities.
fn carries_long_facilities<A: Allocator>(packet: &Packet<A>) -> bool
    ensures { result ≡ has_long_facilities (block_of packet.now) }
{
    match packet {
        Packet::Call { block, .. } => block.facilities.len() > MOST_FACILITIES,
        Packet::Accepted { block, .. }
        | Packet::Clear { block, .. }
        | Packet::ClearConfirm { block } => has_long_facilities(block),
        _ => false,
    }
}

fn has_long_facilities<A: Allocator>(block: &Option<Block<A>>) -> bool
    ensures { result ≡ has_long_facilities block.now }
{
    match block {
        Some(block) => block.facilities.len() > MOST_FACILITIES,
        None => false,
    }
}

/// Whether there is more user data, data or interrupt data than a packet of its kind may carry.
fn is_too_long<A: Allocator>(packet: &Packet<A>) -> bool
    ensures { result ≡ is_too_long packet.now }
{
    match packet {
        Packet::Call { block, .. } => block.user.len() > MOST_USER,
        Packet::Accepted { block, .. } | Packet::Clear { block, .. } => {
            has_more_user_data(MOST_USER, block)
        }
        Packet::ClearConfirm { block } => has_more_user_data(NO_USER, block),
        Packet::DataPacket { octets, .. } => octets.len() > MOST_DATA,
        Packet::Interrupt { octets } => octets.len() > MOST_INTERRUPT,
        _ => false,
    }
}

fn has_more_user_data<A: Allocator>(most: usize, block: &Option<Block<A>>) -> bool
    ensures { result ≡ has_more_user_data most block.now }
{
    match block {
        Some(block) => block.user.len() > most,
        None => false,
    }
}
