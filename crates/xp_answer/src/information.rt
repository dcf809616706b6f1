//! The packets by which the exchange itself ends a call, with charging information for the line that pays. They need
//! no allocation.

ghost use Rattle.std.specs.Prelude.{◌≡◌, []};
ghost use Rattle.xp_answer.specs.ForwardedClear.{IsInRange, block_with};
ghost use Rattle.xp_answer.specs.Fields.{CanBeSent};
ghost use Rattle.xp_answer.specs.Information.{cleared_with, confirmed_with, information_field};

use std::alloc::Allocator;
use xp_facilities::{ChargingInformation, charging_field};
use xp_packets::{Block, Digits, Octets, Packet};

/// A clear indication from the exchange itself (X.25 clause 5.2.4). If `charging` is given, it indicates the call's
/// duration and segments; this is for the line that pays for the call.
pub fn clear_indication<A: Allocator>(
    alloc: A,
    cause: u8,
    diagnostic: u8,
    charging: Option<ChargingInformation>,
) -> Packet<A>
    requires { IsInRange charging }
    ensures told { result ≡ cleared_with cause diagnostic charging }
    ensures sent { CanBeSent result }
{
    Packet::Clear {
        cause,
        diagnostic: Some(diagnostic),
        block: information(alloc, charging),
    }
}

/// A clear confirmation (X.25 clause 5.2.5). If `charging` is given, it indicates the call's duration and segments;
/// this is for the line that pays for the call.
pub fn clear_confirmation<A: Allocator>(
    alloc: A,
    charging: Option<ChargingInformation>,
) -> Packet<A>
    requires { IsInRange charging }
    ensures told { result ≡ confirmed_with charging }
    ensures sent { CanBeSent result }
{
    Packet::ClearConfirm {
        block: information(alloc, charging),
    }
}

/// The block that indicates charging information, or none if there is none to indicate.
fn information<A: Allocator>(alloc: A, charging: Option<ChargingInformation>) -> Option<Block<A>>
    ensures { result ≡ block_with (information_field charging) [] }
{
    let charging = charging?;
    Some(Block {
        called: Digits::new(),
        calling: Digits::new(),
        facilities: Octets::of_sixteen(charging_field(charging)),
        user: Octets::new(alloc),
    })
}
