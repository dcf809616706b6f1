ghost use Rattle.std.specs.Prelude.{◌≡◌, ◌≤◌, length, IfOk};
ghost use Rattle.xp_decide.specs.Asks.{is_fast};
ghost use Rattle.xp_answer.specs.Blocks.{user_in};
ghost use Rattle.xp_answer.specs.ForwardedClear.{IsInRange, ForwardedClear, Carries, TakesOver, block_with, told_cleared};
ghost use Rattle.xp_answer.specs.Fields.{CanBeSent};

use crate::block::{facilities_in, user_in};
use crate::field::field_of;
use std::alloc::{AllocError, Allocator};
use xp_causes::{indicated_cause, indicated_diagnostic};
use xp_facilities::{
    ChargingInformation, FacilityFault, FastSelect, IndicatedFacilities, Selection, parse,
};
use xp_packets::{Block, Digits, Octets, Packet};

/// The clear indication that the far end of a call receives for a clear request with this cause, diagnostic and
/// block. With fast select of either kind, the user data and the facilities between DTEs are forwarded. If `charging`
/// is given, it indicates the call's duration and segments; this is for the line that pays for the call.
///
/// # Errors
///
/// An allocation failed.
pub fn forward_clear<A: Allocator + Copy>(
    alloc: A,
    fast: FastSelect,
    cause: u8,
    diagnostic: Option<u8>,
    block: &Option<Block<A>>,
    charging: Option<ChargingInformation>,
) -> Result<Packet<A>, AllocError>
    requires { IsInRange charging }
    ensures carried { IfOk result (ForwardedClear fast cause diagnostic block.now charging) }

    // If there are at most 128 octets of user data, the packet can be encoded.
    ensures sent { length (user_in block.now) ≤ 128 → IfOk result CanBeSent }
{
    let (user, dte) = carried(alloc, fast, block)?;
    let facilities = field_of(alloc, &tell(charging, dte))?;
    Ok(Packet::Clear {
        cause: indicated_cause(cause),
        diagnostic: Some(indicated_diagnostic(diagnostic)),
        block: block_with(facilities, user),
    })
}

/// What is forwarded of the block of a clear request: user data, and facilities between DTEs.
fn carried<A: Allocator + Copy>(
    alloc: A,
    fast: FastSelect,
    block: &Option<Block<A>>,
) -> Result<(Octets<A>, Octets<A>), AllocError>
    ensures { IfOk result (λ carried. Carries fast block.now carried.0 carried.1) }
{
    if !is_fast_select(fast) {
        return Ok((Octets::new(alloc), Octets::new(alloc)));
    }
    let user = user_in(alloc, block)?;
    let dte = dte_in(alloc, facilities_in(block))?;
    Ok((user, dte))
}

/// The facilities between DTEs of a field. There are none if the field is faulty.
fn dte_in<A: Allocator + Copy>(alloc: A, field: &[u8]) -> Result<Octets<A>, AllocError>
    ensures { IfOk result (TakesOver A field.now) }
{
    match parse(alloc, field) {
        Ok(asked) => Ok(asked.dte),
        Err(fault) => {
            if fault == FacilityFault::Memory {
                return Err(AllocError);
            }
            Ok(Octets::new(alloc))
        }
    }
}

/// The facilities of the clear indication.
pub fn tell<A: Allocator>(
    charging: Option<ChargingInformation>,
    dte: Octets<A>,
) -> IndicatedFacilities<A>
    ensures { result ≡ told_cleared charging dte }
{
    IndicatedFacilities {
        selection: Selection::Nothing,
        fast: FastSelect::No,
        reverse: false,
        throughput: None,
        modified: None,
        packet: None,
        window: None,
        redirected: None,
        duration: charging.map(|told| told.duration),
        segments: charging.map(|told| told.segments),
        dte,
    }
}

/// A block without addresses, or none if there is nothing to carry.
pub fn block_with<A: Allocator>(facilities: Octets<A>, user: Octets<A>) -> Option<Block<A>>
    ensures { result ≡ block_with facilities user }
{
    if facilities.is_empty() && user.is_empty() {
        return None;
    }
    Some(Block {
        called: Digits::new(),
        calling: Digits::new(),
        facilities,
        user,
    })
}

/// Whether the call has fast select of either kind.
fn is_fast_select(fast: FastSelect) -> bool
    ensures { result ≡ is_fast fast }
{
    fast != FastSelect::No
}
