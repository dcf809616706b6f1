//! Clearing packets (X.25 clauses 5.2.4 and 5.2.5).

ghost use Rattle.std.specs.Prelude.{◌≡◌, ◌++◌, OnOk};
ghost use Rattle.xp_packets.specs.Owning.{owns_octets};
ghost use Rattle.xp_packets.specs.steps.Reading.{MatchesReadingOrMemory, clear_at, clear_confirm_at};
ghost use Rattle.xp_packets.specs.Writing.{written_cause};

use crate::block::{MOST_USER, NO_USER, optional_block_of, push_octets};
use crate::fault::{Malformed, PacketFault};
use crate::packet::Packet;
use std::alloc::{AllocError, Allocator};

/// Reads the octets after the type of a clear request.
#[tactic(auto, unfolding(crate::specs::steps::Reading::clear_at))]
pub(crate) fn clear_of<A: Allocator + Copy>(alloc: A, rest: &[u8]) -> Result<Packet<A>, PacketFault>
    ensures { MatchesReadingOrMemory owns_octets result (clear_at rest.now) }
{
    let Some((cause, rest)) = rest.split_first() else {
        return Err(Malformed::Short.into());
    };
    let Some((diagnostic, rest)) = rest.split_first() else {
        return Ok(Packet::Clear {
            cause: *cause,
            diagnostic: None,
            block: None,
        });
    };
    let block = optional_block_of(alloc, rest, MOST_USER)?;
    Ok(Packet::Clear {
        cause: *cause,
        diagnostic: Some(*diagnostic),
        block,
    })
}

/// Reads the octets after the type of a clear confirmation, which carries no user data.
#[tactic(auto, unfolding(crate::specs::steps::Reading::clear_confirm_at))]
pub(crate) fn clear_confirm_of<A: Allocator + Copy>(
    alloc: A,
    rest: &[u8],
) -> Result<Packet<A>, PacketFault>
    ensures { MatchesReadingOrMemory owns_octets result (clear_confirm_at rest.now) }
{
    let block = optional_block_of(alloc, rest, NO_USER)?;
    Ok(Packet::ClearConfirm { block })
}

/// Writes the cause of a clear or a reset, and its diagnostic if it has one (clauses 5.2.4 and 5.4.3).
pub(crate) fn push_cause<A: Allocator>(
    out: &mut Vec<u8, A>,
    cause: u8,
    diagnostic: Option<u8>,
) -> Result<(), AllocError>
    ensures { OnOk result (out.new.items ≡ out.old.items ++ written_cause cause diagnostic) }
{
    match diagnostic {
        None => push_octets(out, &[cause]),
        Some(diagnostic) => push_octets(out, &[cause, diagnostic]),
    }
}
