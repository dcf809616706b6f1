ghost use Rattle.std.specs.Prelude.{◌≤◌, length, IfOk};
ghost use Rattle.xp_decide.specs.Written.{CanBeWritten};
ghost use Rattle.xp_answer.specs.Fields.{CanBeSent};
ghost use Rattle.xp_answer.specs.Incoming.{IsIncomingCall};

use crate::field::field_of;
use std::alloc::{AllocError, Allocator};
use xp_decide::IncomingCall;
use xp_packets::{Block, Digits, Packet};

/// The incoming call packet for the line that rings. `called` is that line's address and `calling` the caller's. The
/// D bit and the block are those of the call request.
///
/// # Errors
///
/// An allocation failed.
pub fn incoming_call<A: Allocator + Copy>(
    alloc: A,
    ring: &IncomingCall<A>,
    called: &Digits,
    calling: &Digits,
    d: bool,
    block: &Block<A>,
) -> Result<Packet<A>, AllocError>
    requires { CanBeWritten ring.now.told }
    ensures put { IfOk result (IsIncomingCall ring.now called.now calling.now d block.now) }

    // If there are at most 128 octets of user data, the packet can be encoded.
    ensures sent { length block.now.user ≤ 128 → IfOk result CanBeSent }
{
    let facilities = field_of(alloc, &ring.told)?;
    let user = block.user.copy()?;
    Ok(Packet::Call {
        d,
        block: Block {
            called: called.copy(),
            calling: calling.copy(),
            facilities,
            user,
        },
    })
}
