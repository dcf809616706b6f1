//! The content of a packet's block, if it has one.

ghost use Rattle.std.specs.Prelude.{◌≡◌, ◌≢◌, [], false, IsTrue, IfOk};
ghost use Rattle.xp_answer.specs.Blocks.{facilities_in, user_in};

use std::alloc::{AllocError, Allocator};
use xp_packets::{Block, Octets};

/// The facility field of the block.
pub fn facilities_in<A: Allocator>(block: &Option<Block<A>>) -> &[u8]
    ensures { result.now ≡ facilities_in block.now }
{
    match block {
        Some(block) => block.facilities.as_slice(),
        None => &[],
    }
}

/// A copy of the user data of the block. It is empty if there is no block.
///
/// # Errors
///
/// As for [`Octets::copy`].
pub fn user_in<A: Allocator + Copy>(
    alloc: A,
    block: &Option<Block<A>>,
) -> Result<Octets<A>, AllocError>
    ensures { IfOk result (λ user. user ≡ user_in block.now) }
{
    match block {
        Some(block) => block.user.copy(),
        None => Ok(Octets::new(alloc)),
    }
}

/// Whether the block has user data.
pub fn has_user_data<A: Allocator>(block: &Option<Block<A>>) -> bool
    ensures some { IsTrue result → user_in block.now ≢ [] }
    ensures none { result ≡ false → user_in block.now ≡ [] }
{
    match block {
        Some(block) => !block.user.is_empty(),
        None => false,
    }
}
