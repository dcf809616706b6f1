//! The block of addresses, facilities and user data (X.25 clauses 5.2.1 to 5.2.5).

ghost use Rattle.std.specs.Prelude.{◌≡◌, ◌≤◌, ◌++◌, false, is_some, length, true, OnOk};
ghost use Rattle.xp_packets.specs.Addresses.{AreAddresses, BlockHasAddresses};
ghost use Rattle.xp_packets.specs.Encodability.{has_long_facilities};
ghost use Rattle.xp_packets.specs.steps.Reading.{MatchesReading, MatchesReadingOrMemory, block_at, fields_at, optional_block_at};
ghost use Rattle.xp_packets.specs.Writing.{written_block, written_optional_block};

use crate::address::{addresses_of, push_addresses};
use crate::digits::Digits;
use crate::fault::{Malformed, PacketFault};
use crate::octets::Octets;
use std::alloc::{AllocError, Allocator, Global};

/// The most octets of facilities (clause 5.2.2).
pub(crate) const MOST_FACILITIES: usize = 109;

/// The most octets of user data (clause 5.2.2).
pub(crate) const MOST_USER: usize = 128;

/// The most octets of user data in a clear confirmation (clause 5.2.5): none.
pub(crate) const NO_USER: usize = 0;

/// The address block, facilities and user data of a call set-up or clearing packet
/// (X.25 clauses 5.2.1 to 5.2.5).
pub struct Block<A: Allocator = Global> {
    /// The called address, 0 to 15 digits.
    pub called: Digits,
    /// The calling address, 0 to 15 digits.
    pub calling: Digits,
    /// The facility field, at most 109 octets.
    pub facilities: Octets<A>,
    /// User data, at most 128 octets; none in a clear confirmation.
    pub user: Octets<A>,
}

impl<A: Allocator> Drop for Block<A> {
    fn drop(self) {
        let Block {
            called: _,
            calling: _,
            facilities: _,
            user: _,
        } = self;
    }
}

impl<A: Allocator> Clone for Block<A> {
    ghost is_clone = { λ block cloned. cloned ≡ block };

    fn clone(&self) -> Result<Block<A>, AllocError> {
        let facilities = self.facilities.copy()?;
        let user = self.user.copy()?;
        Ok(Block {
            called: self.called.copy(),
            calling: self.calling.copy(),
            facilities,
            user,
        })
    }
}

/// Reads a block, which must use all the octets. Its user data has at most `most` octets. Nothing is copied before
/// every check has passed.
#[tactic(auto, unfolding(crate::specs::steps::Reading::block_at))]
pub(crate) fn block_of<A: Allocator + Copy>(
    alloc: A,
    octets: &[u8],
    most: usize,
) -> Result<Block<A>, PacketFault>
    ensures { MatchesReadingOrMemory (λ _. true) result (block_at most octets.now) }
{
    let Some((lengths, rest)) = octets.split_first() else {
        return Err(Malformed::Short.into());
    };
    let called = usize::from(*lengths % 16);
    let calling = usize::from(*lengths / 16);
    let (called, calling, rest) = addresses_of(called, calling, rest)?;
    let (facilities, user) = fields_of(rest, most)?;
    let facilities = Octets::from_slice(alloc, facilities)?;
    let user = Octets::from_slice(alloc, user)?;
    Ok(Block {
        called,
        calling,
        facilities,
        user,
    })
}

/// Reads a block of at most `most` octets of user data. Returns `None` where there are no octets.
#[tactic(auto, unfolding(crate::specs::steps::Reading::optional_block_at))]
pub(crate) fn optional_block_of<A: Allocator + Copy>(
    alloc: A,
    octets: &[u8],
    most: usize,
) -> Result<Option<Block<A>>, PacketFault>
    ensures { MatchesReadingOrMemory is_some result (optional_block_at most octets.now) }
{
    match octets {
        [] => Ok(None),
        [_, ..] => Ok(Some(block_of(alloc, octets, most)?)),
    }
}

/// The facilities and the user data, which follow the addresses. The user data has at most `most` octets.
#[tactic(auto, unfolding(crate::specs::steps::Reading::fields_at))]
fn fields_of(octets: &[u8], most: usize) -> Result<(&[u8], &[u8]), Malformed>
    ensures { MatchesReading (λ x. (x.0.now, x.1.now)) result (fields_at most octets.now) }
{
    match octets {
        [] => Ok((octets, octets)),
        [size, rest @ ..] => {
            let size = usize::from(*size);
            if size > MOST_FACILITIES || rest.len() < size {
                return Err(Malformed::Facilities);
            }
            let (facilities, user) = rest.split_at(size);
            if user.len() > most {
                return Err(Malformed::Long);
            }
            Ok((facilities, user))
        }
    }
}

/// Writes a block, with its address length octet and its facility length octet.
pub(crate) fn push_block<A: Allocator>(
    out: &mut Vec<u8, A>,
    block: &Block<A>,
) -> Result<(), AllocError>
    requires { length block.now.facilities ≤ 109 }
    ensures written { OnOk result (out.new.items ≡ out.old.items ++ written_block block.now) }
    ensures addressed { OnOk result (AreAddresses block.now.called block.now.calling) }
{
    let called = block.called.len() as u8;
    let calling = block.calling.len() as u8;
    let size = block.facilities.len() as u8;
    out.push((calling << 4) | called)?;
    push_addresses(out, &block.called, &block.calling)?;
    out.push(size)?;
    push_octets(out, block.facilities.as_slice())?;
    push_octets(out, block.user.as_slice())
}

/// Appends octets unchanged. Often there are none.
pub(crate) fn push_octets<A: Allocator>(
    out: &mut Vec<u8, A>,
    octets: &[u8],
) -> Result<(), AllocError>
    ensures { OnOk result (out.new.items ≡ out.old.items ++ octets.now) }
{
    if octets.is_empty() {
        return Ok(());
    }
    out.extend_from_slice(octets)
}

/// Writes a block, if there is one.
pub(crate) fn push_optional_block<A: Allocator>(
    out: &mut Vec<u8, A>,
    block: &Option<Block<A>>,
) -> Result<(), AllocError>
    requires { has_long_facilities block.now ≡ false }
    ensures written { OnOk result (out.new.items ≡ out.old.items ++ written_optional_block block.now) }
    ensures addressed { OnOk result (BlockHasAddresses block.now) }
{
    match block {
        None => Ok(()),
        Some(block) => push_block(out, block),
    }
}
