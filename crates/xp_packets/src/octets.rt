ghost use Rattle.std.specs.Prelude.{◌≡◌, ◌↔◌, [], IfOk, IsTrue, length};

use crate::in_place::{InPlaceOctets, MOST_IN_PLACE};
use std::alloc::{AllocError, Allocator, Global};
use std::marker::Model;
use std::sync::ArcSlice;

/// The octets that a packet carries unchanged: user data, facilities or interrupt data. Copies share one block of
/// memory.
pub struct Octets<A: Allocator = Global> {
    held: Storage<A>,
}

impl<A: Allocator> Drop for Octets<A> {
    fn drop(self) {
        let Octets { held: _ } = self;
    }
}

/// Where the octets are stored: a few in place, more in a shared block.
#[derive(Drop)]
enum Storage<A: Allocator> {
    InPlace(InPlaceOctets),
    Shared(ArcSlice<u8, A>),
}

impl<A: Allocator> Model for Octets<A> {
    ghost use Rattle.std.specs.Prelude.{List, ℕ};
    ghost use Rattle.xp_packets.specs.Storage.{stored_octets};

    ghost Value = { List ℕ };

    ghost view = { λ o. stored_octets o.held };
}

impl<A: Allocator> Octets<A> {
    /// No octets. This allocates nothing.
    pub fn new(_alloc: A) -> Octets<A>
        ensures { result ≡ [] }
    {
        Octets {
            held: Storage::InPlace(InPlaceOctets::of(&[])),
        }
    }

    /// Sixteen octets, as many as charging information has (X.25 clause 7.2). This allocates nothing.
    pub fn of_sixteen(octets: [u8; 16]) -> Octets<A>
        ensures { result ≡ octets }
    {
        Octets {
            held: Storage::InPlace(InPlaceOctets::of(&octets)),
        }
    }

    /// The octets, in order.
    pub fn as_slice(&self) -> &[u8]
        ensures { result.now ≡ self.now }
    {
        match &self.held {
            Storage::InPlace(few) => few.as_slice(),
            Storage::Shared(block) => block.as_slice(),
        }
    }

    /// The number of octets.
    pub fn len(&self) -> usize
        ensures { result ≡ length self.now }
    {
        self.as_slice().len()
    }

    /// Whether there are no octets.
    pub fn is_empty(&self) -> bool
        ensures { IsTrue result ↔ (self.now ≡ []) }
    {
        self.as_slice().is_empty()
    }

    /// An equal copy, which shares the block. It increments the block's count and copies no octets of the block.
    ///
    /// # Errors
    ///
    /// The block has no room to count another copy.
    pub fn copy(&self) -> Result<Octets<A>, AllocError>
        ensures { IfOk result (λ copied. copied ≡ self.now) }
    {
        let held = match &self.held {
            Storage::InPlace(few) => Storage::InPlace(few.copy()),
            Storage::Shared(block) => Storage::Shared(block.clone()?),
        };
        Ok(Octets { held })
    }
}

impl<A: Allocator + Copy> Octets<A> {
    /// The octets of a vector. This allocates only for more than 22 octets.
    ///
    /// # Errors
    ///
    /// An allocation failed.
    pub fn from_vec(octets: Vec<u8, A>) -> Result<Octets<A>, AllocError>
        ensures { IfOk result (λ held. held ≡ octets.items) }
    {
        if octets.len() <= MOST_IN_PLACE {
            return Ok(Octets {
                held: Storage::InPlace(InPlaceOctets::of(&octets)),
            });
        }
        let block = ArcSlice::from_vec(octets)?;
        Ok(Octets {
            held: Storage::Shared(block),
        })
    }

    /// A copy of a slice. This allocates only for more than 22 octets.
    ///
    /// # Errors
    ///
    /// An allocation failed.
    pub fn from_slice(alloc: A, octets: &[u8]) -> Result<Octets<A>, AllocError>
        ensures { IfOk result (λ held. held ≡ octets.now) }
    {
        if octets.len() <= MOST_IN_PLACE {
            return Ok(Octets {
                held: Storage::InPlace(InPlaceOctets::of(octets)),
            });
        }
        Octets::from_vec(Vec::from_slice(alloc, octets)?)
    }
}
