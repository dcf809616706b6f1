ghost use Rattle.std.specs.Prelude.{◌≡◌, IfOk};

use std::alloc::{AllocError, Allocator, Global};
use xp_packets::Octets;

/// A data packet without P(S) and P(R), since each line has its own numbers (X.25 clause 5.3.1).
#[derive(Drop)]
pub struct Data<A: Allocator = Global> {
    /// The Q bit.
    pub q: bool,
    /// The D bit.
    pub d: bool,
    /// The M bit.
    pub more: bool,
    /// The user data.
    pub octets: Octets<A>,
}

/// The numbers of a data packet, as its line counts.
#[derive(Clone, Copy)]
pub struct SequenceNumbers {
    /// P(S).
    pub ps: u8,
    /// P(R).
    pub pr: u8,
}

/// The state of the interrupt that one end sends (X.25 clause 4.3.7).
#[derive(Drop)]
pub enum Interruption<A: Allocator = Global> {
    /// There is no interrupt.
    Idle,
    /// It waits until the receiver confirms a reset.
    Held(Octets<A>),
    /// The receiver was sent it, and has not confirmed it.
    PutOut,
}

impl<A: Allocator + Copy> Data<A> {
    /// Returns an equal copy, with the same allocator.
    pub fn copy(&self) -> Result<Data<A>, AllocError>
        ensures { IfOk result (λ copied. copied ≡ self.now) }
    {
        Ok(Data {
            q: self.q,
            d: self.d,
            more: self.more,
            octets: self.octets.copy()?,
        })
    }
}

impl<A: Allocator + Copy> Interruption<A> {
    /// Returns an equal copy, with the same allocator.
    pub fn copy(&self) -> Result<Interruption<A>, AllocError>
        ensures { IfOk result (λ copied. copied ≡ self.now) }
    {
        match self {
            Interruption::Idle => Ok(Interruption::Idle),
            Interruption::Held(octets) => Ok(Interruption::Held(octets.copy()?)),
            Interruption::PutOut => Ok(Interruption::PutOut),
        }
    }
}
