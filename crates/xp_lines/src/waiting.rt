//! Events of a line that the exchange has not accepted yet.

ghost use Rattle.std.specs.Prelude.{◌≡◌, IfOk};
ghost use Rattle.xp_step.specs.declared.event.What.TheVariants.{Down as WentDown, Expire as NotAnswered, Up as CameUp};
ghost use Rattle.xp_lines.specs.FrameEvents.{IsReadAs, is_down};

use std::alloc::{AllocError, Allocator, Global};
use std::marker::Model;
use xp_packets::{Modulus, PacketFault, decode};
use xp_step::What;

/// An event of a line that is to be offered to the exchange. It is never a stall, which only the exchange makes.
#[derive(Drop)]
pub struct Waiting<A: Allocator = Global> {
    what: What<A>,
}

impl<A: Allocator> Model for Waiting<A> {
    ghost use Rattle.std.specs.Prelude.{◌≡◌, false};
    ghost use Rattle.xp_step.specs.declared.event.What.{What};

    ghost Value = { What A };

    ghost use Rattle.xp_step.specs.Exchange.{IsReadable};
    ghost use Rattle.xp_seats.specs.Handed.{is_raised};

    ghost view = { λ w. w.what };

    ghost invariant = { λ w. IsReadable w.what × (is_raised w.what ≡ false) };
}

impl<A: Allocator> Waiting<A> {
    /// The event that the line's connection came.
    pub fn up() -> Waiting<A>
        ensures { result ≡ CameUp }
    {
        Waiting { what: What::Up }
    }

    /// The event that the connection went, or sent octets that are no frame.
    pub fn down() -> Waiting<A>
        ensures { result ≡ WentDown }
    {
        Waiting { what: What::Down }
    }

    /// The event that the line did not answer an incoming call in time.
    pub fn expire() -> Waiting<A>
        ensures { result ≡ NotAnswered }
    {
        Waiting { what: What::Expire }
    }

    /// Whether it is the event that the connection went.
    pub fn is_down(&self) -> bool
        ensures { result ≡ is_down self.now }
    {
        matches!(self.what, What::Down)
    }

    /// The event, as the exchange accepts it.
    pub(crate) fn into_what(self) -> What<A>
        ensures { result ≡ self }
    {
        self.what
    }
}

impl<A: Allocator + Copy> Waiting<A> {
    /// Decodes the octets of a frame's packet by the modulus of its line: the event is the packet, or what is wrong with it.
    ///
    /// # Errors
    ///
    /// `AllocError` if an allocation fails.
    pub(crate) fn read(alloc: A, modulus: Modulus, octets: &[u8]) -> Result<Waiting<A>, AllocError>
        ensures { IfOk result (λ waiting. IsReadAs modulus octets.now waiting) }
    {
        let what = match decode(alloc, modulus, octets) {
            Ok((identifier, packet)) => What::frame(identifier, packet),
            Err(PacketFault::Malformed(wrong)) => What::WrongFrame(wrong),
            Err(PacketFault::Memory) => return Err(AllocError),
        };
        Ok(Waiting { what })
    }
}
