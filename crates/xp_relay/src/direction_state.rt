//! One direction of a call, as it is stored.

ghost use Rattle.std.specs.Prelude.{◌≡◌, ◌+◌, ◌<◌, ◌≤◌, ◌&&◌, not, IfOk, OnOk, length};
ghost use Rattle.xp_relay.specs.Direction.{Direction, opening};
ghost use Rattle.xp_relay.specs.Judgement.{most_octets};
ghost use Rattle.xp_relay.specs.StoredDirection.{Represents};
ghost use Rattle.xp_relay.specs.Terms.{AreDirectionTerms};
ghost use Rattle.xp_relay.specs.Turns.{is_idle, is_put_out};

use crate::data::{Data, Interruption};
use crate::terms::DirectionTerms;
use std::alloc::{AllocError, Allocator, Global};
use std::collections::VecDeque;
use std::marker::Model;

mod changes;
mod copying;
mod counting;
mod putting;

/// The stored state of a direction: numbers in place of counts, and the packets that wait. The queue has room for a
/// whole window.
pub(crate) struct DirectionState<A: Allocator = Global> {
    terms: DirectionTerms,
    /// P(R) to the sender.
    pr: u8,
    /// The number of the oldest unacknowledged packet on the receiver's line.
    oldest: u8,
    /// How many packets the receiver was sent and has not acknowledged.
    out: u8,
    held: VecDeque<Data<A>, A>,
    interrupt: Interruption<A>,
    ready: bool,
    owes: bool,
}

impl<A: Allocator> Drop for DirectionState<A> {
    fn drop(self) {
        let DirectionState {
            terms: _,
            pr: _,
            oldest: _,
            out: _,
            held: _,
            interrupt: _,
            ready: _,
            owes: _,
        } = self;
    }
}

impl<A: Allocator> Model for DirectionState<A> {
    ghost use Rattle.std.specs.Prelude.{length};
    ghost use Rattle.std.specs.VecDeque.{deque_capacity};
    ghost use Rattle.xp_relay.specs.StoredDirection.{StoredDirection};
    ghost use Rattle.xp_relay.specs.steps.StoredDirection.{IsValidStorage};

    ghost Value = { StoredDirection A };

    ghost view = { λ l. record {
      terms = l.terms;
      pr = l.pr;
      oldest = l.oldest;
      out = l.out;
      held = l.held.items;
      interrupt = l.interrupt;
      ready = l.ready;
      owes = l.owes;
    } };

    ghost invariant = { λ l. IsValidStorage l.terms l.pr l.oldest l.out (length l.held.items) (deque_capacity l.held) };
}

impl<A: Allocator> DirectionState<A> {
    /// Returns an empty direction, with room for a whole window.
    pub(crate) fn new(alloc: A, terms: DirectionTerms) -> Result<DirectionState<A>, AllocError>
        requires { AreDirectionTerms terms }
        ensures { IfOk result (λ lane. Represents lane (opening terms)) }
    {
        let held = VecDeque::with_capacity(alloc, usize::from(terms.window))?;
        Ok(DirectionState {
            terms,
            pr: 0,
            oldest: 0,
            out: 0,
            held,
            interrupt: Interruption::Idle,
            ready: true,
            owes: false,
        })
    }

    /// Makes this direction an empty one, whatever it was. It uses the memory of this direction again.
    pub(crate) fn renew(&mut self, terms: DirectionTerms) -> Result<(), AllocError>
        requires { AreDirectionTerms terms }
        ensures { OnOk result (Represents self.new (opening terms)) }
    {
        self.held.clear();
        self.held.reserve(usize::from(terms.window))?;
        self.terms = terms;
        self.pr = 0;
        self.oldest = 0;
        self.out = 0;
        self.interrupt = Interruption::Idle;
        self.ready = true;
        self.owes = false;
        Ok(())
    }

    /// Returns the packet size, in octets.
    pub(crate) fn most_octets(&self) -> usize
        ensures { result ≡ most_octets self.now.terms }
    {
        2usize.pow(u32::from(self.terms.size))
    }

    /// Returns P(R) to the sender.
    pub(crate) fn received_number(&self) -> u8
        ensures { result ≡ self.now.pr }
    {
        self.pr
    }

    /// Returns whether the receiver is ready.
    pub(crate) fn is_ready(&self) -> bool
        ensures { result ≡ self.now.ready }
    {
        self.ready
    }

    /// Returns whether the receiver owes a reset confirmation.
    pub(crate) fn owes(&self) -> bool
        ensures { result ≡ self.now.owes }
    {
        self.owes
    }

    /// Returns whether the receiver takes data: it is ready, and owes no reset confirmation.
    pub(crate) fn is_open(&self) -> bool
        ensures { result ≡ (self.now.ready && not self.now.owes) }
    {
        self.ready && !self.owes
    }

    /// Returns whether the sender has no interrupt under way.
    pub(crate) fn is_idle(&self) -> bool
        ensures { result ≡ is_idle self.now.interrupt }
    {
        match self.interrupt {
            Interruption::Idle => true,
            Interruption::Held(_) | Interruption::PutOut => false,
        }
    }

    /// Returns whether the receiver was sent an interrupt that it has not confirmed.
    pub(crate) fn has_put_interrupt(&self) -> bool
        ensures { result ≡ is_put_out self.now.interrupt }
    {
        match self.interrupt {
            Interruption::PutOut => true,
            Interruption::Idle | Interruption::Held(_) => false,
        }
    }
}
