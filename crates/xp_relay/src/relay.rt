ghost use Rattle.std.specs.Prelude.{◌≡◌, ◌≤◌, [], IfOk, OnErr, OnOk};
ghost use Rattle.xp_relay.specs.Coupled.{Coupled, coupled, received_by, sent_by, state_at};
ghost use Rattle.xp_relay.specs.StoredCoupled.{Follows, RepresentsCall};
ghost use Rattle.xp_relay.specs.Judgement.{judgement};
ghost use Rattle.xp_relay.specs.Terms.{IsWithinTerms};
ghost use Rattle.xp_relay.specs.Turns.{turn_of};

use crate::data::SequenceNumbers;
use crate::direction_state::DirectionState;
use crate::judged::Judged;
use crate::moves::Moves;
use crate::state::FlowState;
use crate::terms::Terms;
use crate::turns::data_packets::judge;
use crate::turns::turn;
use std::alloc::{AllocError, Allocator, Global};
use std::marker::Model;
use xp_packets::{End, Packet};

/// What a live call carries between its ends. The methods that make or copy a relay allocate the room for the packets
/// that can wait. The caller passes the other methods the room for their moves.
pub struct Relay<A: Allocator = Global> {
    from_caller: DirectionState<A>,
    from_called: DirectionState<A>,
}

impl<A: Allocator> Drop for Relay<A> {
    fn drop(self) {
        let Relay {
            from_caller: _,
            from_called: _,
        } = self;
    }
}

impl<A: Allocator> Model for Relay<A> {
    ghost use Rattle.xp_relay.specs.StoredCoupled.{StoredDirections};

    ghost Value = { StoredDirections A };

    ghost view = { λ r. record { from_caller = r.from_caller; from_called = r.from_called } };
}

impl<A: Allocator + Copy> Relay<A> {
    /// Returns a call that was just set up on these terms.
    pub fn new(alloc: A, terms: Terms) -> Result<Relay<A>, AllocError>
        requires { IsWithinTerms terms }
        ensures { IfOk result (λ relay. RepresentsCall relay (coupled terms)) }
    {
        Ok(Relay {
            from_caller: DirectionState::new(alloc, terms.terms_from(End::Caller))?,
            from_called: DirectionState::new(alloc, terms.terms_from(End::Called))?,
        })
    }

    /// Returns an equal relay, with the same room.
    pub fn copy(&self) -> Result<Relay<A>, AllocError>
        ensures { IfOk result (λ copied. copied ≡ self.now) }
    {
        Ok(Relay {
            from_caller: self.from_caller.copy()?,
            from_called: self.from_called.copy()?,
        })
    }

    /// Copies this relay over another one. Where the other one has room for the windows already, only the packets that
    /// wait take memory. After an error the other relay can have any value.
    pub fn copy_over(&self, other: &mut Relay<A>) -> Result<(), AllocError>
        ensures { OnOk result (other.new ≡ self.now) }
    {
        self.from_caller.copy_over(&mut other.from_caller)?;
        self.from_called.copy_over(&mut other.from_called)
    }

    /// Makes this relay a call that was just set up on these terms, in the memory that it has. After an error the relay
    /// can have any value.
    pub fn renew(&mut self, terms: Terms) -> Result<(), AllocError>
        requires { IsWithinTerms terms }
        ensures { OnOk result (RepresentsCall self.new (coupled terms)) }
    {
        self.from_caller.renew(terms.terms_from(End::Caller))?;
        self.from_called.renew(terms.terms_from(End::Called))
    }

    /// Takes any packet of this end. Packets of call set-up and clearing change nothing. Only a data packet and an
    /// interrupt can run out of memory, since they share their octets with the relay; then nothing changes.
    pub fn take(
        &mut self,
        here: End,
        packet: &Packet<A>,
        room: Moves<A>,
    ) -> Result<Moves<A>, AllocError>
        requires empty { room.moves ≡ [] }
        requires space { 17 ≤ room.room }
        ensures ok { IfOk result (λ made. (call : Coupled A) → RepresentsCall self.old call → Follows here (turn_of here packet.now) call self.new made.moves) }
        ensures err { OnErr result (self.new ≡ self.old) }
    {
        match here {
            End::Caller => turn(
                here,
                packet,
                &mut self.from_caller,
                &mut self.from_called,
                room,
            ),
            End::Called => turn(
                here,
                packet,
                &mut self.from_called,
                &mut self.from_caller,
                room,
            ),
        }
    }
}

impl<A: Allocator> Relay<A> {
    /// Returns the flow control state of an end's channel.
    pub fn state(&self, end: End) -> FlowState
        ensures { (call : Coupled A) → RepresentsCall self.now call → result ≡ state_at end call }
    {
        let owes = match end {
            End::Caller => self.from_called.owes(),
            End::Called => self.from_caller.owes(),
        };
        FlowState::of(owes)
    }

    /// Decides on a data packet of this end, with these numbers and this many octets.
    pub fn judge(&self, here: End, numbers: SequenceNumbers, octets: usize) -> Judged
        ensures { (call : Coupled A) → RepresentsCall self.now call → result ≡ judgement numbers.ps numbers.pr octets (sent_by here call) (received_by here call) }
    {
        match here {
            End::Caller => judge(numbers, octets, &self.from_caller, &self.from_called),
            End::Called => judge(numbers, octets, &self.from_called, &self.from_caller),
        }
    }
}
