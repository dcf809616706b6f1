//! The relays and meters of the connected calls, each under its caller's line.

ghost use Rattle.std.specs.Prelude.{◌≡◌, ◌<◌, ◌≤◌, [], None, IfOk, OnErr, length, replicate};
ghost use Rattle.std.specs.Option.{option_copied};
ghost use Rattle.xp_machine.specs.Relays.{Counts, relay_under, relays_with};
ghost use Rattle.xp_machine.specs.Segments.{judged};

use crate::workspace::Workspace;
use std::alloc::{AllocError, Allocator};
use std::marker::Model;
use xp_charge::{Meter, OverLimit};
use xp_packets::{End, Packet};
use xp_relay::{Judged, Moves, Relay, SequenceNumbers, Terms};
use xp_subs::LineNo;

/// The relay of a connected call, and the meter of what it carries.
pub struct MeteredRelay<A: Allocator> {
    /// What carries the call's data.
    pub relay: Relay<A>,
    /// What counts its segments.
    pub meter: Meter,
}

impl<A: Allocator> Drop for MeteredRelay<A> {
    fn drop(self) {
        let MeteredRelay { relay: _, meter: _ } = self;
    }
}

/// A metered relay in memory of its own. So a plan, and the place of a line, hold only a pointer to it.
pub struct StoredMeteredRelay<A: Allocator> {
    metered: Box<MeteredRelay<A>, A>,
}

impl<A: Allocator> Drop for StoredMeteredRelay<A> {
    fn drop(self) {
        let StoredMeteredRelay { metered: _ } = self;
    }
}

impl<A: Allocator> Model for StoredMeteredRelay<A> {
    ghost use Rattle.xp_machine.specs.declared.relays.MeteredRelay.{MeteredRelay};

    ghost Value = { MeteredRelay A };

    ghost view = { λ k. k.metered.value };
}

impl<A: Allocator> StoredMeteredRelay<A> {
    /// Stores a relay and its meter.
    pub fn new(alloc: A, metered: MeteredRelay<A>) -> Result<StoredMeteredRelay<A>, AllocError>
        ensures { IfOk result (λ kept. kept ≡ metered) }
    {
        let metered = Box::new(alloc, metered)?;
        Ok(StoredMeteredRelay { metered })
    }

    /// Returns the relay and its meter.
    pub fn get(&self) -> &MeteredRelay<A>
        ensures { result.now ≡ self.now }
    {
        &self.metered
    }

    /// Replaces the meter.
    pub fn set_meter(&mut self, meter: Meter)
        ensures relay { self.new.relay ≡ self.old.relay }
        ensures meter { self.new.meter ≡ meter }
    {
        self.metered.meter = meter;
    }
}

impl<A: Allocator + Copy> StoredMeteredRelay<A> {
    ghost use Rattle.xp_relay.specs.Coupled.{Coupled, coupled};
    ghost use Rattle.xp_relay.specs.StoredCoupled.{Follows, RepresentsCall};
    ghost use Rattle.xp_relay.specs.Terms.{IsWithinTerms};
    ghost use Rattle.xp_relay.specs.Turns.{turn_of};

    /// Overwrites this memory with an equal copy of a relay and its meter.
    pub fn becoming(
        mut self,
        metered: &MeteredRelay<A>,
    ) -> Result<StoredMeteredRelay<A>, AllocError>
        ensures { IfOk result (λ kept. kept ≡ metered.now) }
    {
        metered.relay.copy_over(&mut self.metered.relay)?;
        self.metered.meter = metered.meter;
        Ok(self)
    }

    /// Overwrites this memory with the relay of a call that was just set up on these terms, and with this meter.
    pub fn renewed(
        mut self,
        terms: Terms,
        meter: Meter,
    ) -> Result<StoredMeteredRelay<A>, AllocError>
        requires { IsWithinTerms terms }
        ensures shows { IfOk result (λ kept. RepresentsCall kept.relay (coupled terms)) }
        ensures meter { IfOk result (λ kept. kept.meter ≡ meter) }
    {
        self.metered.relay.renew(terms)?;
        self.metered.meter = meter;
        Ok(self)
    }

    /// Gives the relay a packet of this end, and returns what it carries to either end. The meter stays as it was.
    ///
    /// # Errors
    ///
    /// `AllocError` if an allocation fails. Then the relay stays as it was.
    pub fn take(
        &mut self,
        here: End,
        packet: &Packet<A>,
        room: Moves<A>,
    ) -> Result<Moves<A>, AllocError>
        requires empty { room.moves ≡ [] }
        requires space { 17 ≤ room.room }
        ensures ok { IfOk result (λ made. (call : Coupled A) → RepresentsCall self.old.relay call → Follows here (turn_of here packet.now) call self.new.relay made.moves) }
        ensures meter { self.new.meter ≡ self.old.meter }
        ensures err { OnErr result (self.new ≡ self.old) }
    {
        self.metered.relay.take(here, packet, room)
    }
}

/// The relay and the meter that a connected call has from now on.
#[derive(Drop)]
pub struct RelayUpdate<A: Allocator> {
    /// The line that asked for the call.
    pub caller: LineNo,
    /// The relay and the meter.
    pub metered: StoredMeteredRelay<A>,
}

/// A place for each line. The place of a caller's line holds the relay of its call, once the call is connected. A line
/// is in one call at a time.
pub struct Relays<A: Allocator> {
    by_caller: Vec<Option<StoredMeteredRelay<A>>, A>,
}

impl<A: Allocator> Drop for Relays<A> {
    fn drop(self) {
        let Relays { by_caller: _ } = self;
    }
}

impl<A: Allocator> Model for Relays<A> {
    ghost use Rattle.std.specs.Prelude.{List, Option};
    ghost use Rattle.xp_machine.specs.declared.relays.MeteredRelay.{MeteredRelay};

    ghost Value = { List (Option (MeteredRelay A)) };

    ghost view = { λ r. r.by_caller.items };
}

impl<A: Allocator> MeteredRelay<A> {
    ghost use Rattle.xp_relay.specs.Coupled.{Coupled, received_by, sent_by};
    ghost use Rattle.xp_relay.specs.StoredCoupled.{RepresentsCall};

    /// Returns the meter with a packet of this end. It adds the packet's segments if the packet is data that the relay
    /// accepts.
    ///
    /// # Errors
    ///
    /// `OverLimit` exactly where the relay accepts the data, and its segments would take the direction past the segment
    /// limit.
    pub fn count(&self, here: End, packet: &Packet<A>) -> Result<Meter, OverLimit>
        ensures { (call : Coupled A) → RepresentsCall self.now.relay call → Counts self.now.meter here (judged packet.now (sent_by here call) (received_by here call)) result }
    {
        let Packet::DataPacket { ps, pr, octets, .. } = packet else {
            return Ok(self.meter);
        };
        let octets = octets.len();
        let numbers = SequenceNumbers { ps: *ps, pr: *pr };
        match self.relay.judge(here, numbers, octets) {
            Judged::Accept => {
                let mut meter = self.meter;
                meter.add(here, octets)?;
                Ok(meter)
            }
            Judged::Discard | Judged::Reset(_) => Ok(self.meter),
        }
    }
}

impl<A: Allocator + Copy> Relays<A> {
    /// Returns a place for each of this many lines, with no call connected.
    pub fn new(alloc: A, lines: usize) -> Result<Relays<A>, AllocError>
        ensures { IfOk result (λ relays. relays ≡ replicate lines None) }
    {
        let mut by_caller = Vec::with_capacity(alloc, lines)?;
        for _ in 0..lines {
            by_caller.push(None)?;
        }
        Ok(Relays { by_caller })
    }
}

impl<A: Allocator> Relays<A> {
    /// Returns the relay and the meter in the place of a line, if there are any.
    pub fn under(&self, line: LineNo) -> Option<&MeteredRelay<A>>
        ensures { option_copied result ≡ relay_under self.now line }
    {
        let kept = self.by_caller.get(usize::from(line))?.as_ref()?;
        Some(kept.get())
    }

    /// Replaces the relay and the meter of a call, if an update is given. The workspace keeps the memory of the old
    /// ones.
    #[inline(always)]
    pub fn put_if_any(&mut self, relay_update: Option<RelayUpdate<A>>, workspace: &mut Workspace<A>)
        ensures { self.new ≡ relays_with relay_update self.old }
    {
        let Some(RelayUpdate { caller, metered }) = relay_update else {
            return;
        };
        if let Some(place) = self.by_caller.get_mut(usize::from(caller)) {
            workspace.keep_metered(place.replace(metered));
        }
    }
}
