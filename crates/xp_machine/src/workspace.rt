//! Memory that one event leaves for the next. With it most events allocate only what the history keeps.

ghost use Rattle.std.specs.Prelude.{◌≡◌, [], IfOk};
ghost use Rattle.xp_relay.specs.Coupled.{coupled};
ghost use Rattle.xp_relay.specs.StoredCoupled.{RepresentsCall};
ghost use Rattle.xp_relay.specs.Terms.{IsWithinTerms};

use crate::relays::{MeteredRelay, StoredMeteredRelay};
use std::alloc::{AllocError, Allocator};
use std::marker::Model;
use xp_charge::Meter;
use xp_relay::{Moves, Relay, Terms};

/// A relay that another one replaced, and a vector of earlier moves. Only their memory is used: what they hold does not
/// matter.
#[derive(Drop)]
pub struct Workspace<A: Allocator> {
    metered: Option<StoredMeteredRelay<A>>,
    moves: Option<Moves<A>>,
}

impl<A: Allocator> Model for Workspace<A> {
    ghost Value = { Unit {0} };

    ghost view = { λ _. tt };
}

impl<A: Allocator> Workspace<A> {
    /// Returns a workspace that holds no memory yet.
    pub fn new() -> Workspace<A> {
        Workspace {
            metered: None,
            moves: None,
        }
    }

    /// Keeps the memory of a relay that was replaced, if there is one.
    pub fn keep_metered(&mut self, metered: Option<StoredMeteredRelay<A>>) {
        self.metered = metered;
    }

    /// Keeps the memory of a vector of moves.
    pub fn keep_moves(&mut self, moves: Moves<A>) {
        self.moves = Some(moves);
    }

    /// Returns no moves, with room for this many.
    pub fn moves(&mut self, alloc: A, room: usize) -> Result<Moves<A>, AllocError>
        ensures { IfOk result (λ made. made ≡ record { moves = []; room = room }) }
    {
        match self.moves.take() {
            Some(moves) => moves.emptied(room),
            None => Moves::with_room(alloc, room),
        }
    }
}

impl<A: Allocator + Copy> Workspace<A> {
    /// Returns an equal copy of a relay and its meter.
    pub fn copy_of(
        &mut self,
        alloc: A,
        metered: &MeteredRelay<A>,
    ) -> Result<StoredMeteredRelay<A>, AllocError>
        ensures { IfOk result (λ copied. copied ≡ metered.now) }
    {
        match self.metered.take() {
            Some(kept) => kept.becoming(metered),
            None => {
                let relay = metered.relay.copy()?;
                let meter = metered.meter;
                StoredMeteredRelay::new(alloc, MeteredRelay { relay, meter })
            }
        }
    }

    /// Returns the relay of a call that was just set up on these terms, with this meter.
    pub fn opened(
        &mut self,
        alloc: A,
        terms: Terms,
        meter: Meter,
    ) -> Result<StoredMeteredRelay<A>, AllocError>
        requires { IsWithinTerms terms }
        ensures shows { IfOk result (λ kept. RepresentsCall kept.relay (coupled terms)) }
        ensures meter { IfOk result (λ kept. kept.meter ≡ meter) }
    {
        match self.metered.take() {
            Some(kept) => kept.renewed(terms, meter),
            None => {
                let relay = Relay::new(alloc, terms)?;
                StoredMeteredRelay::new(alloc, MeteredRelay { relay, meter })
            }
        }
    }
}
