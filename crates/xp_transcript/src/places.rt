//! Where the lines stand in a ladder diagram.

ghost use Rattle.std.specs.Prelude.{◌≡◌, IfOk, replicate, slice_set};
ghost use Rattle.xp_subs.specs.Tables.{line_count};
ghost use Rattle.xp_transcript.specs.Places.{alone, place_of, placed_by, placed_by_outputs, placed_by_put, placed_by_what, renewed_places};

use crate::place::Place;
use std::alloc::{AllocError, Global};
use std::marker::Model;
use xp_ladder::Side;
use xp_packets::Packet;
use xp_step::{Entry, Output, Put, What};
use xp_subs::{LineNo, Subs};

/// Where each line stands.
#[derive(Drop)]
pub(crate) struct Places {
    places: Vec<Place>,
}

impl Model for Places {
    ghost use Rattle.std.specs.Prelude.{List};
    ghost use Rattle.xp_transcript.specs.declared.place.Place.{Place};

    ghost Value = { List Place };

    ghost view = { λ places. places.places.items };
}

impl Places {
    /// The places of so many lines before any call.
    pub(crate) fn new(alloc: Global, lines: usize) -> Result<Places, AllocError>
        ensures { IfOk result (λ places. places ≡ replicate lines alone) }
    {
        Ok(Places {
            places: vec![in alloc; Place::alone(); lines]?,
        })
    }

    /// Where a line stands.
    pub(crate) fn of(&self, line: LineNo) -> Place
        ensures { result ≡ place_of self.now line }
    {
        self.places
            .get(usize::from(line))
            .copied()
            .unwrap_or(Place::alone())
    }

    /// Places the lines for the messages of an entry.
    #[tactic(auto, unfolding(crate::specs::Places::placed_by))]
    pub(crate) fn place(&mut self, entry: &Entry)
        ensures { self.new ≡ placed_by self.old entry.now }
    {
        let line = entry.event.line;
        self.place_by_what(line, &entry.event.what);
        self.place_by_outputs(line, entry.outputs.as_slice());
    }

    /// Places the lines as the next subscriptions come into force.
    pub(crate) fn renew(&mut self, old: &Subs, next: &Subs)
        ensures { self.new ≡ renewed_places old.now next.now self.old (line_count old.now) }
    {
        for number in 0..old.counts().lines {
            let line = number as LineNo;
            let place = self.of(line).renewed(old, next, line);
            self.set(line, place);
        }
    }

    /// Places a line that calls.
    fn place_by_what(&mut self, line: LineNo, what: &What)
        ensures { self.new ≡ placed_by_what self.old line what.now }
    {
        if let What::Frame {
            packet: Packet::Call { .. },
            ..
        } = what
        {
            self.set(line, Place::alone());
        }
    }

    /// Places the lines that are called, and their caller.
    fn place_by_outputs(&mut self, caller: LineNo, outputs: &[Output])
        ensures { self.new ≡ placed_by_outputs self.old caller outputs.now }
    {
        for output in outputs {
            self.place_by_put(caller, output.line, &output.outgoing.put);
        }
    }

    /// Places a line that is called, and its caller.
    fn place_by_put(&mut self, caller: LineNo, line: LineNo, put: &Put)
        ensures { self.new ≡ placed_by_put self.old caller line put.now }
    {
        if let Put::Send {
            packet: Packet::Call { .. },
            ..
        } = put
        {
            let side = Side::Right;
            let other = Some(caller);
            self.set(line, Place { side, other });
            let side = Side::Left;
            let other = Some(line);
            self.set(caller, Place { side, other });
        }
    }

    /// Sets the place of a line.
    fn set(&mut self, line: LineNo, place: Place)
        ensures { self.new ≡ slice_set self.old line place }
    {
        let index = usize::from(line);
        if index < self.places.len() {
            self.places[index] = place;
        }
    }
}
