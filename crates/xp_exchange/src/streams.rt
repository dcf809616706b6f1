//! Keeps the octet stream of each line, and cuts it into frames.

ghost use Rattle.std.specs.Prelude.{◌≡◌, ◌<◌, [], All, IfOk, OnOk, length, replicate, slice_set};
ghost use Rattle.xp_exchange.specs.FrameEvents.{CanCome, ReadsEvents};
ghost use Rattle.xp_exchange.specs.Play.{unfinished_at};

use crate::frames::{Arrival, read_events};
use std::alloc::{AllocError, Allocator, Global};
use std::collections::VecDeque;
use std::marker::Model;
use xp_frames::Deframer;
use xp_step::Event;
use xp_subs::LineNo;

/// For each line, the octets of an unfinished frame on its connection.
#[derive(Drop)]
pub struct Streams<A: Allocator = Global> {
    alloc: A,
    streams: Vec<Deframer<A>, A>,
}

impl<A: Allocator> Model for Streams<A> {
    ghost use Rattle.std.specs.Prelude.{List, ℕ, All, map};
    ghost use Rattle.xp_exchange.specs.steps.Acting.{IsBetweenFrames};

    ghost Value = { List (List ℕ) };

    ghost view = { λ s. map (λ stream. stream.rest) s.streams.items };

    ghost invariant = { λ s. All IsBetweenFrames s.streams.items };
}

impl<A: Allocator + Copy> Streams<A> {
    /// Makes the streams of this many lines. No octet has come in on any of them.
    pub fn new(alloc: A, lines: usize) -> Result<Streams<A>, AllocError>
        ensures { IfOk result (λ streams. streams ≡ replicate lines []) }
    {
        let mut streams = Vec::with_capacity(alloc, lines)?;
        for _ in 0..lines {
            streams.push(Deframer::new(alloc))?;
        }
        Ok(Streams { alloc, streams })
    }

    /// Begins a connection of a line. The octets of an unfinished frame are dropped.
    pub fn begin(&mut self, line: LineNo)
        requires { line < length self.old }
        ensures { self.new ≡ slice_set self.old line [] }
    {
        self.streams[usize::from(line)] = Deframer::new(self.alloc);
    }

    /// Fills the queue with the events of octets that arrive so: one for each frame, and that the line goes down if a bad
    /// header follows the frames.
    #[inline(always)]
    pub fn read_events(
        &mut self,
        arrival: Arrival,
        octets: &[u8],
        events: &mut VecDeque<Event<A>, A>,
    ) -> Result<(), AllocError>
        requires { arrival.line < length self.old }
        ensures heard { OnOk result (ReadsEvents arrival.modulus arrival.line arrival.moment (unfinished_at self.old arrival.line) octets.now events.new.items (unfinished_at self.new arrival.line)) }
        ensures kept { OnOk result (self.new ≡ slice_set self.old arrival.line (unfinished_at self.new arrival.line)) }
        ensures lines { length self.new ≡ length self.old }
        ensures fit { OnOk result (All (λ event. (event.line ≡ arrival.line) × CanCome event.what) events.new.items) }
    {
        let stream = &mut self.streams[usize::from(arrival.line)];
        if let Err(refused) = read_events(self.alloc, arrival, stream, octets, events) {
            // Without memory, packets may still wait in the stream.
            *stream = Deframer::new(self.alloc);
            return Err(refused);
        }
        Ok(())
    }
}
