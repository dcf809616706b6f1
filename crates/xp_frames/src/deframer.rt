//! Cuts a stream of octets, which arrives in pieces, into packets.

ghost use Rattle.std.specs.Prelude.{◌≡◌, ◌≤◌, IfOk, map, drop, option_map};
ghost use Rattle.std.specs.Vec.{vec_len};
ghost use Rattle.xp_frames.specs.steps.DeframerSteps.{Cuts};

use crate::fault::FrameFault;
use crate::header::{Front, HEADER_LENGTH, front_of};
use std::alloc::{AllocError, Allocator, Global};
use std::collections::VecDeque;
use std::marker::Model;
use std::mem;

/// Receives a stream of octets in pieces of any size, and returns the packets of its frames in order (RFC 1613).
///
/// A piece may contain a header that no frame can have. Then the deframer still returns the packets before that
/// header, and refuses every later piece.
#[derive(Drop)]
pub struct Deframer<A: Allocator = Global> {
    // whole packets that `next` has not returned yet
    waiting: VecDeque<Vec<u8, A>, A>,
    // a buffer to reuse for the next packet; its content is ignored
    spare: Vec<u8, A>,
    // the octets after the last whole frame
    rest: Vec<u8, A>,
    // whether the rest begins with a bad header
    failed: bool,
}

impl<A: Allocator> Model for Deframer<A> {
    ghost use Rattle.std.specs.Prelude.{map};
    ghost use Rattle.xp_frames.specs.Deframer.{DeframerState};

    ghost Value = { DeframerState };

    ghost view = { λ d. record { waiting = map (λ packet. packet.items) d.waiting.items; rest = d.rest.items; failed = d.failed } };
}

impl<A: Allocator + Copy> Deframer<A> {
    ghost use Rattle.xp_frames.specs.Deframer.{IsNew, Feeds, Gives};

    /// A deframer at the start of a stream. This allocates nothing.
    pub fn new(alloc: A) -> Self
        ensures { IsNew result }
    {
        Deframer {
            waiting: VecDeque::new(alloc),
            spare: Vec::new(alloc),
            rest: Vec::new(alloc),
            failed: false,
        }
    }

    /// Adds the next octets of the stream.
    ///
    /// # Errors
    ///
    /// `Version` or `Length` if the octets after the last whole frame begin with a bad header. It is checked as soon
    /// as its four octets have arrived, the version first. The packets before it in this piece remain available to
    /// [`next`](Self::next). Every later call returns `Failed` and changes nothing. `Memory` if an allocation fails;
    /// then nothing has changed, and the same piece may be fed again.
    pub fn feed(&mut self, piece: &[u8]) -> Result<(), FrameFault>
        ensures { Feeds self.old piece.now result self.new }
    {
        if self.failed {
            return Err(FrameFault::Failed);
        }
        let alloc = *self.rest.allocator();
        let packets = self.waiting.len();
        let octets = self.rest.len();
        self.rest.extend_from_slice(piece)?;
        match cut_frames(&self.rest, &mut self.waiting, &mut self.spare, alloc) {
            Ok(Cut { count, fault }) => {
                drop_front(&mut self.rest, count);
                self.failed = fault.is_some();
                fault.map_or(Ok(()), Err)
            }
            Err(refused) => {
                self.waiting.truncate(packets);
                self.rest.truncate(octets);
                Err(refused.into())
            }
        }
    }

    /// Removes and returns the next whole packet of the stream, if there is one. This allocates nothing.
    pub fn next(&mut self) -> Option<Vec<u8, A>>
        ensures { Gives self.old (option_map (λ packet. packet.items) result) self.new }
    {
        self.waiting.pop_front()
    }

    /// Gives a vector to the deframer, which uses its memory for a later packet. The content is ignored.
    pub fn reuse(&mut self, memory: Vec<u8, A>)
        ensures { self.new ≡ self.old }
    {
        self.spare = memory;
    }
}

// How many octets at the start of a stream are whole frames, and the fault of the header after them, if it is bad.
struct Cut {
    count: usize,
    fault: Option<FrameFault>,
}

// Cuts the whole frames off the front of a stream, and appends their packets to `waiting`.
fn cut_frames<A: Allocator + Copy>(
    stream: &[u8],
    waiting: &mut VecDeque<Vec<u8, A>, A>,
    spare: &mut Vec<u8, A>,
    alloc: A,
) -> Result<Cut, AllocError>
    ensures { Cuts stream.now (map (λ p. p.items) waiting.old.items) result (map (λ p. p.items) waiting.new.items) }
{
    let mut count = 0;
    loop {
        let front = &stream[count..];
        match front_of(front) {
            Front::Frame(length) => {
                let packet = packet_of(
                    &front[HEADER_LENGTH..HEADER_LENGTH + length],
                    spare,
                    alloc,
                )?;
                waiting.push_back(packet)?;
                count += HEADER_LENGTH + length;
            }
            Front::Partial => {
                return Ok(Cut { count, fault: None });
            }
            Front::BadHeader(fault) => {
                return Ok(Cut {
                    count,
                    fault: Some(fault),
                });
            }
        }
    }
}

// A packet of these octets. It uses the spare buffer if that is large enough.
fn packet_of<A: Allocator>(
    octets: &[u8],
    spare: &mut Vec<u8, A>,
    alloc: A,
) -> Result<Vec<u8, A>, AllocError>
    ensures items { IfOk result (λ packet. packet.items ≡ octets.now) }
{
    let mut packet = mem::replace(spare, Vec::new(alloc));
    packet.clear();
    packet.extend_from_slice(octets)?;
    Ok(packet)
}

// Drops `count` octets from the front. If `count` is zero, no octet moves.
fn drop_front<A: Allocator>(octets: &mut Vec<u8, A>, count: usize)
    requires { count ≤ vec_len octets.old }
    ensures { octets.new.items ≡ drop count octets.old.items }
{
    if count > 0 {
        let left = octets.len() - count;
        octets.copy_within(count.., 0);
        octets.truncate(left);
    }
}
