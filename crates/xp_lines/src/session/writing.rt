//! The writing of a turn: the thread takes the line's outputs from its outbox and pushes them into its link.

ghost use Rattle.std.specs.Prelude.{◌≡◌, ◌==◌, ◌++◌, cond, IfOk, OnErr, OnOk};
ghost use Rattle.xp_subs.specs.Tables.{modulus_of};
ghost use Rattle.xp_lines.specs.Wire.{carried, closes};
ghost use Rattle.xp_lines.specs.steps.Wire.{TakenOut, WrittenOut};
ghost use Rattle.xp_frames.specs.Frame.{frame};
ghost use Rattle.xp_packets.specs.Writing.{written};
ghost use Rattle.xp_lines.specs.AnswerTimer.{since_after_put};
ghost use Rattle.xp_lines.specs.steps.Reads.{over_of};

use crate::answer_timer::since_after;
use crate::flow::{Flow, push_rest};
use crate::over::Over;
use crate::seat::Seat;
use crate::session::Session;
use crate::shared::Shared;
use std::alloc::{AllocError, Allocator};
use std::sync::Wait;
use xp_frames::write_frame;
use xp_links::{Bell, Clock, Link};
use xp_packets::{Modulus, Packet, encode};
use xp_seats::Name;
use xp_step::{Outgoing, Put};

/// The most outputs that a turn takes: as many as an outbox has places.
const MOST_OUTPUTS: usize = 64;

impl<L: Link, A: Allocator + Copy> Session<L, A> {
    /// Pushes the unwritten octets. Where the link takes all of them, it takes at most 64 outputs and pushes those for this
    /// connection. It drops outputs for another connection. After an output that closes this connection it takes no more. Returns
    /// whether the outbox may have more outputs to take.
    ///
    /// # Errors
    ///
    /// `Link` where the link is broken, or an output closed its connection. `Memory` if an allocation fails: a packet is lost.
    pub(crate) fn write_out<N: Name, C: Clock, B: Bell, R: Wait>(
        &mut self,
        shared: &Shared<'_, N, R, A>,
        seat: &mut Seat<N, C, B, A>,
        now: u64,
    ) -> Result<bool, Over>
        ensures writes { WrittenOut (modulus_of N.subs seat.old.pass.line) now self.old.connection seat.old.pass self.old.unwritten.items (L.pushed self.old.link) self.old.unanswered_since (over_of result) seat.new.pass self.new.unwritten.items (L.pushed self.new.link) self.new.unanswered_since }
        ensures pulled { L.pulled self.new.link ≡ L.pulled self.old.link }
        ensures kept { (self.new.connection ≡ self.old.connection) × (self.new.owes_down ≡ self.old.owes_down) × (self.new.frames ≡ self.old.frames) }
    {
        match push_rest(&mut self.link, &mut self.unwritten) {
            Flow::Free => {}
            Flow::Waits => return Ok(false),
            Flow::Broken => return Err(Over::Link),
        }
        let modulus = seat.pass.modulus();
        let taken = self.take_out(shared, seat, modulus, now);
        let flow = push_rest(&mut self.link, &mut self.unwritten);
        let more = taken?;
        match flow {
            Flow::Free | Flow::Waits => Ok(more),
            Flow::Broken => Err(Over::Link),
        }
    }

    /// Takes at most 64 outputs, and appends the octets of those for this connection, by this modulus, to the unwritten ones. Returns
    /// whether there may be more.
    fn take_out<N: Name, C: Clock, B: Bell, R: Wait>(
        &mut self,
        shared: &Shared<'_, N, R, A>,
        seat: &mut Seat<N, C, B, A>,
        modulus: Modulus,
        now: u64,
    ) -> Result<bool, Over>
        ensures taken { TakenOut modulus now self.old.connection seat.old.pass self.old.unwritten.items self.old.unanswered_since (over_of result) seat.new.pass self.new.unwritten.items self.new.unanswered_since }
        ensures link { self.new.link ≡ self.old.link }
        ensures kept { (self.new.connection ≡ self.old.connection) × (self.new.owes_down ≡ self.old.owes_down) × (self.new.frames ≡ self.old.frames) }
    {
        for _output in 0..MOST_OUTPUTS {
            let Some(item) = shared.exchange.next_out(shared.rt, &mut seat.pass) else {
                return Ok(false);
            };
            match self.put_item(modulus, now, &item) {
                Ok(false) => {}
                Ok(true) => return Err(Over::Link),
                Err(_) => return Err(Over::Memory),
            }
        }
        Ok(true)
    }

    /// Appends the octets of an output by this modulus, if it is for this connection. A written incoming call begins to wait for its
    /// answer, and a clear indication ends the wait. Returns whether the output closes this connection.
    ///
    /// # Errors
    ///
    /// `AllocError` if an allocation fails. Then nothing is appended.
    fn put_item(
        &mut self,
        modulus: Modulus,
        now: u64,
        item: &Outgoing<A>,
    ) -> Result<bool, AllocError>
        ensures ok { OnOk result (self.new.unwritten.items ≡ self.old.unwritten.items ++ carried modulus self.old.connection item.now) }
        ensures since { OnOk result (self.new.unanswered_since ≡ cond (item.now.connection == self.old.connection) (since_after_put now self.old.unanswered_since item.now.put) self.old.unanswered_since) }
        ensures closes { IfOk result (λ over. over ≡ closes self.old.connection item.now) }
        ensures err { OnErr result (self.new.unwritten.items ≡ self.old.unwritten.items) }
        ensures link { self.new.link ≡ self.old.link }
        ensures kept { (self.new.connection ≡ self.old.connection) × (self.new.owes_down ≡ self.old.owes_down) × (self.new.frames ≡ self.old.frames) }
    {
        if item.connection != self.connection {
            return Ok(false);
        }
        match &item.put {
            Put::Send { identifier, packet } => {
                put_packet(modulus, *identifier, packet, &mut self.unwritten)?;
                self.unanswered_since = since_after(now, self.unanswered_since, packet);
                Ok(false)
            }
            Put::Close => Ok(true),
        }
    }
}

/// Appends the frame of a packet by this modulus.
///
/// # Errors
///
/// `AllocError` if an allocation fails. Then nothing is appended.
fn put_packet<A: Allocator + Copy>(
    modulus: Modulus,
    identifier: u16,
    packet: &Packet<A>,
    unwritten: &mut Vec<u8, A>,
) -> Result<(), AllocError>
    ensures ok { OnOk result (unwritten.new.items ≡ unwritten.old.items ++ frame (written modulus identifier packet.now)) }
    ensures err { OnErr result (unwritten.new.items ≡ unwritten.old.items) }
{
    let alloc = *unwritten.allocator();
    let octets = encode(alloc, modulus, identifier, packet).map_err(|_| AllocError)?;
    write_frame(&octets, unwritten).map_err(|_| AllocError)
}
