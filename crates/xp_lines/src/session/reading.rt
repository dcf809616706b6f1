//! The reading of a turn: octets from the line's link become packets, which the thread offers to the exchange.

ghost use Rattle.std.specs.Prelude.{◌≡◌, ℕ, List, [], true};
ghost use Rattle.std.specs.Io.KnownBytes.{Appends};
ghost use Rattle.xp_step.specs.declared.event.What.{What as Happening};
ghost use Rattle.xp_subs.specs.Tables.{modulus_of};
ghost use Rattle.xp_lines.specs.Offers.{Gains};
ghost use Rattle.xp_lines.specs.AnswerTimer.{answered, has_any};
ghost use Rattle.xp_lines.specs.Reads.{Reads, keeps, stays};
ghost use Rattle.xp_lines.specs.steps.Reads.{Pulls, over_of};

use crate::over::Over;
use crate::seat::Seat;
use crate::session::Session;
use crate::shared::Shared;
use std::alloc::Allocator;
use std::sync::Wait;
use xp_frames::Deframer;
use xp_links::{Bell, Clock, Link, Pulled};
use xp_seats::Name;

/// The most octets that one pull takes.
const PIECE: usize = 4096;

impl<L: Link, A: Allocator + Copy> Session<L, A> {
    /// Pulls once, and offers the packets that came, at this moment. Where the link is over, what came before that is offered all the
    /// same. Returns whether anything came.
    pub(crate) fn read_in<N: Name, C: Clock, B: Bell, R: Wait>(
        &mut self,
        shared: &Shared<'_, N, R, A>,
        seat: &mut Seat<N, C, B, A>,
        now: u64,
    ) -> Result<bool, Over>
        ensures reads { (pulled : List ℕ) × Appends (L.pulled self.old.link) (L.pulled self.new.link) pulled × (whats : List (Happening A)) × Gains seat.old.pass whats seat.new.pass × Reads (modulus_of N.subs seat.old.pass.line) self.old.frames pulled whats (over_of result) self.new.frames × (stays (over_of result) ≡ true → self.new.unanswered_since ≡ answered (has_any whats) self.old.unanswered_since) }
        ensures pushed { L.pushed self.new.link ≡ L.pushed self.old.link }
        ensures left { keeps (over_of result) ≡ true → self.new.frames.waiting ≡ [] }
        ensures kept { (self.new.connection ≡ self.old.connection) × (self.new.owes_down ≡ self.old.owes_down) × (self.new.unwritten ≡ self.old.unwritten) }
    {
        let pulled = pull_in(&mut self.link, &mut self.frames);
        let sent = self.offer_waiting(shared, seat, now)?;
        Ok(pulled? | sent)
    }
}

/// Pulls once, and cuts the octets that came into frames. Returns whether any came.
///
/// # Errors
///
/// `Link` where the link has ended, is broken or sent a bad frame header, now or before: the frames before that are there. `Memory`
/// if an allocation fails: the octets that came are lost.
fn pull_in<L: Link, A: Allocator + Copy>(
    link: &mut L,
    frames: &mut Deframer<A>,
) -> Result<bool, Over>
    ensures pulls { (pulled : List ℕ) × Appends (L.pulled link.old) (L.pulled link.new) pulled × Pulls frames.old pulled (over_of result) frames.new }
    ensures pushed { L.pushed link.new ≡ L.pushed link.old }
{
    let mut piece = [0; PIECE];
    match link.pull(&mut piece) {
        Pulled::Octets(count) => {
            frames.feed(&piece[..count])?;
            Ok(true)
        }
        Pulled::Nothing => Ok(false),
        Pulled::Ended => Err(Over::Link),
        Pulled::Fault => Err(Over::Link),
    }
}
