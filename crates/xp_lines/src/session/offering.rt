//! The offering of the packets that came from a link.

ghost use Rattle.std.specs.Prelude.{◌≡◌, ◌⊎◌, IfOk, List, None, OnOk, [], false, true};
ghost use Rattle.xp_step.specs.declared.event.What.{What as Happening};
ghost use Rattle.xp_subs.specs.Tables.{modulus_of};
ghost use Rattle.xp_lines.specs.AnswerTimer.{answered, has_any};
ghost use Rattle.xp_lines.specs.FrameEvents.{AreReadAs};
ghost use Rattle.xp_lines.specs.Offers.{Gains, Offers};
ghost use Rattle.xp_lines.specs.Reads.{keeps, stays};
ghost use Rattle.xp_lines.specs.steps.Reads.{over_of};

use crate::answer_timer::answered;
use crate::over::Over;
use crate::seat::Seat;
use crate::session::Session;
use crate::shared::Shared;
use crate::waiting::Waiting;
use std::alloc::{AllocError, Allocator};
use std::sync::Wait;
use xp_frames::Deframer;
use xp_links::{Bell, Clock, Link};
use xp_packets::Modulus;
use xp_seats::Name;

impl<L: Link, A: Allocator + Copy> Session<L, A> {
    /// Offers the packets that wait, in order, at this moment. Any packet is the line's answer to an incoming call. Returns whether
    /// there were any.
    pub(super) fn offer_waiting<N: Name, C: Clock, B: Bell, R: Wait>(
        &mut self,
        shared: &Shared<'_, N, R, A>,
        seat: &mut Seat<N, C, B, A>,
        now: u64,
    ) -> Result<bool, Over>
        ensures offers { (whats : List (Happening A)) × Gains seat.old.pass whats seat.new.pass × Offers (modulus_of N.subs seat.old.pass.line) self.old.frames.waiting whats (stays (over_of result)) self.new.frames.waiting × (stays (over_of result) ≡ true → self.new.unanswered_since ≡ answered (has_any whats) self.old.unanswered_since) }
        ensures refused { (over_of result ≡ None) ⊎ (keeps (over_of result) ≡ false) }
        ensures all { keeps (over_of result) ≡ true → self.new.frames.waiting ≡ [] }
        ensures octets { (self.new.frames.rest ≡ self.old.frames.rest) × (self.new.frames.failed ≡ self.old.frames.failed) }
        ensures kept { (self.new.link ≡ self.old.link) × (self.new.connection ≡ self.old.connection) × (self.new.owes_down ≡ self.old.owes_down) × (self.new.unwritten ≡ self.old.unwritten) }
    {
        let alloc = *self.unwritten.allocator();
        let modulus = seat.pass.modulus();
        let Ok(ready) = gather(alloc, modulus, &mut self.frames) else {
            return Err(Over::Memory);
        };
        let sent = is_any(&ready);
        seat.offer_all(shared, now, ready)?;
        self.unanswered_since = answered(sent, self.unanswered_since);
        Ok(sent)
    }
}

/// Reads the packets that wait, in order, by this modulus. So the thread decodes them before it takes the exchange's lock.
///
/// # Errors
///
/// `AllocError` if an allocation fails. Then some packets are lost.
fn gather<A: Allocator + Copy>(
    alloc: A,
    modulus: Modulus,
    frames: &mut Deframer<A>,
) -> Result<Vec<Waiting<A>, A>, AllocError>
    ensures read { IfOk result (λ ready. AreReadAs modulus frames.old.waiting ready.items) }
    ensures all { OnOk result (frames.new.waiting ≡ []) }
    ensures octets { (frames.new.rest ≡ frames.old.rest) × (frames.new.failed ≡ frames.old.failed) }
{
    let mut ready = Vec::new(alloc);
    'packets: while let Some(packet) = frames.next() {
        let read = Waiting::read(alloc, modulus, &packet)?;
        frames.reuse(packet);
        ready.push(read)?;
    }
    Ok(ready)
}

/// Whether there are any.
fn is_any<A: Allocator>(ready: &Vec<Waiting<A>, A>) -> bool
    ensures { result ≡ has_any ready.now.items }
{
    !ready.is_empty()
}
