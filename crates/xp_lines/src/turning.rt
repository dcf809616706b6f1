//! One turn of a line on its link: it writes, reads, and lets the link go where it is over.

ghost use Rattle.std.specs.Prelude.{◌≡◌, ◌⊎◌, ℕ, [], false, true};
ghost use Rattle.xp_subs.specs.Tables.{modulus_of};
ghost use Rattle.xp_lines.specs.Reads.{is_wanting, keeps, stays};
ghost use Rattle.xp_lines.specs.Turns.{Downs, Follows, IsTurn, WritesAndReads, seen_on};
ghost use Rattle.xp_lines.specs.steps.Reads.{over_of};

use crate::over::Over;
use crate::seat::Seat;
use crate::session::Session;
use crate::shared::Shared;
use crate::waiting::Waiting;
use std::alloc::Allocator;
use std::sync::Wait;
use xp_links::{Bell, Clock, Link};
use xp_seats::Name;

/// How a turn leaves its line.
#[derive(Clone, Copy)]
pub enum TurnOutcome {
    /// With its link.
    Linked,
    /// Without it: the exchange accepted that the link went.
    Dropped,
    /// Without it, but an allocation failed as the thread offered that the link went. The next turn offers it again.
    DownOwed,
    /// The exchange is halted: it is the line's last turn.
    Halted,
    /// The exchange's journal is full.
    Journal,
}

/// The result of a turn.
#[derive(Clone, Copy)]
pub struct Turned {
    /// How the turn left the line.
    pub after: TurnOutcome,
    /// Whether an allocation failed. Only then, and where the exchange takes nothing any more, may octets that came and outputs
    /// that were taken be lost.
    pub wanting: bool,
}

impl Turned {
    /// A turn that left the line so, in which an allocation failed or none did.
    fn new(after: TurnOutcome, wanting: bool) -> Turned
        ensures { (result.after ≡ after) × (result.wanting ≡ wanting) }
    {
        Turned { after, wanting }
    }
}

/// Runs one turn of a line on its link, in this order:
///
/// - It pushes the unwritten octets. Where the link takes all of them, it takes at most 64 outputs and pushes their packets.
/// - It pulls once and offers the packets that came.
/// - It offers that an incoming call was not answered for 180 seconds, once for each such call.
/// - Where an output closed the connection, the link is over or sent a bad frame header, or an allocation failed, it offers the
///   link's Down.
///
/// Where the link goes and no allocation failed, each packet that came was offered. Octets behind a bad header are lost. Where a Down
/// from an earlier turn is owed, it offers that alone. A turn that read nothing and emptied the outbox lets time pass.
pub fn turn<N: Name, L: Link, C: Clock, B: Bell, A: Allocator + Copy, R: Wait>(
    shared: &Shared<'_, N, R, A>,
    seat: &mut Seat<N, C, B, A>,
    session: &mut Session<L, A>,
) -> Turned
    ensures turn { (now : ℕ) × ((told : C) × C.tells seat.old.clock now told) × IsTurn (modulus_of N.subs seat.old.pass.line) now session.old.connection seat.old.pass (seen_on L.pushed L.pulled session.old).1 result.after result.wanting seat.new.pass (seen_on L.pushed L.pulled session.new).1 }
    ensures connection { session.new.connection ≡ session.old.connection }
    ensures left { result.after ≡ TurnOutcome.Linked → session.new.frames.waiting ≡ [] }
    ensures gone { result.after ≡ TurnOutcome.Dropped → result.wanting ≡ false → (session.new.frames ≡ session.old.frames) ⊎ (session.new.frames.waiting ≡ []) }
    ensures line { seat.new.pass.line ≡ seat.old.pass.line }
{
    let now = seat.clock.now();
    if session.owes_down {
        return go_down(shared, seat, now, &mut session.owes_down);
    }
    let worked = write_and_read(shared, seat, session, now);
    finish(shared, seat, now, &mut session.owes_down, worked)
}

/// Ends a turn by what it came to: the link stays, or its Down is offered, or it is the line's last turn.
fn finish<N: Name, C: Clock, B: Bell, A: Allocator + Copy, R: Wait>(
    shared: &Shared<'_, N, R, A>,
    seat: &mut Seat<N, C, B, A>,
    now: u64,
    owes_down: &mut bool,
    worked: Result<bool, Over>,
) -> Turned
    ensures follows { Follows (over_of worked) seat.old.pass owes_down.old result.after seat.new.pass owes_down.new }
    ensures says { is_wanting (over_of worked) ≡ true → result.wanting ≡ true }
{
    match worked {
        Ok(moved) => {
            if !moved {
                seat.bell.idle();
            }
            Turned::new(TurnOutcome::Linked, false)
        }
        Err(Over::Link) => go_down(shared, seat, now, owes_down),
        Err(Over::Memory) => Turned::new(go_down(shared, seat, now, owes_down).after, true),
        Err(Over::Halted) => Turned::new(TurnOutcome::Halted, false),
        Err(Over::Journal) => Turned::new(TurnOutcome::Journal, false),
    }
}

/// Offers that the link went, at this moment. If an allocation fails, that is owed.
fn go_down<N: Name, C: Clock, B: Bell, A: Allocator + Copy, R: Wait>(
    shared: &Shared<'_, N, R, A>,
    seat: &mut Seat<N, C, B, A>,
    now: u64,
    owes_down: &mut bool,
) -> Turned
    ensures { Downs seat.old.pass result.after seat.new.pass owes_down.new }
{
    match seat.offer(shared, now, Waiting::down()) {
        Ok(_) => Turned::new(TurnOutcome::Dropped, false),
        Err(Over::Halted) => Turned::new(TurnOutcome::Halted, false),
        Err(Over::Journal) => Turned::new(TurnOutcome::Journal, false),
        Err(Over::Memory | Over::Link) => {
            *owes_down = true;
            Turned::new(TurnOutcome::DownOwed, true)
        }
    }
}

/// A turn without its Down: it writes, reads, and then lets an incoming call expire that was not answered in time. Returns whether the
/// line had anything to do.
fn write_and_read<N: Name, L: Link, C: Clock, B: Bell, A: Allocator + Copy, R: Wait>(
    shared: &Shared<'_, N, R, A>,
    seat: &mut Seat<N, C, B, A>,
    session: &mut Session<L, A>,
    now: u64,
) -> Result<bool, Over>
    ensures works { WritesAndReads (modulus_of N.subs seat.old.pass.line) now session.old.connection seat.old.pass (seen_on L.pushed L.pulled session.old).1 (over_of result) seat.new.pass (seen_on L.pushed L.pulled session.new).1 }
    ensures connection { session.new.connection ≡ session.old.connection }
    ensures owed { session.new.owes_down ≡ session.old.owes_down }
    ensures left { stays (over_of result) ≡ true → session.new.frames.waiting ≡ [] }
    ensures gone { keeps (over_of result) ≡ true → (session.new.frames ≡ session.old.frames) ⊎ (session.new.frames.waiting ≡ []) }
{
    let halted = shared.exchange.halted();
    let written = session.write_out(shared, seat, now);
    if halted {
        return Err(Over::Halted);
    }
    let more = written?;
    let moved = session.read_in(shared, seat, now)?;
    let late = seat.expire_late(shared, now, &mut session.unanswered_since)?;
    Ok(more | moved | late)
}
