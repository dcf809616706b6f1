//! A turn of a line, with a link or without one.

ghost use Rattle.std.specs.Prelude.{◌≡◌, None};
ghost use Rattle.xp_lines.specs.Sessions.{AreMoved, Drops};
ghost use Rattle.xp_lines.specs.Turns.{seen_on};
ghost use Rattle.xp_lines.specs.steps.Sessions.{Connects, Steps, TurnsOn, here};

use crate::over::Over;
use crate::seat::Seat;
use crate::session::Session;
use crate::shared::Shared;
use crate::turning::{TurnOutcome, turn};
use crate::waiting::Waiting;
use std::alloc::{Allocator, Global};
use std::sync::Wait;
use xp_frames::Deframer;
use xp_links::{Arrived, Bell, Clock, Link, Port};
use xp_lock::LinePass;
use xp_seats::Name;

/// The most outputs that are dropped before a link comes up: as many as an outbox has places.
const MOST_DRAINED: usize = 64;

/// Why a line has ended.
#[derive(Clone, Copy, PartialEq)]
pub enum EndReason {
    /// The line has had all its turns.
    Turns,
    /// The exchange is halted.
    Halted,
    /// The exchange's journal is full.
    Journal,
    /// No link can come any more.
    Port,
    /// The line has no thread, or that could not be started.
    NotStarted,
    /// The line was asked to stop. The exchange has accepted the Down of its last link, or it had no link.
    Stopped,
    /// The line was asked to stop, but an allocation failed too often: its Down is still owed.
    Memory,
}

/// What is left of a line that has ended.
#[derive(Drop)]
pub struct LineEnd<N: Name, A: Allocator = Global> {
    /// The pass of the line.
    pub pass: LinePass<N, A>,
    /// Why it ended.
    pub why: EndReason,
}

/// The result of one turn of a line, with a link or without one.
#[derive(Drop)]
pub(crate) struct Step<L: Link, A: Allocator> {
    /// The line with its link, if it has one.
    pub(crate) session: Option<Session<L, A>>,
    /// Why the line has ended, if it has.
    pub(crate) end: Option<EndReason>,
}

/// One turn of a line, on its link if it has one.
pub(crate) fn have_turn<N: Name, P: Port, C: Clock, B: Bell, A: Allocator + Copy, R: Wait>(
    shared: &Shared<'_, N, R, A>,
    seat: &mut Seat<N, C, B, A>,
    port: &mut P,
    session: Option<Session<P::Link, A>>,
) -> Step<P::Link, A>
    ensures line { seat.new.pass.line ≡ seat.old.pass.line }
    ensures steps { Steps N.subs (AreMoved P.Link.pushed P.Link.pulled) seat.old.pass (here P.Link.pushed P.Link.pulled session) (here P.Link.pushed P.Link.pulled result.session) result.end seat.new.pass }
{
    match session {
        Some(linked) => go_on(shared, seat, linked),
        None => connect(shared, seat, port),
    }
}

/// A turn on a link.
fn go_on<N: Name, L: Link, C: Clock, B: Bell, A: Allocator + Copy, R: Wait>(
    shared: &Shared<'_, N, R, A>,
    seat: &mut Seat<N, C, B, A>,
    session: Session<L, A>,
) -> Step<L, A>
    ensures line { seat.new.pass.line ≡ seat.old.pass.line }
    ensures turns { TurnsOn N.subs (AreMoved L.pushed L.pulled) session.connection seat.old.pass (seen_on L.pushed L.pulled session).1 (here L.pushed L.pulled result.session) result.end seat.new.pass }
{
    let mut session = session;
    let turned = turn(shared, seat, &mut session);
    match turned.after {
        TurnOutcome::Linked | TurnOutcome::DownOwed => Step {
            session: Some(session),
            end: None,
        },
        TurnOutcome::Dropped => unlinked(None),
        TurnOutcome::Halted => Step {
            session: Some(session),
            end: Some(EndReason::Halted),
        },
        TurnOutcome::Journal => Step {
            session: Some(session),
            end: Some(EndReason::Journal),
        },
    }
}

/// A turn without a link: it takes the next link from the port, if one has come.
fn connect<N: Name, P: Port, C: Clock, B: Bell, A: Allocator + Copy, R: Wait>(
    shared: &Shared<'_, N, R, A>,
    seat: &mut Seat<N, C, B, A>,
    port: &mut P,
) -> Step<P::Link, A>
    ensures line { seat.new.pass.line ≡ seat.old.pass.line }
    ensures connects { Connects N.subs (AreMoved P.Link.pushed P.Link.pulled) seat.old.pass (here P.Link.pushed P.Link.pulled result.session) result.end seat.new.pass }
{
    if shared.exchange.halted() {
        return unlinked(Some(EndReason::Halted));
    }
    match port.next() {
        Arrived::Came(link) => {
            drain(shared, seat);
            come_up(shared, seat, link)
        }
        Arrived::Nothing => {
            seat.bell.idle();
            unlinked(None)
        }
        Arrived::Fault => unlinked(Some(EndReason::Port)),
    }
}

/// The result of a turn after which the line has no link.
fn unlinked<L: Link, A: Allocator>(end: Option<EndReason>) -> Step<L, A>
    ensures { result.session ≡ None }
{
    Step { session: None, end }
}

/// Drops the outputs that the exchange put out over an earlier link.
fn drain<N: Name, C: Clock, B: Bell, A: Allocator + Copy, R: Wait>(
    shared: &Shared<'_, N, R, A>,
    seat: &mut Seat<N, C, B, A>,
)
    ensures { Drops seat.old.pass seat.new.pass }
{
    for _output in 0..MOST_DRAINED {
        let Some(_dropped) = shared.exchange.next_out(shared.rt, &mut seat.pass) else {
            return;
        };
    }
}

/// Offers that a link came. If the exchange refuses that, the link is dropped.
fn come_up<N: Name, L: Link, C: Clock, B: Bell, A: Allocator + Copy, R: Wait>(
    shared: &Shared<'_, N, R, A>,
    seat: &mut Seat<N, C, B, A>,
    link: L,
) -> Step<L, A>
    ensures line { seat.new.pass.line ≡ seat.old.pass.line }
    ensures connects { Connects N.subs (AreMoved L.pushed L.pulled) seat.old.pass (here L.pushed L.pulled result.session) result.end seat.new.pass }
{
    let now = seat.clock.now();
    match seat.offer(shared, now, Waiting::up()) {
        Ok(done) => Step {
            session: Some(Session {
                link,
                connection: done.connection(),
                owes_down: false,
                frames: Deframer::new(shared.alloc),
                unwritten: Vec::new(shared.alloc),
                unanswered_since: None,
            }),
            end: None,
        },
        Err(Over::Halted) => unlinked(Some(EndReason::Halted)),
        Err(Over::Journal) => unlinked(Some(EndReason::Journal)),
        Err(Over::Memory | Over::Link) => unlinked(None),
    }
}
