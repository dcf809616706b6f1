//! A line that a thread serves.

ghost use Rattle.std.specs.Prelude.{◌≡◌};
ghost use Rattle.xp_lines.specs.Sessions.{AreMoved};
ghost use Rattle.xp_lines.specs.steps.Serving.{EndsSo, GoesOnTo, IsWhy, StaysSo};

use crate::closing::{close, stop, write_rest};
use crate::line::{EndReason, LineEnd, have_turn};
use crate::line_state::LineState;
use crate::seat::Seat;
use crate::session::Session;
use crate::shared::Shared;
use crate::signals::Signals;
use std::marker::Model;
use std::mem;
use std::sync::Wait;
use xp_links::{Bell, Clock, Link, Port};
use xp_lock::LinePass;
use xp_past::Past;
use xp_seats::Name;

/// What a line is served with.
#[derive(Drop)]
pub struct LineInputs<N: Name, P: Port, C: Clock, B: Bell> {
    pub pass: LinePass<N>,
    pub port: P,
    pub clock: C,
    pub bell: B,
}

/// A line that a thread serves, with the links that come from its port, one at a time. Contracts see it as the pass with which it
/// began.
pub(crate) struct ServedLine<N: Name, P: Port, C: Clock, B: Bell> {
    /// The pass with which it began.
    first: Past<LinePass<N>>,
    seat: Seat<N, C, B>,
    port: P,
    state: LineState<P::Link>,
    /// Whether a turn is due that waits for the recording thread.
    is_held: bool,
}

impl<N: Name, P: Port, C: Clock, B: Bell> Drop for ServedLine<N, P, C, B> {
    fn drop(self) {
        let ServedLine {
            first: _,
            seat: _,
            port: _,
            state: _,
            is_held: _,
        } = self;
    }
}

impl<N: Name, P: Port, C: Clock, B: Bell> Model for ServedLine<N, P, C, B> {
    ghost use Rattle.std.specs.declared.alloc.Global.{Global as Alloc};
    ghost use Rattle.xp_lock.specs.Passes.{Pass};
    ghost use Rattle.xp_lines.specs.steps.Serving.{IsLineSo, first_of};

    ghost Value = { Pass Alloc };

    ghost view = { λ line. first_of line.first.items };

    ghost invariant = { λ line. IsLineSo N.subs P.Link.pushed P.Link.pulled (first_of line.first.items) line.state line.seat.pass };
}

impl<N: Name, P: Port, C: Clock, B: Bell> ServedLine<N, P, C, B> {
    /// The line, which has had no turn.
    pub(crate) fn new(inputs: LineInputs<N, P, C, B>) -> ServedLine<N, P, C, B>
        ensures { result ≡ inputs.pass }
    {
        let LineInputs {
            pass,
            port,
            clock,
            bell,
        } = inputs;
        let first = Past::new().and(&pass);
        let seat = Seat::new(pass, clock, bell);
        ServedLine {
            first,
            seat,
            port,
            state: LineState::Open(None),
            is_held: false,
        }
    }

    /// Whether it has not ended.
    pub(crate) fn is_open(&self) -> bool {
        matches!(self.state, LineState::Open(_))
    }

    /// Whether a turn is due, and waits until the recording thread has handed on the records that were made.
    pub(crate) fn is_held(&self) -> bool {
        self.is_held
    }

    /// Whether a turn may find something to do. The bell is asked in any case, since that takes what was marked.
    fn is_due(&self) -> bool {
        self.seat.bell.is_due() && self.is_open()
    }

    /// Whether it has a turn now. A turn that is due is held where the recording thread is behind and the line has new records, until
    /// that has caught up. Meanwhile the line keeps its thread from no sleep.
    fn may_go(&mut self, signals: &Signals) -> bool
        ensures { self.new ≡ self.old }
    {
        let is_due = self.is_due() || self.is_held;
        self.is_held = is_due && self.seat.waits_for_recorder(signals);
        if self.is_held {
            self.seat.bell.idle();
        }
        is_due && !self.is_held
    }

    /// Has a turn, if it is due and not held. It halts the exchange where the journal is full. Returns whether the line has ended in it.
    pub(crate) fn have_turn<R: Wait>(&mut self, shared: &Shared<'_, N, R>) -> bool
        ensures { self.new ≡ self.old }
    {
        if !self.may_go(shared.signals) {
            return false;
        }
        match mem::replace(&mut self.state, LineState::Ended(EndReason::Halted)) {
            LineState::Open(session) => {
                self.seat.bell.begin_turn();
                self.state = next_state(shared, &mut self.seat, &mut self.port, session);
                !self.is_open()
            }
            other => {
                self.state = other;
                false
            }
        }
    }

    /// Is asked to stop: it offers the Down of its link, if it has one. Where an allocation fails it stays open.
    pub(crate) fn stop<R: Wait>(&mut self, shared: &Shared<'_, N, R>)
        ensures { self.new ≡ self.old }
    {
        self.state = match mem::replace(&mut self.state, LineState::Ended(EndReason::Halted)) {
            LineState::Open(session) => stop(shared, &mut self.seat, session),
            other => other,
        };
    }

    /// Ends, unless it has ended: it offers the Down of its link, if it has one, once.
    pub(crate) fn end<R: Wait>(&mut self, shared: &Shared<'_, N, R>, why: EndReason)
        ensures { self.new ≡ self.old }
    {
        self.state = match mem::replace(&mut self.state, LineState::Ended(EndReason::Halted)) {
            LineState::Open(session) => end_state(shared, &mut self.seat, why, session),
            other => other,
        };
    }

    /// Writes what a stopped line has still to write, as far as its link takes it. Returns whether some of it is left.
    pub(crate) fn write_rest<R: Wait>(&mut self, shared: &Shared<'_, N, R>) -> bool
        ensures { self.new ≡ self.old }
    {
        let state = mem::replace(&mut self.state, LineState::Ended(EndReason::Halted));
        self.state = write_state(shared, &mut self.seat, state);
        self.has_rest()
    }

    /// Whether it was stopped, and has still something to write.
    fn has_rest(&self) -> bool {
        matches!(self.state, LineState::Stopped(_))
    }

    /// The time by the line's clock, in seconds.
    pub(crate) fn now(&mut self) -> u64
        ensures { self.new ≡ self.old }
    {
        self.seat.clock.now()
    }

    /// What is left of it. A line that has not ended tells that an allocation failed: its Down is still owed.
    pub(crate) fn into_end(self) -> LineEnd<N>
        ensures { EndsSo N.subs (AreMoved P.Link.pushed P.Link.pulled) self result }
    {
        let ServedLine {
            first: _,
            seat,
            port: _,
            state,
            is_held: _,
        } = self;
        let why = why_of(state);
        LineEnd {
            pass: seat.into_pass(),
            why,
        }
    }

    /// What is left of it, where its thread could not be started.
    pub(crate) fn into_unstarted(self) -> LineEnd<N>
        ensures { EndsSo N.subs (AreMoved P.Link.pushed P.Link.pulled) self result }
    {
        let ServedLine {
            first: _,
            seat,
            port: _,
            state: _,
            is_held: _,
        } = self;
        LineEnd {
            pass: seat.into_pass(),
            why: EndReason::NotStarted,
        }
    }
}

/// A turn of an open line.
fn next_state<N: Name, P: Port, C: Clock, B: Bell, R: Wait>(
    shared: &Shared<'_, N, R>,
    seat: &mut Seat<N, C, B>,
    port: &mut P,
    session: Option<Session<P::Link>>,
) -> LineState<P::Link>
    ensures { GoesOnTo N.subs P.Link.pushed P.Link.pulled session seat.old.pass result seat.new.pass }
{
    seat.has_new_records = false;
    let step = have_turn(shared, seat, port, session);
    match step.end {
        None => LineState::Open(step.session),
        Some(why) => {
            if why == EndReason::Journal {
                shared.exchange.halt(shared.rt);
            }
            let why = close(shared, seat, why, step.session);
            // A line that has ended keeps its thread from no sleep.
            seat.bell.idle();
            LineState::Ended(why)
        }
    }
}

/// Writes what a line in this state has still to write, as far as its link takes it.
fn write_state<N: Name, L: Link, C: Clock, B: Bell, R: Wait>(
    shared: &Shared<'_, N, R>,
    seat: &mut Seat<N, C, B>,
    state: LineState<L>,
) -> LineState<L>
    ensures { StaysSo N.subs L.pushed L.pulled state seat.old.pass result seat.new.pass }
{
    match state {
        LineState::Stopped(rest) => match write_rest(shared, seat, rest) {
            Some(rest) => LineState::Stopped(rest),
            None => LineState::Ended(EndReason::Stopped),
        },
        other => other,
    }
}

/// Why a line in this state has ended. Where it has not, its Down is still owed.
fn why_of<L: Link>(state: LineState<L>) -> EndReason
    ensures { IsWhy L.pushed L.pulled state result }
{
    match state {
        LineState::Open(_) => EndReason::Memory,
        LineState::Stopped(_) => EndReason::Stopped,
        LineState::Ended(why) => why,
    }
}

/// The end of an open line.
fn end_state<N: Name, L: Link, C: Clock, B: Bell, R: Wait>(
    shared: &Shared<'_, N, R>,
    seat: &mut Seat<N, C, B>,
    why: EndReason,
    session: Option<Session<L>>,
) -> LineState<L>
    ensures { GoesOnTo N.subs L.pushed L.pulled session seat.old.pass result seat.new.pass }
{
    LineState::Ended(close(shared, seat, why, session))
}
