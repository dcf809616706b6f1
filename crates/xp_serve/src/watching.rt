//! What an operator asks of a serving exchange, and is told by it.

ghost use Rattle.std.specs.Prelude.{◌≡◌, OnOk};
ghost use Rattle.xp_sink.specs.InForce.{IsInForce};
ghost use Rattle.xp_subs.specs.Tables.{Tables};

use crate::attending::Watch;
use crate::console_feed::ConsoleFeed;
use crate::offered::{OfferedSubs, SubsSource};
use crate::stop_input::StopInput;
use log::Log;
use std::alloc::{AllocError, Global};
use std::fmt::Display;
use std::sync::Arc;
use xp_charge::Record;
use xp_clock::WallClock;
use xp_file::Name;
use xp_keeping::OperatorLog;
use xp_sink::{NotInForce, Received};
use xp_subs::{LineNo, Subs};
use xp_tcp::{Notice, Notices};
use xp_view::ExchangeView;

/// How many notices are told at most in one look.
const MOST_TOLD: usize = 64;

/// In how many turns all notices are told that wait as lines go.
const MOST_TURNS: usize = 32;

/// Tells the notices of the lines' threads, and looks whether serving is to stop, or other subscriptions are to come into force.
#[derive(Drop)]
pub struct OperatorWatch<L: Log, F: ConsoleFeed, S: SubsSource> {
    /// The names of the lines in force, by their places. A spare place has the empty name.
    names: Vec<Name>,
    notices: Arc<Notices>,
    /// The input whose end asks serving to stop, if there is one.
    stop: Option<StopInput>,
    console: F,
    /// Where other subscriptions come from.
    source: S,
    /// What is told before all else, once the lines are served.
    opening: Option<String>,
    /// Whether the stop was told.
    is_told: bool,
    clock: WallClock,
    log: OperatorLog<L>,
    alloc: Global,
}

impl<L: Log + Drop, F: ConsoleFeed, S: SubsSource> OperatorWatch<L, F, S> {
    /// The watch over the lines of the subscriptions in force, which feeds a console. Serving stops where that asks for it, and other
    /// subscriptions come from this source where that asks for them.
    ///
    /// # Errors
    ///
    /// `AllocError` if an allocation fails.
    pub fn new(
        alloc: Global,
        source: S,
        notices: Arc<Notices>,
        console: F,
        clock: WallClock,
        log: OperatorLog<L>,
    ) -> Result<OperatorWatch<L, F, S>, AllocError> {
        Ok(OperatorWatch {
            names: names_of(alloc, source.subs())?,
            notices,
            stop: None,
            console,
            source,
            opening: None,
            is_told: false,
            clock,
            log,
            alloc,
        })
    }

    /// The same watch, where serving stops as this input ends, if there is one, and other subscriptions may be asked for through it.
    pub fn with_stop(mut self, stop: Option<StopInput>) -> OperatorWatch<L, F, S> {
        self.stop = stop;
        self
    }

    /// The same watch, which tells this before all else, once the lines are served.
    pub fn with_opening(mut self, opening: String) -> OperatorWatch<L, F, S> {
        self.opening = Some(opening);
        self
    }

    /// Tells what is to be told before all else, if that was not told yet.
    fn tell_opening(&mut self, now: u64) {
        if let Some(opening) = self.opening.take() {
            self.log.info(now, opening);
        }
    }

    /// Tells the notices that wait.
    fn tell_notices(&mut self, now: u64)
        ensures { self.new.source ≡ self.old.source }
    {
        for _notice in 0..MOST_TOLD {
            let Some(notice) = self.notices.take() else {
                break;
            };
            self.tell_notice(now, &notice);
        }
        let lost = self.notices.take_lost();
        if lost > 0 {
            self.log
                .warn(now, format_args!("{lost} notices of lines were left out"));
        }
    }

    /// Tells a notice, with the name of its line if it is of one.
    fn tell_notice(&mut self, now: u64, notice: &Notice)
        ensures { self.new.source ≡ self.old.source }
    {
        self.console.note(notice);
        let Some(line) = notice.line() else {
            self.tell_by(now, notice, format_args!("routers: {notice}"));
            return;
        };
        let Some(name) = self.names.get(usize::from(line)) else {
            return;
        };
        let name = name.copy();
        self.tell_by(now, notice, format_args!("line {name}: {notice}"));
    }

    /// Tells the fact of a notice: a failure also where only failures are told.
    fn tell_by<D: Display + Drop>(&mut self, now: u64, notice: &Notice, fact: D)
        ensures { self.new.source ≡ self.old.source }
    {
        match notice {
            Notice::PortFailing { .. } | Notice::DoorFailing => self.log.warn(now, fact),
            _ => self.log.info(now, fact),
        }
    }

    /// Whether serving is asked to stop. That is told once.
    fn is_asked_to_stop(&mut self, now: u64) -> bool {
        let Some(reason) = self.reason_to_stop() else {
            return false;
        };
        if !self.is_told {
            self.is_told = true;
            self.log.info(now, format_args!("stopping: {reason}"));
        }
        true
    }

    /// Why serving is to stop, if it is.
    fn reason_to_stop(&mut self) -> Option<&'static str> {
        if self.console.is_asked_to_stop() {
            return Some("the console was asked to");
        }
        let input = self.stop.as_mut()?;
        input.has_ended().then_some(input.reason())
    }
}

impl<L: Log + Drop, F: ConsoleFeed, S: SubsSource> OperatorWatch<L, F, S> {
    /// Whether the console asks for other subscriptions, or the input does.
    fn takes_reload(&mut self) -> bool {
        let console_asks = self.console.takes_reload();
        let input_asks = match &mut self.stop {
            Some(input) => input.takes_reload(),
            None => false,
        };
        console_asks || input_asks
    }

    /// Where the subscriptions that were read last are in force, lets the lines go that are gone by them, and tells of these by the names
    /// that they had.
    fn let_go(&mut self, now: u64, outcome: &Result<(), NotInForce>)
        ensures read { (next : Tables) → S.has_read self.old.source next → S.has_read self.new.source next }
        ensures in_force { S.in_force self.new.source ≡ S.in_force self.old.source }
    {
        if outcome.is_err() {
            return;
        }
        self.source.let_go();
        for _turn in 0..MOST_TURNS {
            self.tell_notices(now);
        }
    }

    /// Names the lines by the subscriptions in force from now on.
    fn rename(&mut self)
        ensures { self.new.source ≡ self.old.source }
    {
        let subs = self.source.subs();
        let lines = subs.counts().lines;
        for (place, name) in self.names.iter_mut().enumerate() {
            if place < lines {
                *name = subs.line(place as LineNo).name.copy();
            }
        }
    }

    /// Tells the operator, on the log and at the console, what became of other subscriptions.
    fn tell_reload(&mut self, now: u64, told: Result<String, String>)
        requires { OnOk told (IsInForce F.tables (S.in_force self.old.source)) }
    {
        match &told {
            Ok(text) => self.log.info(now, format_args!("{text}")),
            Err(reason) => self.log.warn(now, format_args!("not reloaded: {reason}")),
        }
        self.console.reloaded(told, self.source.subs());
    }
}

impl<L: Log + Drop, F: ConsoleFeed, S: SubsSource> Watch for OperatorWatch<L, F, S> {
    ghost tables = { F.tables };

    ghost has_handed = { λ watch. S.has_read watch.source };

    fn look(&mut self, _waiting: usize) -> Received {
        let now = self.clock.now();
        self.tell_opening(now);
        self.tell_notices(now);
        if self.is_asked_to_stop(now) {
            Received::Stops
        } else {
            Received::GoesOn
        }
    }

    fn note_ended(&mut self, records: &[Record]) {
        self.console.note_ended(records);
    }

    fn wants_look(&self) -> bool {
        self.console.wants_look()
    }

    fn see(&mut self, view: &ExchangeView, waiting: usize) {
        let now = self.clock.now();
        self.console.show(now, view, waiting);
    }

    fn next_subs(&mut self) -> Option<OfferedSubs> {
        if !self.takes_reload() {
            return None;
        }
        let now = self.clock.now();
        match self.source.read(self.alloc, now) {
            Ok(offered) => Some(offered),
            Err(reason) => {
                self.tell_reload(now, Err(reason));
                None
            }
        }
    }

    fn reloaded(&mut self, outcome: Result<(), NotInForce>) {
        let now = self.clock.now();
        self.let_go(now, &outcome);
        let told = self.source.take_note(self.alloc, outcome);
        self.rename();
        self.tell_reload(now, told);
    }

    fn end(&mut self, _is_kept: bool) {
        self.console.end();
    }
}

/// The names of the lines, by their places.
fn names_of(alloc: Global, subs: &Subs) -> Result<Vec<Name>, AllocError> {
    let lines = subs.counts().lines;
    let mut names = Vec::with_capacity(alloc, lines)?;
    for line in 0..lines {
        names.push(subs.line(line as LineNo).name.copy())?;
    }
    Ok(names)
}
