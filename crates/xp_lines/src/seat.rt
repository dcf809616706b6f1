//! The place of a line in the exchange, from which it offers its events.

ghost use Rattle.std.specs.Prelude.{◌≡◌, ◌⊎◌, IfOk, List, None, false};
ghost use Rattle.xp_step.specs.declared.event.What.{What as Happening};
ghost use Rattle.xp_lock.specs.Passes.{GainsEvent};
ghost use Rattle.xp_lines.specs.steps.Offering.{TakesFront, Tells, event_on};
ghost use Rattle.xp_lines.specs.AnswerTimer.{Expires};
ghost use Rattle.xp_lines.specs.Offers.{Gains};
ghost use Rattle.xp_lines.specs.Reads.{keeps, stays};
ghost use Rattle.xp_lines.specs.steps.Reads.{over_of};

use crate::answer_timer::is_late;
use crate::over::Over;
use crate::shared::Shared;
use crate::signals::Signals;
use crate::waiting::Waiting;
use std::alloc::{Allocator, Global};
use std::sync::Wait;
use xp_links::{Bell, Clock};
use xp_lock::{ExchangeGuard, LinePass, Receipt};
use xp_seats::Name;
use xp_step::Event;
use xp_subs::LineNo;

/// The place of a line in the exchange: what each of its turns needs beside the line's link.
#[derive(Drop)]
pub struct Seat<N: Name, C: Clock, B: Bell, A: Allocator = Global> {
    pub pass: LinePass<N, A>,
    pub clock: C,
    pub(crate) bell: B,
    /// The other line that received an output last. Its bell is still to be rung.
    given: Option<LineNo>,
    /// Whether the line was the first to tell of new charging records in its last turn. Mostly a call of the line ended in it.
    pub(crate) has_new_records: bool,
}

impl<N: Name, C: Clock, B: Bell, A: Allocator + Copy> Seat<N, C, B, A> {
    /// The seat of the line with this pass, clock and bell.
    pub fn new(pass: LinePass<N, A>, clock: C, bell: B) -> Seat<N, C, B, A>
        ensures { result.pass ≡ pass }
    {
        Seat {
            pass,
            clock,
            bell,
            given: None,
            has_new_records: false,
        }
    }

    /// Whether the line has new charging records and the recording thread is behind.
    pub(crate) fn waits_for_recorder(&self, signals: &Signals) -> bool {
        self.has_new_records && signals.is_recorder_behind()
    }

    /// Its pass.
    pub fn into_pass(self) -> LinePass<N, A>
        ensures { result ≡ self.pass }
    {
        self.pass
    }

    /// Offers one event of the line, at this moment, in seconds. After releasing the lock, the thread rings for each other line that
    /// received outputs by it, and tells the recording thread of new records.
    ///
    /// # Errors
    ///
    /// `Halted` and `Journal` as the exchange refuses the event, and `Memory` for its other refusals. Then nothing has changed.
    pub(crate) fn offer<R: Wait>(
        &mut self,
        shared: &Shared<'_, N, R, A>,
        moment: u64,
        waiting: Waiting<A>,
    ) -> Result<Receipt, Over>
        ensures tells { Tells self.old.pass waiting result self.new.pass }
        ensures gains { IfOk result (λ done. GainsEvent N.subs self.old.pass (event_on self.old.pass.line moment waiting) done self.new.pass) }
    {
        let done = self.offer_held(
            shared.rt,
            &mut shared.exchange.lock(shared.rt),
            moment,
            waiting,
        )?;
        self.tell(shared.signals, done.records() as u64);
        Ok(done)
    }

    /// Offers that an incoming call, which waits since then, was not answered in time, if that is so. Then it waits no more, so it
    /// expires once. Returns whether it was so.
    ///
    /// # Errors
    ///
    /// Those of `offer`.
    pub(crate) fn expire_late<R: Wait>(
        &mut self,
        shared: &Shared<'_, N, R, A>,
        now: u64,
        since: &mut Option<u64>,
    ) -> Result<bool, Over>
        ensures lapses { (expired : List (Happening A)) × Gains self.old.pass expired self.new.pass × Expires (stays (over_of result)) now since.old expired since.new }
        ensures ends { (over_of result ≡ None) ⊎ (keeps (over_of result) ≡ false) }
    {
        if !is_late(now, *since) {
            return Ok(false);
        }
        *since = None;
        self.offer(shared, now, Waiting::expire())?;
        Ok(true)
    }

    /// Offers events in order, at this moment, under one lock, until the exchange refuses one. Where there are none it takes no
    /// lock. After releasing the lock, the thread rings for the last line that received outputs, which then finds all of them at once.
    ///
    /// # Errors
    ///
    /// Those of `offer`, for the first event that the exchange refuses.
    pub(crate) fn offer_all<R: Wait>(
        &mut self,
        shared: &Shared<'_, N, R, A>,
        moment: u64,
        ready: Vec<Waiting<A>, A>,
    ) -> Result<(), Over>
        ensures { TakesFront self.old.pass ready.items (over_of result) self.new.pass }
    {
        if ready.is_empty() {
            return Ok(());
        }
        let mut records = 0;
        let offered = self.offer_each(
            shared.rt,
            &mut shared.exchange.lock(shared.rt),
            moment,
            ready,
            &mut records,
        );
        self.tell(shared.signals, records);
        offered
    }

    /// Offers events in order while the thread holds the exchange's lock, until the exchange refuses one. Counts the charging records
    /// that there are then.
    fn offer_each<R: Wait>(
        &mut self,
        rt: &R,
        guard: &mut ExchangeGuard<'_, N, A>,
        moment: u64,
        ready: Vec<Waiting<A>, A>,
        records: &mut u64,
    ) -> Result<(), Over>
        ensures { TakesFront self.old.pass ready.items (over_of result) self.new.pass }
    {
        for next in ready {
            *records = self.offer_held(rt, guard, moment, next)?.records() as u64;
        }
        Ok(())
    }

    /// Offers one event of the line, at this moment, while the thread holds the exchange's lock.
    fn offer_held<R: Wait>(
        &mut self,
        rt: &R,
        guard: &mut ExchangeGuard<'_, N, A>,
        moment: u64,
        waiting: Waiting<A>,
    ) -> Result<Receipt, Over>
        ensures tells { Tells self.old.pass waiting result self.new.pass }
        ensures gains { IfOk result (λ done. GainsEvent N.subs self.old.pass (event_on self.old.pass.line moment waiting) done self.new.pass) }
    {
        let event = Event {
            line: self.pass.line(),
            moment,
            what: waiting.into_what(),
        };
        let done = guard.offer(rt, &mut self.pass, event)?;
        self.ring_for_others(&done);
        Ok(done)
    }

    /// Rings for the other lines that received outputs by an event, all but the last one. The events after this one mostly put out to
    /// that line too, and so the thread rings for it once, after all of them.
    fn ring_for_others(&mut self, done: &Receipt)
        ensures { self.new.pass ≡ self.old.pass }
    {
        let line = self.pass.line();
        for given in done.given() {
            if *given != line && self.given != Some(*given) {
                self.ring_for_last();
                self.given = Some(*given);
            }
        }
    }

    /// Rings for the line that received an output last, if there is one that was not rung for.
    fn ring_for_last(&mut self)
        ensures { self.new.pass ≡ self.old.pass }
    {
        if let Some(line) = self.given.take() {
            self.bell.ring(line);
        }
    }

    /// Tells the other threads what was done under the lock: there are outputs for the last line, and so many charging records.
    fn tell(&mut self, signals: &Signals, records: u64)
        ensures { self.new.pass ≡ self.old.pass }
    {
        self.ring_for_last();
        if signals.records_made(records) {
            self.has_new_records = true;
        }
    }
}
