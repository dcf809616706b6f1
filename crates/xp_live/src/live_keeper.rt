//! Keeping the live calls of a run in a file.

ghost use Rattle.std.specs.Prelude.{◌≡◌, ◌==◌, IfOk, if◌then◌else◌};
ghost use Rattle.xp_sink.specs.Seen.{IsSeenOf};
ghost use Rattle.xp_subs.specs.Tables.{line_count};

use crate::connected::live_calls;
use crate::kept_text::KeptText;
use crate::live_thread::LiveThread;
use std::alloc::{AllocError, Global};
use std::marker::Model;
use std::snapshot::Snapshot;
use std::sync::Wait;
use xp_cdr::{EndedCall, ExchangeRun};
use xp_charge::Record;
use xp_clock::WallClock;
use xp_subs::Subs;
use xp_view::ExchangeView;

/// A text that is not with the thread yet.
#[derive(Drop)]
struct WaitingText {
    text: KeptText,
    /// How many records the run had as its calls were live. Once so many are kept, no call has ended that is neither in the file of
    /// call detail records nor in this text.
    records: u64,
}

/// Makes the text of the live calls each second, and has a thread write it once each call that is not in it any more has its record
/// on the disk. Nothing here waits. Contracts see the subscriptions with which the exchange was opened, and those by which the live
/// calls are told.
pub struct LiveKeeper<R: Wait> {
    alloc: Global,
    opening: Snapshot<Subs>,
    /// The subscriptions from which the lines have their names and addresses.
    names: Subs,
    run: ExchangeRun,
    clock: WallClock,
    thread: LiveThread<R>,
    /// How many records the run has.
    records: u64,
    /// The second in which the exchange was seen last.
    seen: u64,
    waiting: Option<WaitingText>,
    /// Whether the text that was made last has no call.
    is_empty: bool,
    /// The numbers of the calls in it that have not ended since.
    live: Vec<u64>,
}

impl<R: Drop + Wait> Drop for LiveKeeper<R> {
    fn drop(self) {
        let LiveKeeper {
            alloc: _,
            opening: _,
            names: _,
            run: _,
            clock: _,
            thread: _,
            records: _,
            seen: _,
            waiting: _,
            is_empty: _,
            live: _,
        } = self;
    }
}

impl<R: Wait> Model for LiveKeeper<R> {
    ghost use Rattle.std.specs.Prelude.{◌≡◌};
    ghost use Rattle.xp_live.specs.Kept.{Naming};
    ghost use Rattle.xp_subs.specs.Tables.{line_count};

    ghost Value = { Naming };

    ghost view = { λ keeper. record { opening = keeper.opening.value; names = keeper.names } };

    ghost invariant = { λ keeper. line_count keeper.names ≡ line_count keeper.opening.value };
}

impl<R: Wait + Drop> LiveKeeper<R> {
    /// Keeps the live calls of this run, told by these subscriptions. The file is made empty at once.
    ///
    /// # Errors
    ///
    /// `AllocError` if an allocation fails.
    pub fn begin(
        alloc: Global,
        subs: Subs,
        run: ExchangeRun,
        clock: WallClock,
        thread: LiveThread<R>,
    ) -> Result<LiveKeeper<R>, AllocError>
        ensures { IfOk result (λ keeper. keeper ≡ record { opening = subs; names = subs }) }
    {
        let text = KeptText::empty(alloc, &run)?;
        let seen = clock.seconds();
        let mut keeper = LiveKeeper {
            alloc,
            opening: Snapshot::of(&subs),
            names: subs,
            run,
            clock,
            thread,
            records: 0,
            seen,
            waiting: Some(WaitingText { text, records: 0 }),
            is_empty: true,
            live: Vec::new(alloc),
        };
        keeper.look(0);
        Ok(keeper)
    }

    /// Tells live calls by these subscriptions from now on, unless they have another number of lines.
    pub fn rename(&mut self, names: Subs)
        ensures opening { self.new.opening ≡ self.old.opening }
        ensures names { self.new.names ≡ (if line_count names == line_count self.old.names then names else self.old.names) }
    {
        if names.counts().lines == self.names.counts().lines {
            self.names = names;
        }
    }

    /// Takes note that calls have ended, whose records the keeper of records is given now.
    pub fn note_ended(&mut self, records: &[Record])
        ensures { self.new ≡ self.old }
    {
        self.records = self.records.saturating_add(records.len() as u64);
        forget_ended(&mut self.live, records);
    }

    /// Whether it wants to see the exchange now: in each second, unless a text still waits.
    pub fn wants_look(&self) -> bool {
        let mut clock = self.clock;
        self.waiting.is_none() && clock.now() > self.seen
    }

    /// Takes what can be seen of the exchange, as it was when the records were taken that were noted last, if it wants that.
    pub fn see(&mut self, view: &ExchangeView)
        requires seen { IsSeenOf self.old.opening view.now }
        ensures { self.new ≡ self.old }
    {
        if !self.wants_look() {
            return;
        }
        let moment = self.clock.now();
        self.seen = moment;
        // Where memory is wanting, the next second tries again.
        if let Ok(waiting) = self.text_of(view, moment) {
            self.waiting = waiting;
        }
    }

    /// The text of the live calls that are seen at this moment, unless there are none and were none.
    fn text_of(
        &mut self,
        view: &ExchangeView,
        moment: u64,
    ) -> Result<Option<WaitingText>, AllocError>
        requires seen { IsSeenOf self.old.opening view.now }
        ensures { self.new ≡ self.old }
    {
        let calls = live_calls(self.alloc, &self.names, view, moment)?;
        if calls.is_empty() && self.is_empty {
            return Ok(None);
        }
        let text = KeptText::of(self.alloc, &self.run, calls.as_slice())?;
        self.live = numbers_of(self.alloc, calls.as_slice())?;
        self.is_empty = calls.is_empty();
        Ok(Some(WaitingText {
            text,
            records: self.records,
        }))
    }

    /// Gives the text to the thread that waits, if all records are kept that the run had as its calls were live. So many of those
    /// that the run has now are not.
    pub fn look(&mut self, unkept: usize)
        ensures { self.new ≡ self.old }
    {
        let kept = self.records.saturating_sub(unkept as u64);
        match self.waiting.take() {
            Some(waiting) if waiting.records <= kept => self.put(waiting),
            waiting => self.waiting = waiting,
        }
    }

    /// Gives a text to the thread, or has it wait where the thread takes another one.
    fn put(&mut self, waiting: WaitingText)
        ensures { self.new ≡ self.old }
    {
        let WaitingText { text, records } = waiting;
        self.waiting = match self.thread.put(text) {
            Some(text) => Some(WaitingText { text, records }),
            None => None,
        };
    }

    /// Ends, as the run does. Where all records are kept, the file is made empty, unless calls are live that have not ended, as where
    /// the history was full. Else it is left as it is.
    pub fn end(&mut self, is_kept: bool)
        ensures { self.new ≡ self.old }
    {
        if is_kept {
            self.put_last();
        }
        self.thread.end();
    }

    /// Gives the last text to the thread, now that all records are kept.
    fn put_last(&mut self)
        ensures { self.new ≡ self.old }
    {
        if self.live.is_empty() {
            let Ok(text) = KeptText::empty(self.alloc, &self.run) else {
                return;
            };
            self.waiting = Some(WaitingText { text, records: 0 });
        }
        if let Some(waiting) = self.waiting.take() {
            self.thread.put_last(waiting.text);
        }
    }
}

/// Lets the numbers of the calls go that these records are of.
fn forget_ended(live: &mut Vec<u64>, records: &[Record]) {
    for record in records {
        live.retain(|number| *number != record.number);
    }
}

/// The numbers of these calls.
fn numbers_of(alloc: Global, calls: &[EndedCall]) -> Result<Vec<u64>, AllocError> {
    let mut numbers = Vec::with_capacity(alloc, calls.len())?;
    for call in calls {
        numbers.push(call.charging.number)?;
    }
    Ok(numbers)
}
