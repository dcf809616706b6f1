//! The exchange that threads share.

ghost use Rattle.std.specs.Prelude.{◌≡◌, [], ◌∷◌, ◌++◌, false, IfErr, IfNone, IfOk, IfSome, OnErr, length, replicate};
ghost use mathlib.Core.List.{IsPrefix};
ghost use Rattle.xp_subs.specs.Tables.{line_count};
ghost use Rattle.xp_step.specs.Exchange.{IsReadable};
ghost use Rattle.xp_lock.specs.Closing.{AreCounted, PassesMatch, HasAll, IsMissing, NoneTwice, all_handed, handed_together, own_entries_together};
ghost use Rattle.xp_lock.specs.Faults.{event_in};
ghost use Rattle.xp_seats.specs.Handed.{is_raised};
ghost use Rattle.xp_lock.specs.Outgoing.{put_out_to};
ghost use Rattle.xp_lock.specs.Passes.{GainsEvent, IsLegal};
ghost use Rattle.xp_seats.specs.Views.{StartsWith};

use crate::book::Book;
use crate::fault::{CloseFault, OfferFault};
use crate::keeper::Keeper;
use crate::missing::first_missing;
use crate::pass::LinePass;
use crate::receipt::Receipt;
use crossbeam_utils::Backoff;
use std::alloc::{Allocator, Global};
use std::marker::Model;
use std::sync::atomic::AtomicBool;
use std::sync::atomic::Ordering::SeqCst;
use std::sync::{Mutex, MutexGuard, Wait};
use xp_seats::{Name, Recorder};
use xp_step::{Event, Outgoing};
use xp_subs::LineNo;

/// How often a thread tries to take the lock before it sleeps until the lock is free. Between two tries it waits for a moment, and
/// after some tries lets other threads run.
const MOST_TRIES: u32 = 100;

/// The exchange while a thread holds its lock. The thread frees the lock as it drops the guard. A thread that has several
/// events to offer takes the lock once for all of them. Until it drops the guard, no other thread's events are entered.
pub type ExchangeGuard<'a, N, A = Global> = MutexGuard<'a, Keeper<N, A>>;

/// The exchange that threads share. `N` names it.
pub struct Exchange<N: Name, A: Allocator = Global> {
    lock: Mutex<Keeper<N, A>>,
    /// Whether the keeper refuses every event. It stands beside the lock, since each line reads it in each of its turns.
    halted: AtomicBool,
    lines: LineNo,
    /// Room for the counts of what the lines took, so that closing allocates nothing.
    taken: Vec<u64, A>,
}

impl<N: Name, A: Allocator> Drop for Exchange<N, A> {
    fn drop(self) {
        let Exchange {
            lock: _,
            halted: _,
            lines: _,
            taken: _,
        } = self;
    }
}

impl<N: Name, A: Allocator> Model for Exchange<N, A> {
    ghost use Rattle.std.specs.Prelude.{◌≡◌, ℕ, replicate};
    ghost use Rattle.xp_subs.specs.Tables.{line_count};

    ghost Value = { ℕ };

    ghost view = { λ _. 0 };

    ghost invariant = { λ x. (x.lines ≡ line_count N.subs) × (x.taken.items ≡ replicate (line_count N.subs) 0) };
}

impl<N: Name, A: Allocator + Copy> Exchange<N, A> {
    /// The exchange around this keeper.
    pub(crate) fn new(keeper: Keeper<N, A>, lines: LineNo, taken: Vec<u64, A>) -> Exchange<N, A>
        requires lines { lines ≡ line_count N.subs }
        requires taken { taken.items ≡ replicate (line_count N.subs) 0 }
    {
        Exchange {
            lock: Mutex::new(keeper),
            halted: AtomicBool::new(false),
            lines,
            taken,
        }
    }

    /// Takes the lock, and enters one event of the pass's line with the stalls that the event forces, as `Keeper::offer` does.
    ///
    /// # Errors
    ///
    /// Those of `Keeper::offer`.
    pub fn offer<R: Wait>(
        &self,
        rt: &R,
        pass: &mut LinePass<N, A>,
        event: Event<A>,
    ) -> Result<Receipt, OfferFault<A>>
        requires line { event.line ≡ pass.old.line }
        requires readable { IsReadable event.what }
        requires kind { is_raised event.what ≡ false }
        ensures ok { IfOk result (λ done. GainsEvent N.subs pass.old event done pass.new) }
        ensures err { IfErr result (λ fault. event_in fault ≡ event) }
        ensures pass { OnErr result (pass.new ≡ pass.old) }
    {
        self.lock(rt).offer(rt, pass, event)
    }

    /// Takes the lock. A thread holds it for some microseconds. To put a thread to sleep costs more than many tries, and
    /// between later tries other threads run: the one that holds the lock, or those that packets come from.
    pub fn lock<R: Wait>(&self, rt: &R) -> ExchangeGuard<'_, N, A> {
        let backoff = Backoff::new();
        for _try in 0..MOST_TRIES {
            if let Some(keeper) = self.lock.try_lock() {
                return keeper;
            }
            backoff.snooze();
        }
        self.lock.lock(rt)
    }

    /// Takes the oldest output from the outbox of the pass's line, or returns `None` where it finds none. Then the line has taken
    /// all that the history it has seen puts out to it. It takes no lock.
    pub fn next_out<R: Wait>(&self, rt: &R, pass: &mut LinePass<N, A>) -> Option<Outgoing<A>>
        ensures item { IfSome result (λ item. pass.new ≡ record pass.old { taken = pass.old.taken ++ item ∷ [] }) }
        ensures none { IfNone result (pass.new ≡ pass.old) }
        ensures all { IfNone result (IsPrefix (put_out_to pass.old.line pass.old.seen) pass.old.taken) }
    {
        let item = pass.outbox.take(rt)?;
        pass.count = pass.count.saturating_add(1);
        Some(item)
    }

    /// Makes the exchange refuse every later offer.
    pub fn halt<R: Wait>(&self, rt: &R) {
        self.lock.lock(rt).halt();
        self.halted.store(true, SeqCst);
    }

    /// Whether the exchange refuses every offer, as it does once a `halt` has ended. It takes no lock.
    pub fn halted(&self) -> bool {
        self.halted.load(SeqCst)
    }

    /// Closes the exchange if the passes of all lines are here, and returns its book. In the book's history each line has
    /// the own entries that its one pass knows. What the pass took are the first outputs to its line, as many as the book
    /// counts. The recorder saw a front of this history, and the records that were handed over are those that it received.
    ///
    /// # Errors
    ///
    /// `CloseFault` with the lowest line whose pass is not here. The fault gives the exchange, the passes and the recorder back.
    pub fn close<R: Wait>(
        self,
        rt: &R,
        passes: Vec<LinePass<N, A>, A>,
        recorder: Recorder<N, A>,
    ) -> Result<Book<A>, CloseFault<N, A>>
        ensures all { IfOk result (λ _. HasAll (line_count N.subs) passes.items) }
        ensures once { IfOk result (λ _. NoneTwice passes.items) }
        ensures subs { IfOk result (λ book. book.subs ≡ N.subs) }
        ensures legal { IfOk result (λ book. IsLegal book.subs book.history) }
        ensures told { IfOk result (λ book. PassesMatch book.history passes.items) }
        ensures taken { IfOk result (λ book. AreCounted book passes.items) }
        ensures counted { IfOk result (λ book. length (all_handed book.history) ≡ handed_together (line_count N.subs) book.history) }
        ensures together { IfOk result (λ book. length (all_handed book.history) ≡ own_entries_together passes.items) }
        ensures recorded { IfOk result (λ book. StartsWith book.history recorder.seen) }
        ensures given { IfOk result (λ book. book.given ≡ recorder.received) }
        ensures missing { IfErr result (λ fault. IsMissing (line_count N.subs) passes.items fault.line) }
        ensures passes { IfErr result (λ fault. fault.passes.items ≡ passes.items) }
        ensures recorder { IfErr result (λ fault. fault.recorder ≡ recorder) }
    {
        if let Some(line) = first_missing(self.lines, passes.as_slice()) {
            return Err(CloseFault {
                line,
                exchange: self,
                passes,
                recorder,
            });
        }
        let Exchange {
            lock,
            halted: _,
            lines: _,
            taken,
        } = self;
        let keeper = lock.into_inner();
        let book = keeper.close(rt, passes, recorder, taken);
        let _legal = book.count();
        Ok(book)
    }
}
