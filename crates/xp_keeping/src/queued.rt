//! Keeping charging records on a thread of its own.

ghost use Rattle.std.specs.Prelude.{◌≡◌, ◌↔◌, ◌++◌, ◌∷◌, [], All, IfOk, None, map, option_copied, true};
ghost use Rattle.xp_cdr.specs.Ended.{ended_as};
ghost use Rattle.xp_charge.specs.Lines.{HasLines};
ghost use Rattle.xp_keeping.specs.Queued.{AreKeptBeside, KeepsBeside, first_queued};
ghost use Rattle.xp_keeping.specs.steps.Queued.{Adds, GoesOnBeside};
ghost use Rattle.xp_keeping.specs.steps.Thread.{IsGivenBack};
ghost use Rattle.xp_subs.specs.Tables.{line_count};

use crate::call_keeper::CallKeeper;
use crate::keep_fault::KeepFault;
use crate::keeping::RecordKeeper;
use crate::record_queue::RecordQueue;
use crate::record_thread::{GivesBack, ThreadEnd, keep_records};
use crate::signal::KeepingSignal;
use crate::telling::Telling;
use std::alloc::{AllocError, Global};
use std::collections::VecDeque;
use std::marker::Model;
use std::snapshot::Snapshot;
use std::sync::{Arc, Wait};
use std::thread;
use std::thread::{PromisedHandle, Threads};
use xp_cdr::{EndedBy, EndedCall};
use xp_charge::Record;
use xp_sink::{NextSubs, NotInForce, Received, RecordSink};
use xp_subs::Subs;
use xp_view::ExchangeView;

/// While so many records are not kept, serving stops.
const MOST_LEFT: usize = 100_000;

/// How often the thread that keeps records is looked at as serving ends, while it keeps none: a hundred times a second, for ten
/// seconds. Then it is given up.
const MOST_LOOKS: usize = 1_000;

/// Hands charging records to a keeper on a thread of its own, so that nothing waits for it: neither for a file that takes nothing,
/// nor for an output that nobody reads. A copy of each record stays here until the keeper has kept it.
pub struct QueuedKeeper<K: CallKeeper, R: Threads + Wait> {
    rt: R,
    /// By what the lines of the calls are named.
    telling: Telling,
    queue: RecordQueue,
    signal: Arc<KeepingSignal>,
    /// The thread, until it has ended.
    thread: Option<PromisedHandle<ThreadEnd<K>, GivesBack<K>>>,
    /// The keeper, once the thread has given it back.
    last: Option<K>,
    /// What is told where the thread gives nothing back.
    fault: KeepFault,
    /// Whether memory was wanting for a record.
    is_short: bool,
    /// By what the calls end whose records are received.
    ended_by: EndedBy,
    first: Snapshot<K>,
}

impl<K: CallKeeper, R: Drop + Threads + Wait> Drop for QueuedKeeper<K, R> {
    fn drop(self) {
        let QueuedKeeper {
            rt: _,
            telling: _,
            queue: _,
            signal: _,
            thread: _,
            last: _,
            fault: _,
            is_short: _,
            ended_by: _,
            first: _,
        } = self;
    }
}

impl<K: CallKeeper, R: Threads + Wait> Model for QueuedKeeper<K, R> {
    ghost use Rattle.std.specs.Prelude.{◌≡◌, IfSome};
    ghost use Rattle.xp_keeping.specs.Queued.{Queued};
    ghost use Rattle.xp_keeping.specs.steps.Queued.{IsHandedOn};

    ghost Value = { Queued K };

    ghost view = { λ k. record { opening = k.telling.opening; named = k.telling.named; subs = k.telling.subs; given = k.telling.given; ended_by = k.ended_by; is_short = k.is_short; first = k.first.value; last = k.last; left = k.queue.left; fault = k.fault } };

    ghost invariant = { λ k. IsHandedOn k.queue.all k.telling.given k.is_short × IfSome k.thread (λ handle. (handle.promise.first.value ≡ k.first.value) × (handle.promise.records.value.queue ≡ k.queue.queue)) };
}

impl<K: CallKeeper + Send + 'static, R: Threads + Wait + Copy + Send + 'static> QueuedKeeper<K, R> {
    /// Starts the thread of a keeper that was given no record yet. Calls are told by these subscriptions. Where the thread does not end
    /// in time, `fault` is told.
    ///
    /// # Errors
    ///
    /// `AllocError` if an allocation fails, or the thread cannot be started.
    pub fn start(
        rt: R,
        alloc: Global,
        subs: Subs,
        keeper: K,
        fault: KeepFault,
    ) -> Result<QueuedKeeper<K, R>, AllocError>
        requires received { K.given keeper ≡ [] }
        ensures { IfOk result (λ queued. queued ≡ first_queued subs keeper fault) }
    {
        let signal = Arc::new(alloc, KeepingSignal::new())?;
        let theirs = Arc::try_clone(&signal)?;
        let (queue, records) = RecordQueue::new(alloc)?;
        let first = Snapshot::of(&keeper);
        let promise = GivesBack {
            first: Snapshot::of(&keeper),
            records: Snapshot::of(&records),
        };
        let run = move || -> ThreadEnd<K>
            requires received { K.given keeper ≡ [] }
            requires taken { records.taken ≡ [] }
            ensures { IsGivenBack K.kept K.keeps keeper records.queue result.keeper result.records result.outcome }
        { keep_records(&rt, alloc, keeper, records, &theirs) };
        let thread = thread::spawn_with(&rt, promise, run)?;
        Ok(QueuedKeeper {
            rt,
            telling: Telling::new(subs),
            queue,
            signal,
            thread: Some(thread),
            last: None,
            fault,
            is_short: false,
            ended_by: EndedBy::Call,
            first,
        })
    }
}

impl<K: CallKeeper, R: Threads + Wait + Copy> QueuedKeeper<K, R> {
    /// The records that the thread has not told as kept, the last of all. Where it was given up, nobody knows whether they are kept.
    pub fn left(&self) -> &VecDeque<EndedCall>
        ensures { result.now.items ≡ self.now.left }
    {
        self.queue.left()
    }

    /// The keeper, where the thread has given it back.
    pub(crate) fn last(&self) -> Option<&K>
        ensures { option_copied result ≡ self.now.last }
    {
        self.last.as_ref()
    }

    /// Whether the thread has given nothing back.
    pub fn is_given_up(&self) -> bool
        ensures { result ≡ true ↔ self.now.last ≡ None }
    {
        self.last.is_none()
    }

    /// Hands over these records, unless memory was wanting before.
    fn hand_over(&mut self, records: &[Record])
        requires lines { All (HasLines (line_count self.old.subs)) records.now }
        ensures given { self.new.given ≡ self.old.given ++ map (ended_as self.old.subs self.old.ended_by) records.now }
        ensures goes_on { GoesOnBeside self.old self.new }
    {
        for ended in records {
            self.hand_over_one(ended);
        }
    }

    /// Hands over this record, unless memory was wanting before.
    fn hand_over_one(&mut self, ended: &Record)
        requires lines { HasLines (line_count self.old.subs) ended.now }
        ensures given { self.new.given ≡ self.old.given ++ ended_as self.old.subs self.old.ended_by ended.now ∷ [] }
        ensures goes_on { GoesOnBeside self.old self.new }
    {
        let call = self.telling.tell(ended, self.ended_by);
        self.is_short = add(self.is_short, &mut self.queue, call);
    }

    /// Puts into the queue what it has room for, lets go what is kept, and tells whether serving is to go on.
    fn pass_on(&mut self) -> Received
        ensures given { self.new.given ≡ self.old.given }
        ensures goes_on { GoesOnBeside self.old self.new }
    {
        self.queue.let_go(self.signal.kept());
        self.queue.send(&self.rt);
        self.signal.handed_over();
        let is_full = self.queue.count() >= MOST_LEFT;
        if self.is_short || is_full || self.signal.wants_stop() {
            Received::Stops
        } else {
            Received::GoesOn
        }
    }

    /// Waits until the thread has ended, as no further record is handed over. Returns whether it has: it is given up where it has kept
    /// none for ten seconds.
    fn has_ended(&mut self) -> bool
        ensures given { self.new.given ≡ self.old.given }
        ensures goes_on { GoesOnBeside self.old self.new }
    {
        let rt = self.rt;
        let mut kept = self.signal.kept();
        let mut looks = 0_usize;
        for _ in rt.forever() {
            let _received = self.pass_on();
            if self.queue.is_sent() {
                self.signal.end();
            }
            if self.signal.has_ended() {
                return true;
            }
            let now = self.signal.kept();
            looks = if now == kept {
                looks.saturating_add(1)
            } else {
                0
            };
            kept = now;
            if looks > MOST_LOOKS {
                return false;
            }
            self.signal.wait_for_end(&rt);
        }
        unreachable!()
    }

    /// Takes the keeper back from the thread, which has ended, and tells what came of keeping the records.
    fn end(&mut self) -> Result<(), KeepFault>
        requires { self.old.last ≡ None }
        ensures kept { AreKeptBeside K.kept K.keeps self.new self.old.given result }
        ensures goes_on { KeepsBeside self.old self.new }
    {
        let _subs = self.telling.subs();
        let Some(handle) = self.thread.take() else {
            return self.give_up();
        };
        let ThreadEnd {
            keeper,
            records,
            outcome,
        } = handle.join(&self.rt);
        let has_all = self.queue.has_all(&self.rt, records);
        if !has_all {
            return self.give_up();
        }
        self.last = Some(keeper);
        if self.is_short {
            Err(KeepFault::Memory)
        } else {
            outcome
        }
    }

    /// Tells that the thread was given up, or that memory was wanting before.
    fn give_up(&self) -> Result<(), KeepFault>
        requires { self.now.last ≡ None }
        ensures { AreKeptBeside K.kept K.keeps self.now self.now.given result }
    {
        let _subs = self.telling.subs();
        let _left = self.queue.left();
        if self.is_short {
            Err(KeepFault::Memory)
        } else {
            Err(self.fault)
        }
    }
}

/// Adds a record to the queue, unless memory was wanting before. Returns whether memory is wanting.
fn add(is_short: bool, queue: &mut RecordQueue, ended: EndedCall) -> bool
    ensures { Adds is_short queue.old ended result queue.new }
{
    is_short || queue.add(ended).is_err()
}

impl<K: CallKeeper, R: Threads + Wait + Copy + Drop> RecordSink for QueuedKeeper<K, R> {
    ghost use Rattle.std.specs.Prelude.{[], ◌++◌};
    ghost use Rattle.std.proofs.Common.{ap, append-nil, append_assoc, refl, sym, ◌∙◌};
    ghost use Rattle.xp_cdr.specs.Ended.{charging_records};
    ghost use Rattle.xp_keeping.specs.Queued.{KeepsBeside};
    ghost use Rattle.xp_subs.specs.Tables.{line_count};

    ghost received = { λ k. charging_records k.given };

    ghost lines = { λ k. line_count k.subs };

    ghost tables = { λ k. k.opening };

    ghost named_by = { λ k. k.subs };

    ghost has_handed = { λ _ _. ⊥ };

    ghost keeps = { KeepsBeside };

    #[tactic(auto, using(crate::proofs::EndedLemmas::records_more))]
    fn receive(&mut self, records: Vec<Record>) -> Received {
        self.hand_over(&records);
        self.pass_on()
    }

    fn tick(&mut self) -> Received {
        self.pass_on()
    }

    fn wants_look(&self) -> bool {
        false
    }

    fn see(&mut self, _view: ExchangeView) {}

    fn next_subs(&mut self) -> Option<NextSubs> {
        None
    }

    fn reloaded(&mut self, _outcome: Result<(), NotInForce>) {}

    ghost keeps_itself = { λ k. record { opening = refl; later = []; named = sym (append-nil k.named); lines = refl; first = refl; fault = refl } };

    ghost keeps_on = { λ k l m first second. record { opening = second.opening ∙ first.opening; later = first.later ++ second.later; named = second.named ∙ ap (λ named. named ++ second.later) first.named ∙ append_assoc k.named first.later second.later; lines = second.lines ∙ first.lines; first = second.first ∙ first.first; fault = second.fault ∙ first.fault } };
}

impl<K: CallKeeper, R: Threads + Wait + Copy + Drop> RecordKeeper for QueuedKeeper<K, R> {
    ghost use Rattle.std.proofs.Common.{refl};
    ghost use Rattle.xp_keeping.specs.Queued.{AreKeptBeside};

    ghost calls = { λ k. k.given };

    ghost kept = { λ k calls result. AreKeptBeside K.kept K.keeps k calls result };

    ghost has_lines = { λ k. refl };

    ghost keeps_lines = { λ k l same. same.lines };

    ghost are_received = { λ k. refl };

    fn waiting(&self) -> usize {
        self.queue.count()
    }

    fn rename(&mut self, subs: Subs) {
        self.telling.rename(subs);
    }

    fn stop(&mut self) {
        self.ended_by = EndedBy::Stop;
    }

    fn finish(&mut self, rest: &[Record]) -> Result<(), KeepFault> {
        self.last = None;
        self.ended_by = EndedBy::Stop;
        self.hand_over(rest);
        if self.has_ended() {
            self.end()
        } else {
            self.give_up()
        }
    }
}
