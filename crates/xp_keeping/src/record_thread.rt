//! The thread that keeps charging records.

ghost use Rattle.std.specs.Prelude.{◌≡◌, ◌≤◌, ◌++◌, [], vec_capacity};
ghost use Rattle.xp_keeping.specs.steps.Thread.{IsGivenBack};

use crate::call_keeper::CallKeeper;
use crate::keep_fault::KeepFault;
use crate::signal::KeepingSignal;
use std::alloc::Global;
use std::snapshot::Snapshot;
use std::sync::Wait;
use std::thread::Promise;
use xp_cdr::EndedCall;
use xp_outbox::TakeEnd;
use xp_sink::Received;

/// How many records are given to the keeper at a time, at most.
const MOST_AT_ONCE: usize = 256;

/// What the thread gives back as it ends.
#[derive(Drop)]
pub(crate) struct ThreadEnd<K: CallKeeper> {
    pub(crate) keeper: K,
    /// The end of the queue from which it took the records.
    pub(crate) records: TakeEnd<EndedCall, Global>,
    /// What came of keeping them.
    pub(crate) outcome: Result<(), KeepFault>,
}

/// The promise of a thread that it gives the keeper back, which has kept all that the thread took from the queue.
#[derive(Drop)]
pub(crate) struct GivesBack<K: CallKeeper> {
    /// The keeper that the thread began with.
    pub(crate) first: Snapshot<K>,
    /// The end of the queue, before anything was taken.
    pub(crate) records: Snapshot<TakeEnd<EndedCall, Global>>,
}

impl<K: CallKeeper> Promise<ThreadEnd<K>> for GivesBack<K> {
    ghost use Rattle.xp_keeping.specs.steps.Thread.{IsGivenBack};

    ghost kept_by = { λ promise end. IsGivenBack K.kept K.keeps promise.first.value promise.records.value.queue end.keeper end.records end.outcome };
}

/// What one look at the queue came to.
#[derive(Drop)]
struct Look {
    /// How many records were given to the keeper.
    count: usize,
    received: Received,
}

/// Gives the records that come through the queue to the keeper, until no further one is handed over, and lets it finish.
pub(crate) fn keep_records<K: CallKeeper, R: Wait>(
    rt: &R,
    alloc: Global,
    keeper: K,
    records: TakeEnd<EndedCall, Global>,
    signal: &KeepingSignal,
) -> ThreadEnd<K>
    requires received { K.given keeper ≡ [] }
    requires taken { records.taken ≡ [] }
    ensures { IsGivenBack K.kept K.keeps keeper records.queue result.keeper result.records result.outcome }
{
    let mut keeper = keeper;
    let mut records = records;
    for _ in rt.forever() {
        let is_over = signal.is_over();
        let look = keep_some(rt, alloc, &mut keeper, &mut records);
        tell(signal, &keeper, look.received);
        if look.count == 0 {
            if is_over {
                return finish(keeper, records, signal);
            }
            signal.wait_for_records(rt);
        }
    }
    unreachable!()
}

/// Lets the keeper finish.
fn finish<K: CallKeeper>(
    keeper: K,
    records: TakeEnd<EndedCall, Global>,
    signal: &KeepingSignal,
) -> ThreadEnd<K>
    requires { K.given keeper ≡ records.taken }
    ensures queue { result.records ≡ records }
    ensures kept { IsGivenBack K.kept K.keeps keeper records.queue result.keeper result.records result.outcome }
{
    let mut keeper = keeper;
    let outcome = keeper.finish();
    signal.tell_end();
    ThreadEnd {
        keeper,
        records,
        outcome,
    }
}

/// Tells how many records are kept, and whether the keeper asks for a stop.
fn tell<K: CallKeeper>(signal: &KeepingSignal, keeper: &K, received: Received) {
    signal.tell_kept(keeper);
    match received {
        Received::GoesOn => {}
        Received::Stops => signal.ask_to_stop(),
    }
}

/// Gives the keeper some of the records that wait in the queue, if there are any and memory for them, and else lets it do what it
/// does from time to time.
fn keep_some<K: CallKeeper, R: Wait>(
    rt: &R,
    alloc: Global,
    keeper: &mut K,
    records: &mut TakeEnd<EndedCall, Global>,
) -> Look
    ensures keeps { K.keeps keeper.old keeper.new }
    ensures queue { records.new.queue ≡ records.old.queue }
    ensures received { K.given keeper.old ≡ records.old.taken → K.given keeper.new ≡ records.new.taken }
{
    let Ok(room) = Vec::with_capacity(alloc, MOST_AT_ONCE) else {
        let received = keeper.tick();
        return Look { count: 0, received };
    };
    let batch = take_batch(rt, records, room);
    let count = batch.len();
    let received = if count == 0 {
        keeper.tick()
    } else {
        keeper.keep(batch)
    };
    Look { count, received }
}

/// Takes some of the records that wait in the queue.
fn take_batch<R: Wait>(
    rt: &R,
    records: &mut TakeEnd<EndedCall, Global>,
    room: Vec<EndedCall>,
) -> Vec<EndedCall>
    requires none { room.items ≡ [] }
    requires room { 256 ≤ vec_capacity room }
    ensures queue { records.new.queue ≡ records.old.queue }
    ensures taken { records.new.taken ≡ records.old.taken ++ result.items }
{
    let mut batch = room;
    for _place in 0..MOST_AT_ONCE {
        let Some(ended) = records.take(rt) else {
            break;
        };
        batch.push_reserved(ended);
    }
    batch
}
