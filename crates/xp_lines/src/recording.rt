//! Charging records are taken from the exchange as calls end, and handed to a sink, and what the sink asks of the exchange is done.

ghost use Rattle.std.specs.Prelude.{◌≡◌, ◌++◌, All};
ghost use Rattle.xp_charge.specs.Lines.{HasLines};
ghost use Rattle.xp_lines.specs.Recorded.{HandsOn};
ghost use Rattle.xp_subs.specs.Tables.{Tables, line_count};

use crate::shared::Shared;
use crate::signals::Signals;
use std::sync::Wait;
use xp_charge::Record;
use xp_lock::{Look, ReloadRefusal};
use xp_seats::{Name, Recorder};
use xp_sink::{NextSubs, NotInForce, Received, RecordSink};

/// The way of charging records: the recorder that takes them from the exchange, and the sink that they are handed to.
#[derive(Drop)]
pub struct RecordPath<N: Name, S: RecordSink> {
    pub recorder: Recorder<N>,
    pub sink: S,
}

/// Hands charging records to the sink as calls end, until all lines have ended, and lets the sink do what it does from time to
/// time. Where the sink answers that serving stops, the lines are asked to stop. As it was handed all that are wanted, the exchange is
/// halted. Records that no memory could be had for at the
/// end stay with the exchange.
pub(crate) fn keep_recording<N: Name, S: RecordSink, R: Wait>(
    shared: &Shared<'_, N, R>,
    path: RecordPath<N, S>,
) -> RecordPath<N, S>
    requires lines { S.lines path.sink ≡ line_count N.subs }
    requires tables { S.tables path.sink ≡ N.subs }
    requires received { S.received path.sink ≡ path.recorder.received }
    ensures { HandsOn S.received S.keeps path.recorder path.sink result.recorder result.sink }
{
    let signals = shared.signals;
    let RecordPath { recorder, sink } = path;
    let mut recorder = recorder;
    let mut sink = sink;
    for _ in shared.rt.forever() {
        let ended = signals.all_ended();
        let handed = hand_over(shared, &mut recorder, &mut sink);
        if signals.records_handed_on(recorder.received_count()) {
            shared.exchange.halt(shared.rt);
        }
        stop_at(signals, handed);
        let ticked = sink.tick();
        stop_at(signals, ticked);
        if ended {
            return RecordPath { recorder, sink };
        }
        signals.wait(shared.rt);
    }
    unreachable!()
}

/// Asks the lines to stop, where the sink answered that serving stops.
fn stop_at(signals: &Signals, received: Received) {
    match received {
        Received::GoesOn => {}
        Received::Stops => signals.ask_to_stop(),
    }
}

/// Hands the records of the calls that have ended since to the sink. Where it hands out other subscriptions, they come into force
/// if they can. Else it sees the exchange, where it wants to. If no memory can be had for the records, they wait.
fn hand_over<N: Name, S: RecordSink, R: Wait>(
    shared: &Shared<'_, N, R>,
    recorder: &mut Recorder<N>,
    sink: &mut S,
) -> Received
    requires lines { S.lines sink.old ≡ line_count N.subs }
    requires tables { S.tables sink.old ≡ N.subs }
    requires received { S.received sink.old ≡ recorder.old.received }
    ensures lines { S.lines sink.new ≡ S.lines sink.old }
    ensures tables { S.tables sink.new ≡ S.tables sink.old }
    ensures hands { HandsOn S.received S.keeps recorder.old sink.old recorder.new sink.new }
{
    match sink.next_subs() {
        Some(next) => reload(shared, recorder, sink, next),
        None => hand_on(shared, recorder, sink),
    }
}

/// Puts these subscriptions, which the sink handed out, into force. The sink is handed the records of the calls that ended before,
/// also as lines were given up, and then is told that. Where they are refused it is told why, and the records are handed on as ever.
fn reload<N: Name, S: RecordSink, R: Wait>(
    shared: &Shared<'_, N, R>,
    recorder: &mut Recorder<N>,
    sink: &mut S,
    next: NextSubs,
) -> Received
    requires handed { S.has_handed sink.old next.subs }
    requires lines { S.lines sink.old ≡ line_count N.subs }
    requires tables { S.tables sink.old ≡ N.subs }
    requires received { S.received sink.old ≡ recorder.old.received }
    ensures lines { S.lines sink.new ≡ S.lines sink.old }
    ensures tables { S.tables sink.new ≡ S.tables sink.old }
    ensures hands { HandsOn S.received S.keeps recorder.old sink.old recorder.new sink.new }
{
    let NextSubs { subs, moment } = next;
    // The lock is free again before the sink is given anything.
    let outcome = shared
        .exchange
        .lock(shared.rt)
        .reload(shared.rt, recorder, subs, moment);
    match outcome {
        Ok(records) => {
            let received = give(sink, records);
            sink.reloaded(Ok(()));
            received
        }
        Err(refusal) => {
            sink.reloaded(Err(reason_of(refusal)));
            hand_on(shared, recorder, sink)
        }
    }
}

/// What a sink is told where subscriptions were refused.
fn reason_of(refusal: ReloadRefusal) -> NotInForce {
    match refusal {
        ReloadRefusal::Halted => NotInForce::Halted,
        ReloadRefusal::Refused(fault) => NotInForce::Refused(fault),
        ReloadRefusal::Memory => NotInForce::Memory,
    }
}

/// Hands the records of the calls that have ended since to the sink, and lets it see the exchange where it wants that.
fn hand_on<N: Name, S: RecordSink, R: Wait>(
    shared: &Shared<'_, N, R>,
    recorder: &mut Recorder<N>,
    sink: &mut S,
) -> Received
    requires lines { S.lines sink.old ≡ line_count N.subs }
    requires tables { S.tables sink.old ≡ N.subs }
    requires received { S.received sink.old ≡ recorder.old.received }
    ensures lines { S.lines sink.new ≡ S.lines sink.old }
    ensures tables { S.tables sink.new ≡ S.tables sink.old }
    ensures hands { HandsOn S.received S.keeps recorder.old sink.old recorder.new sink.new }
{
    if sink.wants_look() {
        show(shared, recorder, sink)
    } else {
        hand_records(shared, recorder, sink)
    }
}

/// Hands the records of the calls that have ended since to the sink.
fn hand_records<N: Name, S: RecordSink, R: Wait>(
    shared: &Shared<'_, N, R>,
    recorder: &mut Recorder<N>,
    sink: &mut S,
) -> Received
    requires lines { S.lines sink.old ≡ line_count N.subs }
    requires tables { S.tables sink.old ≡ N.subs }
    requires received { S.received sink.old ≡ recorder.old.received }
    ensures lines { S.lines sink.new ≡ S.lines sink.old }
    ensures tables { S.tables sink.new ≡ S.tables sink.old }
    ensures hands { HandsOn S.received S.keeps recorder.old sink.old recorder.new sink.new }
{
    let Ok(records) = shared.exchange.lock(shared.rt).take_records(recorder) else {
        return Received::GoesOn;
    };
    give(sink, records)
}

/// Hands the records of the calls that have ended since to the sink, and then shows it the exchange as it was when they were taken.
fn show<N: Name, S: RecordSink, R: Wait>(
    shared: &Shared<'_, N, R>,
    recorder: &mut Recorder<N>,
    sink: &mut S,
) -> Received
    requires lines { S.lines sink.old ≡ line_count N.subs }
    requires tables { S.tables sink.old ≡ N.subs }
    requires received { S.received sink.old ≡ recorder.old.received }
    ensures lines { S.lines sink.new ≡ S.lines sink.old }
    ensures tables { S.tables sink.new ≡ S.tables sink.old }
    ensures hands { HandsOn S.received S.keeps recorder.old sink.old recorder.new sink.new }
{
    let Ok(look) = shared.exchange.lock(shared.rt).look(shared.alloc, recorder) else {
        return Received::GoesOn;
    };
    let Look { records, view } = look;
    let received = give(sink, records);
    sink.see(view);
    received
}

/// Gives records to the sink, if there are any.
fn give<S: RecordSink>(sink: &mut S, records: Vec<Record>) -> Received
    requires { All (HasLines (S.lines sink.old)) records.items }
    ensures received { S.received sink.new ≡ S.received sink.old ++ records.items }
    ensures lines { S.lines sink.new ≡ S.lines sink.old }
    ensures tables { S.tables sink.new ≡ S.tables sink.old }
    ensures handed { (next : Tables) → S.has_handed sink.old next → S.has_handed sink.new next }
    ensures keeps { S.keeps sink.old sink.new }
{
    if records.is_empty() {
        return Received::GoesOn;
    }
    sink.receive(records)
}
