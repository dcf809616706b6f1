//! Where the charging records of an exchange go as calls end, and who sees it meanwhile.

ghost use Rattle.std.specs.Prelude.{◌≡◌, ◌++◌, All, IfSome, OnErr, OnOk};
ghost use Rattle.xp_charge.specs.Lines.{HasLines};
ghost use Rattle.xp_sink.specs.InForce.{AreInForce};
ghost use Rattle.xp_sink.specs.Seen.{IsSeen};
ghost use Rattle.xp_subs.specs.Tables.{Tables, line_count};

use crate::next_subs::{NextSubs, NotInForce};
use xp_charge::Record;
use xp_view::ExchangeView;

/// The answer of a sink.
#[derive(Clone, Copy)]
pub enum Received {
    /// Serving goes on.
    GoesOn,
    /// Serving stops: the lines are asked to stop. The sink is still given the records of the calls that end by it.
    Stops,
}

/// Where charging records go as calls end.
pub trait RecordSink: Drop {
    ghost use Rattle.std.specs.Prelude.{ℕ, List};
    ghost use Rattle.xp_charge.specs.declared.record.Record.{Record};
    ghost use Rattle.xp_subs.specs.Tables.{Tables};

    // All records that the sink was given so far.
    ghost received: { Self → List Record };

    // How many lines there are. Each record names lines with lower numbers.
    ghost lines: { Self → ℕ };

    // The subscriptions with which the exchange was opened that the sink is shown.
    ghost tables: { Self → Tables };

    // The subscriptions by which the sink tells the records that it is given.
    ghost named_by: { Self → Tables };

    // The sink has handed out these subscriptions last, to come into force.
    ghost has_handed: { Self → Tables → Type 0 };

    // What stays the same of a sink from one moment to a later one, whatever it is given in between.
    ghost keeps: { Self → Self → Type 0 };

    /// Takes these records, which follow those that it was given before. The thread that calls it serves no line and does not
    /// hold the exchange's lock, so it may wait.
    fn receive(&mut self, records: Vec<Record>) -> Received
        requires lines { All (HasLines (lines self.old)) records.items }
        ensures received { received self.new ≡ received self.old ++ records.items }
        ensures lines { lines self.new ≡ lines self.old }
        ensures tables { tables self.new ≡ tables self.old }
        ensures named { named_by self.new ≡ named_by self.old }
        ensures handed { (next : Tables) → has_handed self.old next → has_handed self.new next }
        ensures keeps { keeps self.old self.new };

    /// Called by the recording thread at least ten times a second, also while no calls end. It may write what waits, and may
    /// ask for a stop.
    fn tick(&mut self) -> Received
        ensures received { received self.new ≡ received self.old }
        ensures lines { lines self.new ≡ lines self.old }
        ensures tables { tables self.new ≡ tables self.old }
        ensures named { named_by self.new ≡ named_by self.old }
        ensures keeps { keeps self.old self.new };

    /// Whether the sink wants to see the exchange now. The recording thread asks at least ten times a second.
    fn wants_look(&self) -> bool;

    /// Takes what can be seen of the exchange, as it was when the records were taken that the sink received last: its charging records
    /// then are those that the sink was given so far. It is called only where the sink wanted that.
    fn see(&mut self, view: ExchangeView)
        requires seen { IsSeen (tables self.old) (received self.old) view }
        ensures received { received self.new ≡ received self.old }
        ensures lines { lines self.new ≡ lines self.old }
        ensures tables { tables self.new ≡ tables self.old }
        ensures named { named_by self.new ≡ named_by self.old }
        ensures keeps { keeps self.old self.new };

    /// Hands out other subscriptions, which are to come into force now, if there are any. The recording thread asks at least ten
    /// times a second. It does not hold the exchange's lock, so the sink may read files.
    fn next_subs(&mut self) -> Option<NextSubs>
        ensures handed { IfSome result (λ next. has_handed self.new next.subs) }
        ensures received { received self.new ≡ received self.old }
        ensures lines { lines self.new ≡ lines self.old }
        ensures tables { tables self.new ≡ tables self.old }
        ensures named { named_by self.new ≡ named_by self.old }
        ensures keeps { keeps self.old self.new };

    /// Is told what became of the subscriptions that the sink handed out last. Where they are in force, it was given the records of the
    /// calls that ended before, also of those that ended as lines were given up: the charging records at that moment are those that it
    /// was given so far, and it tells further ones by the new subscriptions.
    fn reloaded(&mut self, outcome: Result<(), NotInForce>)
        requires lines { lines self.old ≡ line_count (tables self.old) }
        requires in_force { OnOk outcome ((next : Tables) × has_handed self.old next × AreInForce (tables self.old) (received self.old) next) }
        ensures named { OnOk outcome ((next : Tables) → has_handed self.old next → named_by self.new ≡ next) }
        ensures as_before { OnErr outcome (named_by self.new ≡ named_by self.old) }
        ensures received { received self.new ≡ received self.old }
        ensures lines { lines self.new ≡ lines self.old }
        ensures tables { tables self.new ≡ tables self.old }
        ensures keeps { keeps self.old self.new };

    ghost keeps_itself: { (sink : Self) → keeps sink sink };

    ghost keeps_on: { (first second third : Self) → keeps first second → keeps second third → keeps first third };
}
