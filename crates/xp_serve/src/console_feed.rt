//! What a console is fed with.

ghost use Rattle.std.specs.Prelude.{◌≡◌, OnOk, true};
ghost use Rattle.xp_sink.specs.InForce.{IsInForce};
ghost use Rattle.xp_sink.specs.Seen.{IsSeenOf};

use std::marker::PhantomData;
use xp_charge::Record;
use xp_sink::ShownExchange;
use xp_subs::Subs;
use xp_tcp::Notice;
use xp_view::ExchangeView;

/// What feeds a console that shows the exchange. No call of it waits.
pub trait ConsoleFeed: Drop {
    ghost use Rattle.xp_subs.specs.Tables.{Tables};

    // The subscriptions of the exchange that it is shown.
    ghost tables: { Tables };

    // What holds where the console asks the exchange to stop.
    ghost may_stop: { Type 0 };

    // What holds where the console asks for other subscriptions.
    ghost may_reload: { Type 0 };

    /// Takes note of what became of a line's connections.
    fn note(&mut self, notice: &Notice);

    /// Takes note of the records of calls that have ended.
    fn note_ended(&mut self, records: &[Record]);

    /// Whether the console asks to be shown the exchange.
    fn wants_look(&self) -> bool;

    /// Shows what can be seen of the exchange at this moment, in seconds since 1970, where so many records wait to be kept.
    fn show(&mut self, now: u64, view: &ExchangeView, waiting: usize)
        requires seen { IsSeenOf tables view.now };

    /// Whether the console asks the exchange to stop.
    fn is_asked_to_stop(&self) -> bool
        ensures { result ≡ true → may_stop };

    /// Takes the console's request for other subscriptions, if there is one. Whoever takes it answers it.
    fn takes_reload(&mut self) -> bool
        ensures { result ≡ true → may_reload };

    /// Tells the console what became of a request for other subscriptions, whoever asked for them: what they change, or why they
    /// are not in force. Lines and stations are shown by those in force from now on.
    fn reloaded(&mut self, told: Result<String, String>, in_force: &Subs)
        requires { OnOk told (IsInForce tables in_force.now) };

    /// Takes no further request.
    fn end(&mut self);
}

/// There is no console of the exchange that N names.
#[derive(Drop)]
pub struct NoConsole<N: ShownExchange> {
    exchange: PhantomData<N>,
}

impl<N: ShownExchange> Default for NoConsole<N> {
    fn default() -> NoConsole<N> {
        NoConsole {
            exchange: PhantomData,
        }
    }
}

impl<N: ShownExchange> ConsoleFeed for NoConsole<N> {
    ghost tables = { N.tables };

    ghost may_stop = { ⊥ };

    ghost may_reload = { ⊥ };

    fn note(&mut self, _notice: &Notice) {}

    fn note_ended(&mut self, _records: &[Record]) {}

    fn wants_look(&self) -> bool {
        false
    }

    fn show(&mut self, _now: u64, _view: &ExchangeView, _waiting: usize) {}

    fn is_asked_to_stop(&self) -> bool {
        false
    }

    fn takes_reload(&mut self) -> bool {
        false
    }

    fn reloaded(&mut self, _told: Result<String, String>, _in_force: &Subs) {}

    fn end(&mut self) {}
}
