//! What goes on beside the lines while they are served.

ghost use Rattle.std.specs.Prelude.{◌≡◌, [], IfSome, OnOk};
ghost use Rattle.xp_sink.specs.InForce.{IsInForce};
ghost use Rattle.xp_sink.specs.Seen.{IsSeenOf};
ghost use Rattle.xp_serve.specs.Serving.{Serves};

use crate::offered::OfferedSubs;
use crate::serving::{ServeEnd, ServingTerms, serve};
use std::alloc::Global;
use std::net::{Net, TcpListener, TcpStream};
use std::sync::Wait;
use std::thread::Threads;
use xp_charge::Record;
use xp_keeping::{KeepFault, RecordKeeper};
use xp_sink::{NextSubs, NotInForce, Received, RecordSink};
use xp_subs::Subs;
use xp_view::ExchangeView;

/// What is looked at again and again while the lines are served.
pub trait Watch: Drop {
    ghost use Rattle.xp_subs.specs.Tables.{Tables};

    // The subscriptions with which the exchange was opened that it sees.
    ghost tables: { Tables };

    // It has handed out these subscriptions last, to come into force.
    ghost has_handed: { Self → Tables → Type 0 };

    /// Looks once, and does not wait, where so many records wait to be kept. It is called at least ten times a second, but not any
    /// more once the keeper of the records asks for a stop.
    fn look(&mut self, waiting: usize) -> Received;

    /// Takes note of the records of calls that have ended, before they are given to the keeper.
    fn note_ended(&mut self, records: &[Record])
        ensures { (next : Tables) → has_handed self.old next → has_handed self.new next };

    /// Whether it wants to see the exchange now.
    fn wants_look(&self) -> bool;

    /// Takes what can be seen of the exchange, and how many records wait to be kept.
    fn see(&mut self, view: &ExchangeView, waiting: usize)
        requires seen { IsSeenOf tables view.now };

    /// Hands out other subscriptions that are to come into force now, if an operator asks for that and they can be had. It may read
    /// files.
    fn next_subs(&mut self) -> Option<OfferedSubs>
        ensures handed { IfSome result (λ offered. has_handed self.new offered.next.subs) }
        ensures names { IfSome result (λ offered. offered.names ≡ offered.next.subs) };

    /// Is told what became of the subscriptions that it handed out last.
    fn reloaded(&mut self, outcome: Result<(), NotInForce>)
        requires { OnOk outcome ((next : Tables) × has_handed self.old next × IsInForce tables next) };

    /// Looks for the last time: all lines have ended, and all records are kept, or not.
    fn end(&mut self, is_kept: bool);
}

/// A keeper of charging records, and what is looked at beside it.
#[derive(Drop)]
pub struct Attending<K: RecordKeeper, W: Watch> {
    keeper: K,
    watch: W,
    /// The subscriptions that were handed out last, by which the keeper tells records once they are in force.
    names: Option<Subs>,
}

impl<K: RecordKeeper, W: Watch> Attending<K, W> {
    /// This keeper, and this watch beside it.
    pub fn new(keeper: K, watch: W) -> Attending<K, W>
        ensures { result.keeper ≡ keeper }
    {
        Attending {
            keeper,
            watch,
            names: None,
        }
    }

    /// Tells the keeper where serving stops, and passes that on.
    fn pass_on(&mut self, received: Received) -> Received
        ensures received { K.received self.new.keeper ≡ K.received self.old.keeper }
        ensures lines { K.lines self.new.keeper ≡ K.lines self.old.keeper }
        ensures named { K.named_by self.new.keeper ≡ K.named_by self.old.keeper }
        ensures watch { self.new.watch ≡ self.old.watch }
        ensures names { self.new.names ≡ self.old.names }
        ensures keeps { K.keeps self.old.keeper self.new.keeper }
    {
        match received {
            Received::GoesOn => {}
            Received::Stops => self.keeper.stop(),
        }
        received
    }
}

impl<K: RecordKeeper, W: Watch> RecordSink for Attending<K, W> {
    ghost use Rattle.std.specs.Prelude.{◌≡◌, Some};

    ghost received = { λ a. K.received a.keeper };

    ghost lines = { λ a. K.lines a.keeper };

    ghost tables = { λ _. W.tables };

    ghost named_by = { λ a. K.named_by a.keeper };

    ghost has_handed = { λ a next. (a.names ≡ Some next) × W.has_handed a.watch next };

    ghost keeps = { λ a b. K.keeps a.keeper b.keeper };

    fn receive(&mut self, records: Vec<Record>) -> Received {
        self.watch.note_ended(&records);
        let received = self.keeper.receive(records);
        self.pass_on(received)
    }

    fn tick(&mut self) -> Received {
        match self.keeper.tick() {
            Received::GoesOn => {
                let received = self.watch.look(self.keeper.waiting());
                self.pass_on(received)
            }
            Received::Stops => self.pass_on(Received::Stops),
        }
    }

    fn wants_look(&self) -> bool {
        self.watch.wants_look()
    }

    fn see(&mut self, view: ExchangeView) {
        self.watch.see(&view, self.keeper.waiting());
    }

    fn next_subs(&mut self) -> Option<NextSubs> {
        let OfferedSubs {
            next,
            names,
            live: _,
        } = self.watch.next_subs()?;
        self.names = Some(names);
        Some(next)
    }

    fn reloaded(&mut self, outcome: Result<(), NotInForce>) {
        let Some(names) = self.names.take() else {
            return;
        };
        if outcome.is_ok() {
            self.keeper.rename(names);
        }
        self.watch.reloaded(outcome);
    }

    ghost keeps_itself = { λ a. K.keeps_itself a.keeper };

    ghost keeps_on = { λ a b c first second. K.keeps_on a.keeper b.keeper c.keeper first second };
}

impl<K: RecordKeeper, W: Watch> RecordKeeper for Attending<K, W> {
    ghost calls = { λ a. K.calls a.keeper };

    ghost kept = { λ a calls result. K.kept a.keeper calls result };

    ghost has_lines = { λ a. K.has_lines a.keeper };

    ghost keeps_lines = { λ a b same. K.keeps_lines a.keeper b.keeper same };

    ghost are_received = { λ a. K.are_received a.keeper };

    fn waiting(&self) -> usize {
        self.keeper.waiting()
    }

    fn rename(&mut self, subs: Subs) {
        self.keeper.rename(subs);
    }

    fn stop(&mut self) {
        self.keeper.stop();
    }

    fn finish(&mut self, rest: &[Record]) -> Result<(), KeepFault> {
        self.watch.note_ended(rest);
        let kept = self.keeper.finish(rest);
        self.watch.end(kept.is_ok());
        kept
    }
}

/// Serves the lines by [`serve`] with a keeper of their charging records and what is looked at beside it, and gives the keeper back. What
/// it sees is the exchange of these subscriptions.
pub fn serve_attended<
    R: Net<Listener = TcpListener, Stream = TcpStream> + Threads + Wait + Sync,
    K: RecordKeeper,
    W: Watch,
>(rt: &R, alloc: Global, subs: Subs, terms: ServingTerms, attending: Attending<K, W>) -> ServeEnd<K>
    requires names { K.named_by attending.keeper ≡ subs }
    requires tables { W.tables ≡ subs }
    requires new { K.received attending.keeper ≡ [] }
    ensures { Serves K.kept K.keeps subs attending.keeper result.keeper result.outcome }
{
    let ServeEnd { keeper, outcome } = serve(rt, alloc, subs, terms, attending);
    let Attending {
        keeper,
        watch: _,
        names: _,
    } = keeper;
    ServeEnd { keeper, outcome }
}
