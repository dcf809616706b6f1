//! A watch, beside which the live calls are kept in a file.

ghost use Rattle.std.specs.Prelude.{◌≡◌, IfSome};

use crate::attending::Watch;
use crate::offered::OfferedSubs;
use std::marker::Model;
use std::sync::Wait;
use xp_charge::Record;
use xp_live::LiveKeeper;
use xp_sink::{NotInForce, Received};
use xp_subs::Subs;
use xp_view::ExchangeView;

/// A watch, and what keeps the live calls, if anything does.
#[derive(Drop)]
pub struct LiveWatch<T: Watch, R: Wait> {
    watch: T,
    live: Option<LiveKeeper<R>>,
    /// The subscriptions that were handed out last, by which live calls are told once they are in force.
    names: Option<Subs>,
}

impl<T: Watch, R: Wait> Model for LiveWatch<T, R> {
    ghost use Rattle.std.specs.Prelude.{◌≡◌, IfSome};

    ghost Value = { T };

    ghost view = { λ watch. watch.watch };

    ghost invariant = { λ watch. IfSome watch.live (λ live. live.opening ≡ T.tables) };
}

impl<T: Watch, R: Wait> LiveWatch<T, R> {
    /// The watch, and what keeps the live calls of the exchange that it sees.
    pub fn new(watch: T, live: Option<LiveKeeper<R>>) -> LiveWatch<T, R>
        requires { IfSome live (λ live. live.opening ≡ T.tables) }
    {
        LiveWatch {
            watch,
            live,
            names: None,
        }
    }
}

impl<T: Watch, R: Wait + Drop> LiveWatch<T, R> {
    /// Tells live calls by these subscriptions from now on.
    fn rename(&mut self, names: Subs)
        ensures { self.new ≡ self.old }
    {
        if let Some(live) = &mut self.live {
            live.rename(names);
        }
    }
}

impl<T: Watch, R: Wait + Drop> Watch for LiveWatch<T, R> {
    ghost tables = { T.tables };

    ghost has_handed = { λ watch. T.has_handed watch };

    fn look(&mut self, waiting: usize) -> Received {
        if let Some(live) = &mut self.live {
            live.look(waiting);
        }
        self.watch.look(waiting)
    }

    fn note_ended(&mut self, records: &[Record]) {
        if let Some(live) = &mut self.live {
            live.note_ended(records);
        }
        self.watch.note_ended(records);
    }

    fn wants_look(&self) -> bool {
        let is_wanted = match &self.live {
            Some(live) => live.wants_look(),
            None => false,
        };
        is_wanted || self.watch.wants_look()
    }

    fn see(&mut self, view: &ExchangeView, waiting: usize) {
        if let Some(live) = &mut self.live {
            live.see(view);
        }
        if self.watch.wants_look() {
            self.watch.see(view, waiting);
        }
    }

    fn next_subs(&mut self) -> Option<OfferedSubs> {
        let OfferedSubs { next, names, live } = self.watch.next_subs()?;
        self.names = live;
        Some(OfferedSubs {
            next,
            names,
            live: None,
        })
    }

    fn reloaded(&mut self, outcome: Result<(), NotInForce>) {
        self.watch.reloaded(outcome);
        if let (Ok(()), Some(names)) = (outcome, self.names.take()) {
            self.rename(names);
        }
    }

    fn end(&mut self, is_kept: bool) {
        if let Some(live) = &mut self.live {
            live.end(is_kept);
        }
        self.watch.end(is_kept);
    }
}
