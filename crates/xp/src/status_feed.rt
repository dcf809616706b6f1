//! What feeds the console of the exchange that is served.

ghost use Rattle.std.specs.Prelude.{◌≡◌};
ghost use Rattle.xp_sink.specs.InForce.{IsInForce};

use std::alloc::{AllocError, Global};
use std::sync::Arc;
use xp_causes::Refusal;
use xp_charge::Record;
use xp_clock::WallClock;
use xp_observer::{BoardName, Naming, Observer, ReloadOutcome, RunBegin, StatusBoard, Traffic};
use xp_serve::ConsoleFeed;
use xp_subs::Subs;
use xp_tcp::{Notice, Notices};
use xp_view::ExchangeView;

/// Feeds the console: it shows what can be seen of the exchange each time that the console asks for it, and never else. `B` names the
/// board, and the exchange that it shows.
#[derive(Drop)]
pub(crate) struct StatusFeed<B: BoardName> {
    alloc: Global,
    observer: Observer<B>,
    board: Arc<StatusBoard<B>>,
    notices: Arc<Notices>,
    clock: WallClock,
}

impl<B: BoardName> StatusFeed<B> {
    /// The feed of the console over this board, for an exchange of these subscriptions that begins to serve now, where so many calls of
    /// the run before got a partial record. The notices count the octets that its connections move.
    ///
    /// # Errors
    ///
    /// `AllocError` if an allocation fails.
    pub(crate) fn new(
        alloc: Global,
        subs: &Subs,
        clock: WallClock,
        board: Arc<StatusBoard<B>>,
        notices: Arc<Notices>,
        partial_records: u64,
    ) -> Result<StatusFeed<B>, AllocError>
        requires { B.tables ≡ subs.now }
    {
        let begin = RunBegin {
            started: clock.seconds(),
            partial_records,
        };
        Ok(StatusFeed {
            alloc,
            observer: Observer::new(alloc, subs, begin)?,
            board,
            notices,
            clock,
        })
    }
}

impl<B: BoardName> ConsoleFeed for StatusFeed<B> {
    ghost tables = { B.tables };

    ghost may_stop = { B.may_stop };

    ghost may_reload = { B.may_reload };

    fn note(&mut self, notice: &Notice) {
        match notice {
            Notice::Up { line, peer } => self.observer.came_up(*line, *peer),
            Notice::Connected { line, peer } => self.observer.router_connected(*line, *peer),
            Notice::NotConnected { line, .. } => {
                let now = self.clock.now();
                self.observer.router_failed(*line, now);
            }
            Notice::Down { line, .. } | Notice::Closed { line } => self.observer.went_down(*line),
            Notice::NoCaller { .. } => self
                .observer
                .router_refused(Refusal::CALLER_NOT_KNOWN.cause),
            Notice::NoFreeLine { .. } => self.observer.router_refused(Refusal::NUMBER_BUSY.cause),
            _ => {}
        }
    }

    fn note_ended(&mut self, records: &[Record]) {
        self.observer.note_ended(records);
    }

    fn wants_look(&self) -> bool {
        self.board.is_wanted()
    }

    fn show(&mut self, now: u64, view: &ExchangeView, waiting: usize) {
        let (received, sent) = self.notices.traffic();
        let traffic = Traffic { received, sent };
        match self
            .observer
            .status(self.alloc, now, view, waiting, traffic)
        {
            Ok(status) => self.board.put(Some(status)),
            Err(_) => self.board.put(None),
        }
    }

    fn is_asked_to_stop(&self) -> bool {
        self.board.is_asked_to_stop()
    }

    fn takes_reload(&mut self) -> bool {
        self.board.take_reload_request()
    }

    fn reloaded(&mut self, told: Result<String, String>, in_force: &Subs) {
        match told {
            Ok(text) => {
                self.rename(in_force);
                self.board.answer_reload(ReloadOutcome::Done(text));
            }
            Err(text) => {
                self.observer.reload_refused();
                self.board.answer_reload(ReloadOutcome::Refused(text));
            }
        }
    }

    fn end(&mut self) {
        self.board.close();
    }
}

impl<B: BoardName> StatusFeed<B> {
    /// Shows lines and stations by these subscriptions from now on. Where there is no memory for their names, they are shown as before.
    fn rename(&mut self, in_force: &Subs)
        requires { IsInForce B.tables in_force.now }
    {
        let now = self.clock.now();
        if let Ok(naming) = Naming::of(self.alloc, in_force) {
            self.observer.rename(naming, now);
        }
    }
}
