//! What the console and the thread that sees the exchange tell each other.

ghost use Rattle.std.specs.Prelude.{◌≡◌, IfSome, true};
ghost use Rattle.xp_observer.specs.Shown.{IsStatusOfExchange};

use crate::board_name::BoardName;
use crate::reloading::{ReloadOutcome, ReloadRequest};
use std::alloc::{AllocError, Global};
use std::marker::{Model, PhantomData};
use std::sync::atomic::Ordering::SeqCst;
use std::sync::atomic::{AtomicBool, AtomicIn, Rule};
use std::sync::{Mutex, Wait};
use std::thread::Parker;
use std::time::Duration;
use xp_console::{ExchangeStatus, ReloadAnswer, StatusSource};

/// How often the console looks for a status that it asked for, before it gives up.
const MOST_LOOKS: u32 = 40;

/// How often it looks for what became of a reload, before it gives up.
const MOST_RELOAD_LOOKS: u32 = 200;

/// For how long it waits between two looks at most, in milliseconds.
const PATIENCE: u64 = 50;

/// The rule of the word that asks for a stop: it is 1 only where one may be asked for.
struct StopWord<B: BoardName> {
    board: PhantomData<B>,
}

impl<B: BoardName> Rule for StopWord<B> {
    ghost use Rattle.std.specs.Prelude.{◌≡◌};

    ghost invariant = { λ word. word ≡ 1 → B.may_stop };
}

/// A status that was put on a board.
#[derive(Drop)]
struct PutStatus<B: BoardName> {
    status: ExchangeStatus,
    board: PhantomData<B>,
}

impl<B: BoardName> Model for PutStatus<B> {
    ghost use Rattle.xp_console.specs.declared.status.ExchangeStatus.{ExchangeStatus};
    ghost use Rattle.xp_observer.specs.Shown.{IsStatusOfExchange};

    ghost Value = { ExchangeStatus };

    ghost view = { λ put. put.status };

    ghost invariant = { λ put. IsStatusOfExchange B.tables put.status };
}

impl<B: BoardName> PutStatus<B> {
    fn new(status: ExchangeStatus) -> PutStatus<B>
        requires { IsStatusOfExchange B.tables status }
        ensures { result ≡ status }
    {
        PutStatus {
            status,
            board: PhantomData,
        }
    }

    fn into_status(self) -> ExchangeStatus
        ensures same { result ≡ self }
        ensures shows { IsStatusOfExchange B.tables result }
    {
        let PutStatus { status, board: _ } = self;
        status
    }
}

/// The status, as one that was put on a board, if there is one.
fn put_status<B: BoardName>(status: Option<ExchangeStatus>) -> Option<PutStatus<B>>
    requires { IfSome status (IsStatusOfExchange B.tables) }
{
    let status = status?;
    Some(PutStatus::new(status))
}

/// Where the console asks for a status, a stop or a reload, and is given a status, and what became of the reload.
#[derive(Drop)]
pub struct StatusBoard<B: BoardName> {
    is_wanted: AtomicBool,
    /// 1 where a stop is asked for.
    stop: AtomicIn<StopWord<B>>,
    status: Mutex<Option<PutStatus<B>>>,
    reload: ReloadRequest<B>,
    /// What the console's thread waits on.
    parker: Parker,
}

impl<B: BoardName> StatusBoard<B> {
    /// A board on which nothing is asked for.
    pub fn new() -> StatusBoard<B> {
        StatusBoard {
            is_wanted: AtomicBool::new(false),
            stop: AtomicIn::new(0),
            status: Mutex::new(None),
            reload: ReloadRequest::new(),
            parker: Parker::new(),
        }
    }

    /// Whether a status is asked for.
    pub fn is_wanted(&self) -> bool {
        self.is_wanted.load(SeqCst)
    }

    /// Puts a status for the console, or that none could be made. None is asked for any more.
    pub fn put(&self, status: Option<ExchangeStatus>)
        requires { IfSome status (IsStatusOfExchange B.tables) }
    {
        self.is_wanted.store(false, SeqCst);
        let status = put_status(status);
        if let Some(mut place) = self.status.try_lock() {
            *place = status;
        }
        self.parker.unpark();
    }

    /// Whether the exchange is to stop.
    pub fn is_asked_to_stop(&self) -> bool
        ensures { result ≡ true → B.may_stop }
    {
        self.stop.load(SeqCst) == 1
    }

    /// Asks for a stop.
    fn ask_to_stop(&self)
        requires { B.may_stop }
    {
        self.stop.store(1, SeqCst);
    }

    /// Whether a reload is asked for. It is taken then: whoever takes it tells by `answer_reload` what became of it. Until that the
    /// console is given no other one.
    pub fn take_reload_request(&self) -> bool
        ensures { result ≡ true → B.may_reload }
    {
        self.reload.take()
    }

    /// Tells the console what became of the reload that was taken. Where none was taken, nothing is told.
    pub fn answer_reload(&self, outcome: ReloadOutcome) {
        self.reload.answer(outcome);
        self.parker.unpark();
    }

    /// Answers no reload from now on: whoever waits for one is told that the exchange is busy.
    pub fn close(&self) {
        self.reload.close();
        self.parker.unpark();
    }

    /// Asks for a reload, and waits for what becomes of it, for ten seconds at most. Busy where the last one is not answered yet, or
    /// this one is not answered in that time, or none is answered any more. One that was not taken by then is withdrawn.
    fn reload<R: Wait>(&self, rt: &R) -> ReloadAnswer
        requires { B.may_reload }
    {
        if !self.reload.ask() {
            return ReloadAnswer::Busy;
        }
        for _look in 0..MOST_RELOAD_LOOKS {
            if let Some(outcome) = self.reload.take_outcome() {
                return outcome.into_answer();
            }
            if self.reload.is_closed() {
                return ReloadAnswer::Busy;
            }
            self.wait(rt);
        }
        self.reload.withdraw();
        match self.reload.take_outcome() {
            Some(outcome) => outcome.into_answer(),
            None => ReloadAnswer::Busy,
        }
    }

    /// Takes the status that was put last.
    fn take(&self) -> Option<ExchangeStatus>
        ensures { IfSome result (IsStatusOfExchange B.tables) }
    {
        let put = self.status.try_lock()?.take()?;
        Some(put.into_status())
    }

    /// Asks for a status of this moment: one of before is dropped.
    fn want(&self) {
        self.take();
        self.is_wanted.store(true, SeqCst);
    }

    /// Waits until something is put, for a twentieth of a second at most.
    fn wait<R: Wait>(&self, rt: &R) {
        self.parker
            .park_timeout(rt, Duration::from_millis(PATIENCE));
    }
}

impl<B: BoardName> Default for StatusBoard<B> {
    fn default() -> StatusBoard<B> {
        StatusBoard::new()
    }
}

/// The console's end of a board.
#[derive(Drop)]
pub struct BoardSource<'a, R: Wait, B: BoardName> {
    rt: &'a R,
    board: &'a StatusBoard<B>,
}

impl<'a, R: Wait, B: BoardName> BoardSource<'a, R, B> {
    /// The source over a board.
    pub fn new(rt: &'a R, board: &'a StatusBoard<B>) -> BoardSource<'a, R, B> {
        BoardSource { rt, board }
    }
}

impl<R: Wait, B: BoardName> StatusSource for BoardSource<'_, R, B> {
    ghost use Rattle.std.specs.Prelude.{◌≡◌};
    ghost use Rattle.xp_observer.specs.Shown.{IsStatusOfExchange};

    ghost shows = { λ old status new. IsStatusOfExchange B.tables status × (new ≡ old) };

    ghost stops = { λ old new. new ≡ old };

    ghost reloads = { λ old answer new. new ≡ old };

    ghost may_stop = { B.may_stop };

    ghost granted = { B.granted };

    ghost may_reload = { B.may_reload };

    ghost reload_granted = { B.reload_granted };

    /// Asks for a status, and waits for it, for two seconds at most.
    fn status(&mut self, _alloc: Global) -> Result<ExchangeStatus, AllocError> {
        self.board.want();
        for _look in 0..MOST_LOOKS {
            if let Some(status) = self.board.take() {
                return Ok(status);
            }
            self.board.wait(self.rt);
        }
        Err(AllocError)
    }

    fn stop(&mut self) {
        self.board.ask_to_stop();
    }

    fn reload(&mut self) -> ReloadAnswer {
        self.board.reload(self.rt)
    }
}
