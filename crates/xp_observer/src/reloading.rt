//! Where the console asks for a reload, and is told what became of it.

ghost use Rattle.std.specs.Prelude.{◌≡◌, true};

use crate::board_name::BoardName;
use std::marker::PhantomData;
use std::sync::Mutex;
use std::sync::atomic::Ordering::SeqCst;
use std::sync::atomic::{AtomicIn, Rule};
use xp_console::ReloadAnswer;

/// The word where nothing is asked for: what was asked for is answered, or withdrawn.
const NOTHING: u64 = 0;

/// The word where a reload is asked for.
const ASKED: u64 = 1;

/// The word where what was asked for is taken, and not answered yet.
const TAKEN: u64 = 2;

/// The word where nothing is answered any more.
const CLOSED: u64 = 3;

/// What became of a reload that was asked for.
#[derive(Drop)]
pub enum ReloadOutcome {
    /// The subscriptions that the file has now are in force. The text says what changed.
    Done(String),
    /// The subscriptions in force stay. The text says why.
    Refused(String),
}

impl ReloadOutcome {
    /// What the console tells of it.
    pub(crate) fn into_answer(self) -> ReloadAnswer {
        match self {
            ReloadOutcome::Done(text) => ReloadAnswer::Done(text),
            ReloadOutcome::Refused(text) => ReloadAnswer::Refused(text),
        }
    }
}

/// The rule of the word that asks for a reload: it is 1 only where one may be asked for.
struct ReloadWord<B: BoardName> {
    board: PhantomData<B>,
}

impl<B: BoardName> Rule for ReloadWord<B> {
    ghost use Rattle.std.specs.Prelude.{◌≡◌};

    ghost invariant = { λ word. word ≡ 1 → B.may_reload };
}

/// A reload that is asked for, one at a time, and what became of it. One thread asks, and another one takes and answers.
#[derive(Drop)]
pub(crate) struct ReloadRequest<B: BoardName> {
    word: AtomicIn<ReloadWord<B>>,
    /// Written only while the word is `TAKEN`, and read only while it is `NOTHING`.
    outcome: Mutex<Option<ReloadOutcome>>,
}

impl<B: BoardName> ReloadRequest<B> {
    /// Nothing is asked for.
    pub(crate) fn new() -> ReloadRequest<B> {
        ReloadRequest {
            word: AtomicIn::new(NOTHING),
            outcome: Mutex::new(None),
        }
    }

    /// Asks for a reload. Whether it is asked for: otherwise the last one is not answered yet.
    pub(crate) fn ask(&self) -> bool
        requires { B.may_reload }
    {
        // What is left of one that was answered too late is dropped.
        let _ = self.take_outcome();
        self.word
            .compare_exchange(NOTHING, ASKED, SeqCst, SeqCst)
            .is_ok()
    }

    /// Whether a reload is asked for. It is taken then, and to be answered.
    pub(crate) fn take(&self) -> bool
        ensures { result ≡ true → B.may_reload }
    {
        match self.word.compare_exchange(ASKED, TAKEN, SeqCst, SeqCst) {
            Ok(_) => true,
            Err(_) => false,
        }
    }

    /// Answers the reload that was taken, if one was.
    pub(crate) fn answer(&self, outcome: ReloadOutcome) {
        if self.word.load(SeqCst) != TAKEN {
            return;
        }
        if let Some(mut place) = self.outcome.try_lock() {
            *place = Some(outcome);
        }
        self.word.store(NOTHING, SeqCst);
    }

    /// Takes what became of the reload, once it is answered.
    pub(crate) fn take_outcome(&self) -> Option<ReloadOutcome> {
        if self.word.load(SeqCst) != NOTHING {
            return None;
        }
        self.outcome.try_lock()?.take()
    }

    /// Answers nothing from now on.
    pub(crate) fn close(&self) {
        self.word.store(CLOSED, SeqCst);
    }

    /// Whether nothing is answered any more.
    pub(crate) fn is_closed(&self) -> bool {
        self.word.load(SeqCst) == CLOSED
    }

    /// Withdraws the reload, if it was not taken yet.
    pub(crate) fn withdraw(&self) {
        let _ = self.word.compare_exchange(ASKED, NOTHING, SeqCst, SeqCst);
    }
}
