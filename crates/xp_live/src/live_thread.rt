//! Writing the file of live calls on a thread of its own.

use crate::kept_text::KeptText;
use crate::live_file::WholeFile;
use log::Log;
use std::alloc::{AllocError, Global};
use std::sync::atomic::AtomicBool;
use std::sync::atomic::Ordering::SeqCst;
use std::sync::{Arc, Mutex, Wait};
use std::thread;
use std::thread::{Parker, Threads};
use std::time::Duration;
use xp_clock::WallClock;
use xp_keeping::OperatorLog;

/// For how long the thread waits at most between two looks for a text, in milliseconds.
const PATIENCE: u64 = 100;

/// After so many seconds a write that failed is tried again.
const SECONDS_TO_RETRY: u64 = 1;

/// How often the thread is looked at as serving ends: a hundred times a second, for two seconds. Then it is given up.
const MOST_LOOKS: usize = 200;

/// How often the last text is put, as serving ends, where the thread takes another one.
const MOST_TRIES: usize = 100;

/// For how long it is waited between two of these looks, in milliseconds.
const PATIENCE_AT_END: u64 = 10;

/// What the thread that writes the file and the one that makes its text tell each other.
#[derive(Drop)]
struct LiveSignal {
    /// The text that is to be written next. A newer one takes its place.
    newest: Mutex<Option<KeptText>>,
    /// Whether no further text comes.
    is_over: AtomicBool,
    has_ended: AtomicBool,
    writing: Parker,
    ending: Parker,
}

/// A thread that writes the newest text into the file of live calls, so that nothing else waits for its disk. Where that fails, it is
/// told once, tried again each second, and serving goes on.
#[derive(Drop)]
pub struct LiveThread<R: Wait> {
    rt: R,
    signal: Arc<LiveSignal>,
}

impl<R: Threads + Wait + Copy + Drop + Send + 'static> LiveThread<R> {
    /// Starts the thread.
    ///
    /// # Errors
    ///
    /// `AllocError` if an allocation fails, or the thread cannot be started.
    pub fn start<F: WholeFile + Send + 'static, L: Log + Drop + Send + 'static>(
        rt: R,
        alloc: Global,
        file: F,
        clock: WallClock,
        log: OperatorLog<L>,
    ) -> Result<LiveThread<R>, AllocError> {
        let signal = LiveSignal {
            newest: Mutex::new(None),
            is_over: AtomicBool::new(false),
            has_ended: AtomicBool::new(false),
            writing: Parker::new(),
            ending: Parker::new(),
        };
        let signal = Arc::new(alloc, signal)?;
        let theirs = Arc::try_clone(&signal)?;
        let writing = LiveWriting {
            file,
            text: None,
            retry_at: None,
            clock,
            log,
        };
        // A thread that is given up is not waited for.
        let _thread = thread::spawn(&rt, move || writing.run(&rt, &theirs))?;
        Ok(LiveThread { rt, signal })
    }
}

impl<R: Wait> LiveThread<R> {
    /// Has the thread write this text next. It comes back where the thread takes another one at this moment.
    pub fn put(&self, text: KeptText) -> Option<KeptText> {
        let Some(mut newest) = self.signal.newest.try_lock() else {
            return Some(text);
        };
        *newest = Some(text);
        self.signal.writing.unpark();
        None
    }

    /// Has the thread write this text next, also where it takes another one at this moment.
    pub fn put_last(&self, text: KeptText) {
        let mut text = Some(text);
        for _try in 0..MOST_TRIES {
            let Some(next) = text.take() else {
                return;
            };
            text = self.put(next);
        }
    }

    /// Tells that no further text comes, and waits until the last one is written, for two seconds at most.
    pub fn end(&self) {
        self.signal.is_over.store(true, SeqCst);
        self.signal.writing.unpark();
        for _look in 0..MOST_LOOKS {
            if self.signal.has_ended.load(SeqCst) {
                return;
            }
            self.signal
                .ending
                .park_timeout(&self.rt, Duration::from_millis(PATIENCE_AT_END));
        }
    }
}

/// What the thread works with.
#[derive(Drop)]
struct LiveWriting<F: WholeFile, L: Log> {
    file: F,
    /// What the file does not hold yet.
    text: Option<KeptText>,
    /// From which second on the file is tried again, where the last write failed.
    retry_at: Option<u64>,
    clock: WallClock,
    log: OperatorLog<L>,
}

impl<F: WholeFile, L: Log + Drop> LiveWriting<F, L> {
    /// Writes the newest text, again and again, until no further one comes.
    fn run<R: Wait>(self, rt: &R, signal: &LiveSignal) {
        let mut writing = self;
        for _ in rt.forever() {
            let is_over = signal.is_over.load(SeqCst);
            writing.take(signal);
            writing.write();
            if is_over {
                break;
            }
            signal
                .writing
                .park_timeout(rt, Duration::from_millis(PATIENCE));
        }
        signal.has_ended.store(true, SeqCst);
        signal.ending.unpark();
    }

    /// Takes the newest text, if there is one.
    fn take(&mut self, signal: &LiveSignal) {
        let newest = match signal.newest.try_lock() {
            Some(mut place) => place.take(),
            None => None,
        };
        if newest.is_some() {
            self.text = newest;
        }
    }

    /// Writes what the file does not hold yet, unless it failed within this second.
    fn write(&mut self) {
        let Some(text) = &self.text else {
            return;
        };
        let now = self.clock.now();
        if self.retry_at.is_some_and(|at| now < at) {
            return;
        }
        match self.file.replace(text) {
            Ok(()) => {
                self.text = None;
                if self.retry_at.take().is_some() {
                    self.log.warn(now, "live: live calls are kept again");
                }
            }
            Err(error) => {
                if self.retry_at.is_none() {
                    self.log.warn(now, format_args!("live: live calls are not kept: {error}"));
                }
                self.retry_at = Some(now.saturating_add(SECONDS_TO_RETRY));
            }
        }
    }
}
