//! Writing the trace of lines on a thread of its own.

use crate::tracing::TraceWriter;
use log::Log;
use std::alloc::{AllocError, Global};
use std::io::Write;
use std::sync::atomic::AtomicBool;
use std::sync::atomic::Ordering::SeqCst;
use std::sync::{Arc, Wait};
use std::thread;
use std::thread::{Parker, Threads};
use std::time::Duration;
use xp_clock::WallClock;
use xp_keeping::OperatorLog;

/// For how long the thread waits between two looks at what waits, in milliseconds.
const PATIENCE: u64 = 50;

/// How often the thread is looked at as serving ends: a hundred times a second, for two seconds. Then it is given up.
const MOST_LOOKS: usize = 200;

/// For how long it is waited between two of these looks, in milliseconds.
const PATIENCE_AT_END: u64 = 10;

/// What the thread that writes a trace and the one that attends to the lines tell each other.
#[derive(Drop)]
struct TraceSignal {
    /// Whether the lines are served, so that the file may be begun.
    is_begun: AtomicBool,
    /// Whether all lines have ended.
    is_over: AtomicBool,
    has_ended: AtomicBool,
    writing: Parker,
    ending: Parker,
}

/// A thread that writes the trace of lines, so that nothing else waits for its file. Where the file fails, that is told once,
/// nothing is traced any more, and serving goes on.
#[derive(Drop)]
pub struct TraceThread<R: Wait> {
    rt: R,
    signal: Arc<TraceSignal>,
}

impl<R: Log + Threads + Wait + Copy + Drop + Send + 'static> TraceThread<R> {
    /// Starts the thread. It writes nothing before `begin`. `has_header` tells whether the file was begun by its header.
    ///
    /// # Errors
    ///
    /// `AllocError` if an allocation fails, or the thread cannot be started.
    pub fn start<W: Write + Drop + Send + 'static>(
        rt: R,
        alloc: Global,
        writer: TraceWriter<W>,
        clock: WallClock,
        log: OperatorLog<R>,
        has_header: bool,
    ) -> Result<TraceThread<R>, AllocError> {
        let signal = TraceSignal {
            is_begun: AtomicBool::new(false),
            is_over: AtomicBool::new(false),
            has_ended: AtomicBool::new(false),
            writing: Parker::new(),
            ending: Parker::new(),
        };
        let signal = Arc::new(alloc, signal)?;
        let theirs = Arc::try_clone(&signal)?;
        let tracing = Tracing {
            writer,
            clock,
            log,
            has_header,
        };
        // A thread that is given up is not waited for.
        let _thread = thread::spawn(&rt, move || tracing.run(&rt, &theirs))?;
        Ok(TraceThread { rt, signal })
    }
}

impl<R: Wait> TraceThread<R> {
    /// Tells that the lines are served.
    pub fn begin(&self) {
        self.signal.is_begun.store(true, SeqCst);
    }

    /// Tells that all lines have ended, and waits until what waited is written, for two seconds at most. Returns whether it is.
    pub fn end(&self) -> bool {
        self.signal.is_over.store(true, SeqCst);
        self.signal.writing.unpark();
        for _look in 0..MOST_LOOKS {
            if self.signal.has_ended.load(SeqCst) {
                return true;
            }
            self.signal
                .ending
                .park_timeout(&self.rt, Duration::from_millis(PATIENCE_AT_END));
        }
        false
    }
}

/// What the thread works with.
#[derive(Drop)]
struct Tracing<W: Write, L: Log> {
    writer: TraceWriter<W>,
    clock: WallClock,
    log: OperatorLog<L>,
    has_header: bool,
}

impl<W: Write + Drop, L: Log + Drop> Tracing<W, L> {
    /// Writes what waits, again and again, until all lines have ended.
    fn run<R: Wait>(self, rt: &R, signal: &TraceSignal) {
        let mut tracing = self;
        for _ in rt.forever() {
            let is_over = signal.is_over.load(SeqCst);
            if signal.is_begun.load(SeqCst) {
                tracing.begin();
                tracing.write_waiting();
            }
            if is_over {
                break;
            }
            signal
                .writing
                .park_timeout(rt, Duration::from_millis(PATIENCE));
        }
        tracing.tell_left_out();
        signal.has_ended.store(true, SeqCst);
        signal.ending.unpark();
    }

    /// Begins the file by its header, if it has none.
    fn begin(&mut self) {
        if self.has_header {
            return;
        }
        self.has_header = true;
        if let Err(fault) = self.writer.begin() {
            self.writer.stop();
            let now = self.clock.now();
            self.log
                .error(now, format_args!("trace: {fault}: no line is traced"));
        }
    }

    /// Writes what waits.
    fn write_waiting(&mut self) {
        let now = self.clock.now();
        if let Err(fault) = self.writer.write_waiting(now) {
            self.log.error(
                now,
                format_args!("trace: {fault}: no line is traced any more"),
            );
        }
    }

    /// Tells how many octets were left out, if any were.
    fn tell_left_out(&mut self) {
        let left_out = self.writer.left_out();
        if left_out > 0 {
            let now = self.clock.now();
            self.log.warn(
                now,
                format_args!("trace: {left_out} octets of lines were left out"),
            );
        }
    }
}
