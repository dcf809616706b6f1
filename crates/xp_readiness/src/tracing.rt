//! The trace of the lines that are served.

use crate::failure::Failure;
use log::Log;
use std::alloc::{AllocError, AllocGlobal, Global};
use std::fs::{File, Files};
use std::io::BufWriter;
use std::sync::{Arc, Wait};
use std::thread::Threads;
use xp_arguments::{ServeOrder, TraceOrder};
use xp_clock::{Start, WallClock};
use xp_door::{Notices, Trace};
use xp_keeping::OperatorLog;
use xp_subs::Subs;
use xp_tasks::TaskFailure;
use xp_trace::{NamesFault, TracedLines};
use xp_tracing::{TraceFault, TraceFile, TraceFileFault, TraceThread, TraceWriter};

/// What the lines put into the trace, and the thread that writes it to its file. Neither is there where nothing is traced.
#[derive(Drop)]
pub struct Tracing<R: Wait> {
    trace: Option<Arc<Trace>>,
    pub thread: Option<TraceThread<R>>,
}

impl<R: AllocGlobal + Copy + Drop + Log + Send + Threads + Wait + 'static> Tracing<R> {
    /// Opens the file of the trace that was ordered, if one was. What the file held is there until the lines are served.
    ///
    /// # Errors
    ///
    /// `TraceLines` with the first name that no line has, `Trace` where the file can't be opened, and want of memory.
    pub fn begin(
        rt: &R,
        order: &ServeOrder<'_>,
        clock: WallClock,
        subs: &Subs,
    ) -> Result<Tracing<R>, Failure>
    where
        R: Files<File = File>,
    {
        let Some(traced) = order.trace.as_ref() else {
            return Ok(Tracing {
                trace: None,
                thread: None,
            });
        };
        let alloc = rt.alloc();
        let trace = trace_of(alloc, traced, subs)?;
        let begun = begun_file(rt, traced.path, Arc::try_clone(&trace)?)?;
        let BegunFile { writer, has_header } = begun;
        let log = OperatorLog::new(*rt, order.quiet);
        let thread = TraceThread::start(*rt, alloc, writer, clock, log, has_header)?;
        Ok(Tracing {
            trace: Some(trace),
            thread: Some(thread),
        })
    }

    /// The notices of the lines, of a run that began then, with the trace that they have.
    pub fn notices(&self, alloc: Global, start: Start) -> Result<Notices, Failure> {
        let trace = match &self.trace {
            Some(trace) => Some(Arc::try_clone(trace)?),
            None => None,
        };
        Ok(Notices::with_trace(alloc, start, trace)?)
    }
}

/// What the traced lines put their octets into.
fn trace_of(alloc: Global, order: &TraceOrder<'_>, subs: &Subs) -> Result<Arc<Trace>, Failure> {
    let lines = traced_lines(alloc, order, subs).map_err(failure_of_names)?;
    let trace = Trace::new(alloc, lines, subs.counts().lines)?;
    Ok(Arc::new(alloc, trace).map_err(AllocError::from)?)
}

/// What writes a trace to its file.
#[derive(Drop)]
struct BegunFile {
    writer: TraceWriter<BufWriter<TraceFile>>,
    /// Whether the file has its header. Where it held something, it is begun once the lines are served.
    has_header: bool,
}

/// Opens the file of a trace at this path, and begins it where it holds nothing.
fn begun_file<R: AllocGlobal + Files<File = File>>(
    rt: &R,
    path: &str,
    trace: Arc<Trace>,
) -> Result<BegunFile, Failure> {
    let alloc = rt.alloc();
    let file = TraceFile::open(rt, path).map_err(Failure::Trace)?;
    let has_header = !file.is_old();
    let file = BufWriter::new(alloc, file).map_err(|_| TaskFailure::Memory)?;
    let mut writer = TraceWriter::new(alloc, trace, file).map_err(failure_of_trace)?;
    if has_header {
        writer.begin().map_err(failure_of_trace)?;
    }
    Ok(BegunFile { writer, has_header })
}

/// Which lines are traced: those that are named, or all.
fn traced_lines(
    alloc: Global,
    order: &TraceOrder<'_>,
    subs: &Subs,
) -> Result<TracedLines, NamesFault> {
    match order.lines {
        Some(names) => TracedLines::named(alloc, subs, names),
        None => Ok(TracedLines::All),
    }
}

fn failure_of_names(fault: NamesFault) -> Failure {
    match fault {
        NamesFault::Unknown(name) => Failure::TraceLines(name),
        NamesFault::Memory => Failure::from(TaskFailure::Memory),
    }
}

fn failure_of_trace(fault: TraceFault) -> Failure {
    match fault {
        TraceFault::Memory => Failure::from(TaskFailure::Memory),
        TraceFault::Write => Failure::Trace(TraceFileFault::Write),
    }
}
