//! The live calls of the exchange that is served, and those of the run before.

ghost use Rattle.std.specs.Prelude.{◌≡◌, IfOk, IfSome};

use crate::beside::Beside;
use crate::ordered_run::OrderedRun;
use log::Log;
use std::alloc::{AllocError, AllocGlobal, Global};
use std::fs::{File, Files};
use std::sync::Wait;
use std::thread::Threads;
use xp_cdr::{DetailFile, ExchangeRun, Opened, RecordFile};
use xp_clock::WallClock;
use xp_keeping::OperatorLog;
use xp_live::{LeftBehind, LiveFile, LiveKeeper, LiveThread, begin_live};
use xp_readiness::Failure;
use xp_subs::Subs;

/// What stands behind the path of the file of call detail records in that of the file of live calls.
const BEHIND_LIVE: &str = ".live";

/// The path of the file of live calls beside a file of call detail records, where none is given.
pub(crate) fn path_of_live(alloc: Global, records: &str) -> Result<String, AllocError> {
    let mut path = records.to_string(alloc)?;
    path.push_str(BEHIND_LIVE)?;
    Ok(path)
}

/// What the run before left.
pub(crate) struct RunBefore {
    /// How its file of call detail records was found.
    pub(crate) opened: Opened,
    /// The path of its file of live calls, where none is given.
    pub(crate) live: String,
    /// The path of its file of call detail records of the day before, if there is one.
    pub(crate) earlier: Option<String>,
}

impl Drop for RunBefore {
    fn drop(self) {
        let RunBefore {
            opened: _,
            live: _,
            earlier: _,
        } = self;
    }
}

impl RunBefore {
    /// The path of its file of call detail records of the day before, if there is one.
    fn earlier(&self) -> Option<&str> {
        match &self.earlier {
            Some(path) => Some(path.as_str()),
            None => None,
        }
    }

    /// When it began, in seconds since 1970, as far as its records and the live calls that it left tell.
    pub(crate) fn last_started(&self, left: LeftBehind) -> Option<u64> {
        self.opened.last_started.max(left.started)
    }
}

/// The file in which the live calls of a run are kept, if there is to be one, and what the run before left in it.
pub(crate) struct LiveOfRun {
    file: Option<LiveFile<HostRuntime>>,
    log: OperatorLog<HostRuntime>,
    pub(crate) left: LeftBehind,
}

impl Drop for LiveOfRun {
    fn drop(self) {
        let LiveOfRun {
            file: _,
            log: _,
            left: _,
        } = self;
    }
}

/// Opens the file of live calls that was ordered, and gives calls of the run before their partial records, in this file of call
/// detail records, which has just been opened. Tells how both were found.
pub(crate) fn begin_live_of<R: AllocGlobal + Files<File = File> + Log>(
    ordered: &OrderedRun<'_, '_, R>,
    host: HostRuntime,
    before: &RunBefore,
    records: &mut DetailFile<HostRuntime>,
) -> Result<LiveOfRun, Failure>
    ensures taken { ⟦<DetailFile<HostRuntime> as RecordFile>⟧.taken records.new ≡ ⟦<DetailFile<HostRuntime> as RecordFile>⟧.taken records.old }
    ensures synced { ⟦<DetailFile<HostRuntime> as RecordFile>⟧.synced records.new ≡ ⟦<DetailFile<HostRuntime> as RecordFile>⟧.synced records.old }
    ensures failures { ⟦<DetailFile<HostRuntime> as RecordFile>⟧.failures records.new ≡ ⟦<DetailFile<HostRuntime> as RecordFile>⟧.failures records.old }
{
    let OrderedRun { rt, order, clock } = *ordered;
    tell_found(rt, clock, &before.opened);
    if order.no_live {
        return Ok(LiveOfRun {
            file: None,
            log: OperatorLog::new(host, order.quiet),
            left: LeftBehind::default(),
        });
    }
    let path = order.live.unwrap_or(before.live.as_str());
    let (file, left) = begin_live(rt.alloc(), host, path, before.earlier(), records)?;
    tell_left(rt, clock, left);
    Ok(LiveOfRun {
        file: Some(file),
        log: OperatorLog::new(host, order.quiet),
        left,
    })
}

impl LiveOfRun {
    /// What goes on beside the lines: this, and what keeps the live calls of this run in the file, if there is one.
    pub(crate) fn kept_in<R: AllocGlobal + Copy + Drop + Send + Threads + Wait + 'static>(
        self,
        ordered: &OrderedRun<'_, '_, R>,
        subs: Subs,
        run: &ExchangeRun,
        beside: Beside<R>,
    ) -> Result<Beside<R>, Failure>
        ensures { IfOk result (λ beside. IfSome beside.live (λ live. live.opening ≡ subs)) }
    {
        let partial_records = self.left.calls as u64;
        let live = self.keep(ordered, subs, run)?;
        Ok(beside.with_live(live, partial_records))
    }

    /// What keeps the live calls of this run in the file, if there is one.
    fn keep<R: AllocGlobal + Copy + Drop + Send + Threads + Wait + 'static>(
        self,
        ordered: &OrderedRun<'_, '_, R>,
        subs: Subs,
        run: &ExchangeRun,
    ) -> Result<Option<LiveKeeper<R>>, Failure>
        ensures { IfOk result (λ keeper. IfSome keeper (λ live. live.opening ≡ subs)) }
    {
        let LiveOfRun { file, log, left: _ } = self;
        let Some(file) = file else {
            return Ok(None);
        };
        let OrderedRun { rt, clock, .. } = *ordered;
        let alloc = rt.alloc();
        let thread = LiveThread::start(*rt, alloc, file, clock, log)?;
        Ok(Some(LiveKeeper::begin(alloc, subs, run.copy(), clock, thread)?))
    }
}

/// Tells how many calls of the run before got a partial record, if any did.
fn tell_left<R: Log>(rt: &R, clock: WallClock, left: LeftBehind) {
    let mut log = OperatorLog::new(rt, false);
    match left.calls {
        0 => {}
        1 => log.warn(
            clock.seconds(),
            "cdr: 1 call of the run before got a partial record",
        ),
        calls => log.warn(
            clock.seconds(),
            format_args!("cdr: {calls} calls of the run before got a partial record"),
        ),
    }
}

/// Tells that the torn last line of a file of call detail records was cut off, and that a file without the last columns was moved.
fn tell_found<R: Log>(rt: &R, clock: WallClock, opened: &Opened) {
    let mut log = OperatorLog::new(rt, false);
    if opened.moved_aside {
        log.warn(
            clock.seconds(),
            "cdr: a file of 16 columns was moved to the same path with .16-columns behind it, and a new one is begun",
        );
    }
    if opened.torn > 0 {
        log.warn(
            clock.seconds(),
            format_args!(
                "cdr: a torn last line of {} octets was cut off",
                opened.torn
            ),
        );
    }
}
