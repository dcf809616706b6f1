//! Serving the lines, with their charging records in a file of call detail records.

ghost use Rattle.std.specs.Prelude.{◌≡◌, ◌≤◌, [], IfOk, IfSome, OnErr};
ghost use Rattle.xp_keeping.specs.Details.{AreKept, GoesOnAs, Keeping};
ghost use Rattle.xp_keeping.specs.Queued.{AreKeptBeside, KeepsBeside, Queued};
ghost use Rattle.xp_serve.specs.LeftAlone.{LeavesAlone};
ghost use Rattle.xp_serve.specs.Serving.{Serves};

use crate::attending::attend;
use crate::beside::Beside;
use crate::live::{LiveOfRun, RunBefore, begin_live_of, path_of_live};
use crate::ordered_run::OrderedRun;
use crate::runtime::ServingRuntime;
use crate::serving::CopiedSubs;
use std::alloc::AllocGlobal;
use std::fs::{File, Files};
use std::io;
use std::io::{Read, Write};
use std::net::{Net, TcpListener, TcpStream};
use xp_cdr::{DetailFile, ExchangeName, ExchangeRun, Opened, RecordFile, path_in};
use xp_clock::WallClock;
use xp_days::{DayFiles, day_of, file_before, newest_file, open_newest};
use xp_keeping::{DetailKeeper, OperatorLog, PatientOutput, QueuedKeeper, start_details};
use xp_listening::ServeFailure;
use xp_readiness::{Failure, Tracing};
use xp_serve::{ServeEnd, settle};
use xp_subs::Subs;

/// Serves the lines, and keeps their charging records in the file of call detail records at this path. Whatever serves has no other
/// way to standard output than the output that it is lent here.
pub(crate) fn serve_into_file<
    R: ServingRuntime + Net<Listener = TcpListener, Stream = TcpStream> + Files<File = File>,
>(
    ordered: &OrderedRun<'_, '_, R>,
    host: HostRuntime,
    path: &str,
    subs: CopiedSubs,
) -> Result<(), Failure>
    requires names { subs.names ≡ subs.own }
    requires live { subs.live ≡ subs.own }
{
    let alloc = ordered.rt.alloc();
    let live = path_of_live(alloc, path)?;
    let (mut file, opened) = DetailFile::open(alloc, host, path)?;
    let before = RunBefore {
        opened,
        live,
        earlier: None,
    };
    let live = begin_live_of(ordered, host, &before, &mut file)?;
    let details = DetailsOfRun {
        file,
        run: run_of(ordered, before.last_started(live.left), &subs.own),
        log: OperatorLog::new(host, ordered.order.quiet),
        live,
    };
    serve_run(ordered, host, subs, details)
}

/// Serves the lines as `serve_into_file` does, with a file of call detail records for each day in this directory.
pub(crate) fn serve_into_directory<
    R: ServingRuntime + Net<Listener = TcpListener, Stream = TcpStream> + Files<File = File>,
>(
    ordered: &OrderedRun<'_, '_, R>,
    host: HostRuntime,
    path: &str,
    subs: CopiedSubs,
) -> Result<(), Failure>
    requires names { subs.names ≡ subs.own }
    requires live { subs.live ≡ subs.own }
{
    let today = day_of(ordered.clock.seconds());
    let newest = newest_file(&host, path, today)?;
    let paths = PathsOfDirectory::of(ordered.rt, host, path, newest.day)?;
    let (mut file, opened) = open_newest(host, path, &newest, today)?;
    let (directory, before) = paths.with(opened);
    let live = begin_live_of(ordered, host, &before, &mut file)?;
    let details = DetailsOfRun {
        file: DayFiles::new(directory, newest.day, file),
        run: run_of(ordered, before.last_started(live.left), &subs.own),
        log: OperatorLog::new(host, ordered.order.quiet),
        live,
    };
    serve_run(ordered, host, subs, details)
}

/// What is in a directory of files of days, by its paths.
struct PathsOfDirectory {
    directory: String,
    /// The file of live calls.
    live: String,
    /// The file of call detail records before the newest one, if there is one.
    earlier: Option<String>,
}

impl Drop for PathsOfDirectory {
    fn drop(self) {
        let PathsOfDirectory {
            directory: _,
            live: _,
            earlier: _,
        } = self;
    }
}

impl PathsOfDirectory {
    /// The paths in this directory, whose newest file is of this day.
    fn of<R: AllocGlobal>(
        rt: &R,
        host: HostRuntime,
        path: &str,
        newest: u64,
    ) -> Result<PathsOfDirectory, Failure> {
        let earlier = match file_before(&host, path, newest)? {
            Some(file) => Some(file.path),
            None => None,
        };
        Ok(PathsOfDirectory {
            live: path_in(rt.alloc(), path, NAME_OF_LIVE)?,
            directory: path.to_string(rt.alloc())?,
            earlier,
        })
    }

    /// The directory, and what the run before left there, where its newest file was found so.
    fn with(self, opened: Opened) -> (String, RunBefore) {
        let PathsOfDirectory {
            directory,
            live,
            earlier,
        } = self;
        let before = RunBefore {
            opened,
            live,
            earlier,
        };
        (directory, before)
    }
}

/// Serves the lines, and keeps their charging records with these.
fn serve_run<
    R: ServingRuntime + Net<Listener = TcpListener, Stream = TcpStream> + Files<File = File>,
    F: RecordFile + Send + 'static,
>(
    ordered: &OrderedRun<'_, '_, R>,
    host: HostRuntime,
    subs: CopiedSubs,
    details: DetailsOfRun<F>,
) -> Result<(), Failure>
    requires names { subs.names ≡ subs.own }
    requires live { subs.live ≡ subs.own }
    requires taken { F.taken details.file ≡ [] }
    requires synced { F.synced details.file ≡ [] }
    requires before { (F.current details.file).before ≡ [] }
    requires failures { F.failures details.file ≡ 0 }
{
    let mut output = PatientOutput::new(host);
    let told = serve_with_details(ordered, subs, details, &mut output)?;
    told?;
    Ok(())
}

/// The run that begins now, where the one before began at this moment, in seconds since 1970, if there was one.
fn run_of<R: Files<File = File>>(
    ordered: &OrderedRun<'_, '_, R>,
    last_started: Option<u64>,
    subs: &Subs,
) -> ExchangeRun {
    ExchangeRun {
        started: moment_of_start(ordered.clock, last_started),
        exchange: name_of_exchange(ordered.rt, ordered.order.exchange, subs),
    }
}

/// What the charging records of a run are kept with.
struct DetailsOfRun<F: RecordFile> {
    /// The file of call detail records, which has just been opened.
    file: F,
    /// The run of which exchange they are of.
    run: ExchangeRun,
    log: OperatorLog<HostRuntime>,
    live: LiveOfRun,
}

impl<F: RecordFile> Drop for DetailsOfRun<F> {
    fn drop(self) {
        let DetailsOfRun {
            file: _,
            run: _,
            log: _,
            live: _,
        } = self;
    }
}

impl<F: RecordFile> DetailsOfRun<F> {
    /// The file, the run, the log and the live calls.
    fn into_parts(self) -> (F, ExchangeRun, OperatorLog<HostRuntime>, LiveOfRun)
        ensures file { result.0 ≡ self.file }
        ensures run { result.1 ≡ self.run }
    {
        let DetailsOfRun {
            file,
            run,
            log,
            live,
        } = self;
        (file, run, log, live)
    }
}

/// Serves the lines, keeps their charging records in a file of call detail records, and writes those in doubt on the output, and
/// nothing else. Returns what serving came to.
///
/// # Errors
///
/// Why serving did not begin. Then nothing is written.
fn serve_with_details<
    R: ServingRuntime + Net<Listener = TcpListener, Stream = TcpStream> + Files<File = File>,
    F: RecordFile + Send + 'static,
    W: Write,
>(
    ordered: &OrderedRun<'_, '_, R>,
    subs: CopiedSubs,
    details: DetailsOfRun<F>,
    output: &mut W,
) -> Result<Result<(), ServeFailure>, Failure>
    requires names { subs.names ≡ subs.own }
    requires live { subs.live ≡ subs.own }
    requires taken { F.taken details.file ≡ [] }
    requires synced { F.synced details.file ≡ [] }
    requires before { (F.current details.file).before ≡ [] }
    requires failures { F.failures details.file ≡ 0 }
    ensures ok { IfOk result (λ told. (keeper : Queued Keeping) × LeavesAlone subs.own details.run keeper (W.contents output.old) (W.contents output.new) told) }
    ensures err { OnErr result (W.contents output.new ≡ W.contents output.old) }
{
    let OrderedRun { rt, order, clock } = *ordered;
    let (own, names, told_by, subscription_file) = subs.into_parts();
    let (file, run, log, live) = details.into_parts();
    let tracing = Tracing::begin(rt, order, clock, &own)?;
    let begun = Beside::new(tracing, subscription_file);
    let beside = live.kept_in(ordered, told_by, &run, begun)?;
    let keeper = DetailKeeper::new(rt.alloc(), file, run.copy(), clock, log);
    let keeper = start_details(*rt, rt.alloc(), names, keeper)?;
    let end = attend_details(ordered, own, beside, keeper)?;
    Ok(settle(rt.alloc(), &run, end, output))
}

/// Serves the lines, with this keeper of call detail records on a thread of its own.
fn attend_details<
    R: ServingRuntime + Net<Listener = TcpListener, Stream = TcpStream>,
    F: RecordFile + Send + 'static,
>(
    ordered: &OrderedRun<'_, '_, R>,
    subs: Subs,
    beside: Beside<R>,
    keeper: QueuedKeeper<DetailKeeper<F, HostRuntime>, R>,
) -> Result<ServeEnd<QueuedKeeper<DetailKeeper<F, HostRuntime>, R>>, Failure>
    requires live { IfSome beside.live (λ live. live.opening ≡ subs) }
    requires named { keeper.subs ≡ subs }
    requires new { keeper.given ≡ [] }
    ensures { IfOk result (λ end. Serves (AreKeptBeside AreKept GoesOnAs) KeepsBeside subs keeper end.keeper end.outcome) }
{
    attend(ordered, subs, beside, keeper)
}

/// When the run began, in seconds since 1970: now, or a second behind the one before, if that began later. So no two runs of a file
/// have the same moment.
fn moment_of_start(clock: WallClock, last_started: Option<u64>) -> u64 {
    match last_started {
        Some(last) => clock.seconds().max(last.saturating_add(1)),
        None => clock.seconds(),
    }
}

/// The name of the file of live calls beside the files of days.
const NAME_OF_LIVE: &str = "calls.live";

/// Where the system tells the host's name.
const HOST_NAMES: [&str; 2] = ["/proc/sys/kernel/hostname", "/etc/hostname"];

/// The most octets that are read of a host's name.
const MOST_OF_NAME: usize = 256;

/// The name of the exchange: the one that it is given, else that of its subscription file, else that of its host.
fn name_of_exchange<'a, R: Files<File = File>>(
    rt: &R,
    given: Option<&'a str>,
    subs: &'a Subs,
) -> ExchangeName {
    match given
        .or(subs.exchange_name())
        .and_then(ExchangeName::from_text)
    {
        Some(name) => name,
        None => name_of_host(rt),
    }
}

/// The name of the host, as the first file tells that has one.
fn name_of_host<R: Files<File = File>>(rt: &R) -> ExchangeName {
    let mut buffer = [0; MOST_OF_NAME];
    for path in &HOST_NAMES {
        let count = read_front(rt, path, &mut buffer).unwrap_or(0);
        let text = buffer[..count].trim_ascii();
        if !text.is_empty() {
            return ExchangeName::of_host(text);
        }
    }
    ExchangeName::of_host(b"")
}

/// Reads the first octets of a file. Returns how many.
fn read_front<R: Files<File = File>>(
    rt: &R,
    path: &str,
    buffer: &mut [u8; MOST_OF_NAME],
) -> io::Result<usize>
    ensures { IfOk result (λ count. count ≤ 256) }
{
    let mut file = File::open(rt, path)?;
    file.read(buffer)
}
