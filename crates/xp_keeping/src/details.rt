//! Keeping call detail records in a file, each as its call ends.

ghost use Rattle.std.specs.Prelude.{◌≡◌, ◌++◌, []};
ghost use Rattle.xp_cdr.specs.Ledger.{IsUnfinished};
ghost use Rattle.xp_keeping.specs.Details.{AreKept, GoesOnAs, first_keeping};
ghost use Rattle.xp_keeping.specs.steps.Details.{Gives, PutsOnDisk};

use crate::call_keeper::{CallKeeper, count_on};
use crate::keep_fault::KeepFault;
use crate::operator_log::OperatorLog;
use log::Log;
use std::alloc::Global;
use std::marker::Model;
use xp_cdr::{DetailWriter, EndedCall, ExchangeRun, FlushFault, OpenFault, Place, RecordFile};
use xp_clock::WallClock;
use xp_past::Past;
use xp_sink::Received;

/// With so many call detail records that the file has not taken, serving stops.
const MOST_WAITING: usize = 100_000;

/// After so many seconds a write that failed is tried again, and so is the beginning of a new file.
const SECONDS_TO_RETRY: u64 = 1;

/// So many seconds after a part of time has begun, its file is begun, even if no call has ended since: records of calls that ended
/// before it have come by then.
const SECONDS_TO_BEGIN: u64 = 5;

/// Writes call detail records to a file, or to files of parts of time, and waits until they are on the disk. Where the file fails, they
/// wait in order, and are offered to it again each second. Where the file is moved or removed, it goes on in a new one at its path. Once
/// memory was wanting, it takes no more records. It has no other output than the file and the log.
#[derive(Drop)]
pub struct DetailKeeper<F: RecordFile, L: Log> {
    writer: DetailWriter<F>,
    clock: WallClock,
    log: OperatorLog<L>,
    /// From which second on the file is tried again, where its last write failed.
    retry_at: Option<u64>,
    /// From which second on a new file is begun where the file was moved or removed, where the last could not be begun.
    begin_at: Option<u64>,
    /// Whether memory was wanting.
    is_short: bool,
    /// How many calls were given to the writer of the file.
    count: usize,
    /// All calls that it was given.
    given: Past<EndedCall>,
}

impl<F: RecordFile, L: Log> Model for DetailKeeper<F, L> {
    ghost use Rattle.std.specs.Prelude.{◌≤◌, length};
    ghost use Rattle.xp_keeping.specs.Details.{Keeping};
    ghost use Rattle.xp_keeping.specs.steps.Details.{IsGivenAs};

    ghost Value = { Keeping };

    ghost view = { λ k. record { given = k.given.items; ledger = k.writer; is_short = k.is_short } };

    ghost invariant = { λ k. IsGivenAs (record { given = k.given.items; ledger = k.writer; is_short = k.is_short }) × (k.count ≤ length k.writer.given) };
}

impl<F: RecordFile, L: Log> DetailKeeper<F, L> {
    /// The keeper that writes to a file that has just been opened, for this run.
    pub fn new(
        alloc: Global,
        file: F,
        run: ExchangeRun,
        clock: WallClock,
        log: OperatorLog<L>,
    ) -> DetailKeeper<F, L>
        requires taken { F.taken file ≡ [] }
        requires synced { F.synced file ≡ [] }
        requires before { (F.current file).before ≡ [] }
        requires failures { F.failures file ≡ 0 }
        ensures { result ≡ first_keeping run }
    {
        DetailKeeper {
            writer: DetailWriter::new(alloc, file, run),
            clock,
            log,
            retry_at: None,
            begin_at: None,
            is_short: false,
            count: 0,
            given: Past::new(),
        }
    }

    /// The lines of the call detail records that the file does not have on the disk: those of the records that were given to its writer
    /// last.
    pub(crate) fn unfinished_lines(&self) -> &[u8]
        ensures { IsUnfinished self.now.ledger result.now }
    {
        self.writer.unfinished_lines()
    }

    /// Gives further calls to the writer of the file, unless memory was wanting before.
    fn give(&mut self, calls: &[EndedCall])
        ensures given { self.new.given ≡ self.old.given ++ calls.now }
        ensures keeps { GoesOnAs self.old self.new }
    {
        let was_short = self.is_short;
        self.is_short = give_more(was_short, &mut self.writer, calls);
        self.given.extend(calls);
        self.count = count_on(self.count, calls, !self.is_short);
        if self.is_short && !was_short {
            let now = self.clock.now();
            self.log.error(
                now,
                "memory is wanting for call detail records: serving stops",
            );
        }
    }

    /// Goes on in a new file where the file was moved or removed, and tells that, unless none could be begun within this second.
    fn follow(&mut self)
        ensures given { self.new.given ≡ self.old.given }
        ensures keeps { GoesOnAs self.old self.new }
    {
        let now = self.clock.now();
        if self.begin_at.is_some_and(|at| now < at) {
            return;
        }
        match self.writer.follow() {
            Ok(Place::Same) => self.begin_next(now),
            Ok(Place::Begun) => {
                self.begin_at = None;
                self.log.warn(
                    now,
                    "cdr: the file was moved or removed: a new one is begun at its path",
                );
            }
            Err(fault) => self.note_unbegun(now, fault),
        }
    }

    /// Begins the file of the part of time that has come, and tells that, where no record waits.
    fn begin_next(&mut self, now: u64)
        ensures given { self.new.given ≡ self.old.given }
        ensures keeps { GoesOnAs self.old self.new }
    {
        let part = self
            .writer
            .file()
            .part_at(now.saturating_sub(SECONDS_TO_BEGIN));
        match self.writer.begin(part) {
            Ok(is_begun) => {
                self.begin_at = None;
                if is_begun {
                    self.tell_begun(now);
                }
            }
            Err(fault) => self.note_unbegun(now, fault),
        }
    }

    /// Tells that the file that is open now was begun.
    fn tell_begun(&mut self, now: u64)
        ensures { self.new ≡ self.old }
    {
        let name = self.writer.file().name();
        self.log.info(now, format_args!("cdr: {name} is begun"));
    }

    /// Tells why no new file was begun, unless that was told before, and tries it again after a second.
    fn note_unbegun(&mut self, now: u64, fault: OpenFault)
        ensures { self.new ≡ self.old }
    {
        if self.begin_at.is_none() {
            self.log.error(now, format_args!("cdr: a new file can't be begun: {fault}"));
        }
        self.begin_at = Some(now.saturating_add(SECONDS_TO_RETRY));
    }

    /// Offers what waits to the file, and waits until it is on the disk, unless the file failed within this second.
    fn offer(&mut self)
        ensures given { self.new.given ≡ self.old.given }
        ensures keeps { GoesOnAs self.old self.new }
    {
        let now = self.clock.now();
        if self.retry_at.is_some_and(|at| now < at) {
            return;
        }
        if self.writer.waiting_octets() == 0 {
            return;
        }
        let part = self.writer.file().open_part();
        let flushed = self.writer.flush();
        if self.writer.file().open_part() != part {
            self.tell_begun(now);
        }
        self.note_flushed(now, flushed);
    }

    /// Tells what came of offering what waits, where it is news. A failure is followed by another try after a second.
    fn note_flushed(&mut self, now: u64, flushed: Result<(), FlushFault>)
        ensures { self.new ≡ self.old }
    {
        match flushed {
            Ok(()) => {
                if self.retry_at.take().is_some() {
                    self.log.warn(now, "call detail records are written again");
                }
            }
            Err(fault) => {
                if self.retry_at.is_none() {
                    self.log
                        .error(now, format_args!("call detail records wait: {fault}"));
                }
                self.retry_at = Some(now.saturating_add(SECONDS_TO_RETRY));
            }
        }
    }

    /// Offers once more what the file has not taken, as the run ends.
    ///
    /// # Errors
    ///
    /// `Memory`, or `Details` where the file failed and does not have all of them on the disk.
    fn keep_rest(&mut self) -> Result<(), KeepFault>
        ensures kept { AreKept self.new self.old.given result }
        ensures keeps { GoesOnAs self.old self.new }
    {
        let is_on_disk = put_on_disk(&mut self.writer);
        if self.is_short {
            return Err(KeepFault::Memory);
        }
        if is_on_disk {
            Ok(())
        } else {
            Err(KeepFault::Details)
        }
    }

    /// Whether serving is to go on: memory was never wanting, and not too many call detail records wait.
    fn flow(&self) -> Received {
        let is_full = self.retry_at.is_some() && self.writer.waiting_records() >= MOST_WAITING;
        if self.is_short || is_full {
            Received::Stops
        } else {
            Received::GoesOn
        }
    }
}

/// Gives further calls to the writer of a file, unless memory was wanting before. Returns whether memory is wanting.
fn give_more<F: RecordFile>(
    is_short: bool,
    writer: &mut DetailWriter<F>,
    calls: &[EndedCall],
) -> bool
    ensures { Gives is_short writer.old calls.now result writer.new }
{
    if is_short {
        return true;
    }
    writer.give(calls).is_err()
}

/// Puts what waits on the disk. Returns whether nothing waits any more.
fn put_on_disk<F: RecordFile>(writer: &mut DetailWriter<F>) -> bool
    ensures { PutsOnDisk writer.old result writer.new }
{
    if writer.waiting_octets() == 0 {
        return true;
    }
    match writer.flush() {
        Ok(()) => true,
        Err(_) if writer.waiting_octets() == 0 => true,
        Err(_) => false,
    }
}

impl<F: RecordFile, L: Log + Drop> CallKeeper for DetailKeeper<F, L> {
    ghost use Rattle.std.specs.Prelude.{◌≡◌};
    ghost use Rattle.std.proofs.Common.{refl, ◌∙◌};
    ghost use Rattle.xp_keeping.specs.Details.{AreKept, GoesOnAs, HasKept};

    ghost given = { λ k. k.given };

    ghost keeps = { GoesOnAs };

    ghost kept = { AreKept };

    ghost has_kept = { HasKept };

    fn keep(&mut self, calls: Vec<EndedCall>) -> Received {
        self.give(&calls);
        self.follow();
        self.offer();
        self.flow()
    }

    fn tick(&mut self) -> Received {
        self.follow();
        self.offer();
        self.flow()
    }

    fn finish(&mut self) -> Result<(), KeepFault> {
        self.keep_rest()
    }

    fn count_kept(&self) -> usize {
        self.count.saturating_sub(self.writer.waiting_records())
    }

    ghost keeps_itself = { λ k. refl };

    ghost keeps_on = { λ k l m first second. second ∙ first };
}
