//! A writer of call detail records.

ghost use Rattle.std.specs.Prelude.{◌≡◌, ◌≤◌, [], MatchResult, OnErr, OnOk, drop, length};
ghost use Rattle.xp_cdr.specs.Details.{detail_text};
ghost use Rattle.xp_cdr.specs.Ledger.{Flushes, IsUnfinished, IsWhole, LacksLast, opening, with_failure, with_given};
ghost use Rattle.xp_cdr.specs.Parts.{AreFiled};

use crate::batch::Batch;
use crate::ended::EndedCall;
use crate::flush_fault::FlushFault;
use crate::flushing::flush_batch;
use crate::giving::Giving;
use crate::opening::OpenFault;
use crate::progress::Progress;
use crate::record_file::{Place, RecordFile};
use crate::run::ExchangeRun;
use std::alloc::{AllocError, Global};
use std::marker::Model;
use xp_past::Past;

/// Writes the call detail records of an exchange to a file, or to files of which each is of a part of time. What is not on the disk
/// yet waits in memory, and is offered again, so that each record is written once, in order, and none is lost. Where a sync has
/// failed, nothing that was written since the last good one is trusted: the file is cut back, and it is written again.
#[derive(Drop)]
pub struct DetailWriter<F: RecordFile> {
    file: F,
    giving: Giving,
    /// The call detail records of the calls that were given last.
    batch: Batch,
    /// How far they are on the disk.
    progress: Progress,
}

impl<F: RecordFile> Model for DetailWriter<F> {
    ghost use Rattle.std.specs.Prelude.{[], ◌∷◌, drop};
    ghost use Rattle.xp_cdr.specs.Ledger.{Ledger};
    ghost use Rattle.xp_cdr.specs.steps.Writer.{IsSent, told_text};

    ghost Value = { Ledger };

    ghost view = { λ w. record { run = w.giving.run; given = w.giving.given.items; taken = F.taken w.file; synced = F.synced w.file; waiting = drop w.progress.octets w.batch.octets; failures = F.failures w.file } };

    ghost invariant = { λ w. IsSent F.part_of (told_text w.giving) w.giving.given.items (F.synced w.file) (F.taken w.file) (F.current w.file) w.batch w.progress };
}

impl<F: RecordFile> DetailWriter<F> {
    /// Returns a writer to a file that has just been opened, of this run of an
    /// exchange.
    pub fn new(alloc: Global, file: F, run: ExchangeRun) -> DetailWriter<F>
        requires taken { F.taken file ≡ [] }
        requires synced { F.synced file ≡ [] }
        requires before { (F.current file).before ≡ [] }
        requires failures { F.failures file ≡ 0 }
        ensures { result ≡ opening run }
    {
        let part = file.open_part();
        let giving = Giving {
            run,
            given: Past::new(),
        };
        DetailWriter {
            file,
            giving,
            batch: Batch::new(alloc, part),
            progress: Progress::none(),
        }
    }

    /// Takes more calls that have ended. Their call detail records wait until `flush`.
    ///
    /// # Errors
    ///
    /// Memory is wanting. Then nothing has changed, and the calls were not given.
    pub fn give(&mut self, calls: &[EndedCall]) -> Result<(), AllocError>
        ensures ok { OnOk result (self.new ≡ with_given self.old calls.now) }
        ensures err { OnErr result (self.new ≡ self.old) }
    {
        self.batch.push_all(&self.file, &self.giving.run, calls)?;
        self.giving.given.extend(calls);
        Ok(())
    }

    /// Writes out all that waits, each record to the file in which it stands, and waits until it is on the disk. Where a sync has
    /// failed since the last good one, the file is cut back first.
    ///
    /// # Errors
    ///
    /// What a file tells. Then what is not on the disk yet still waits, and the next call goes on: behind the last octet that the
    /// file has taken, or from the last good sync on.
    pub fn flush(&mut self) -> Result<(), FlushFault>
        ensures flushes { Flushes self.old result self.new }
        ensures whole { IsWhole self.new }
    {
        let flushed = flush_batch(
            &mut self.file,
            &self.batch,
            &self.giving,
            &mut self.progress,
        );
        match flushed {
            Ok(()) => {
                let part = self.batch.part();
                self.batch.clear(part);
                self.progress = Progress::none();
                Ok(())
            }
            Err(fault) => Err(fault),
        }
    }

    /// Looks whether the file still lies at its path, and begins a new one there if not. Where the file may have taken some of the
    /// octets that wait, they go on in this file, and it does not look.
    ///
    /// # Errors
    ///
    /// No new file was begun, and the one that is open goes on.
    pub fn follow(&mut self) -> Result<Place, OpenFault>
        ensures { MatchResult result (λ _. self.new ≡ self.old) (λ _. self.new ≡ with_failure self.old) }
    {
        match self.progress.taken {
            Some(0) => self.file.follow(),
            _ => Ok(Place::Same),
        }
    }

    /// Begins the file of this part, where it is later than that of the open file, and no record waits. Returns whether it did.
    ///
    /// # Errors
    ///
    /// No file was begun, and the one that is open goes on.
    pub fn begin(&mut self, part: u64) -> Result<bool, OpenFault>
        ensures { MatchResult result (λ _. self.new ≡ self.old) (λ _. self.new ≡ with_failure self.old) }
    {
        if self.batch.count() > 0 || part <= self.file.open_part() {
            return Ok(false);
        }
        self.file.begin(part)?;
        self.batch.clear(part);
        self.progress = Progress::none();
        Ok(true)
    }

    /// How many octets are not on the disk.
    pub fn waiting_octets(&self) -> usize
        ensures count { result ≡ length self.now.waiting }
        ensures whole { IsWhole self.now }
    {
        self.unfinished_lines().len()
    }

    /// How many of the call detail records that were given are not on the disk.
    pub fn waiting_records(&self) -> usize
        ensures { LacksLast self.now result }
    {
        self.batch.count() - self.progress.records
    }

    /// The lines of the call detail records that are not on the disk: those of the records that were given last.
    pub fn unfinished_lines(&self) -> &[u8]
        ensures lines { IsUnfinished self.now result.now }
        ensures waiting { result.now ≡ self.now.waiting }
        ensures whole { IsWhole self.now }
    {
        octets_behind(self.batch.octets(), self.progress.octets)
    }

    /// The file.
    pub fn file(&self) -> &F
        ensures taken { F.taken result.now ≡ self.now.taken }
        ensures synced { F.synced result.now ≡ self.now.synced }
        ensures failures { F.failures result.now ≡ self.now.failures }
        ensures filed { AreFiled F.part_of (detail_text self.now.run) self.now.given (F.current result.now) self.now.taken }
    {
        &self.file
    }
}

/// The octets from this place on.
fn octets_behind(octets: &[u8], start: usize) -> &[u8]
    requires { start ≤ length octets.now }
    ensures { result.now ≡ drop start octets.now }
{
    &octets[start..]
}
