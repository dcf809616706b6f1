//! Printing charging records, each as its call ends.

ghost use Rattle.std.specs.Prelude.{◌≡◌, ◌++◌, [], Ok, flat_map};
ghost use Rattle.xp_cdr.specs.RecordLine.{record_line};
ghost use Rattle.xp_keeping.specs.Printing.{IsPrinted, Prints};
ghost use Rattle.xp_keeping.specs.steps.Printing.{PrintsOn};

use crate::call_keeper::{CallKeeper, count_on};
use crate::keep_fault::KeepFault;
use crate::writing::{flush, write_lines};
use std::alloc::Global;
use std::io::Write;
use std::marker::Model;
use std::snapshot::Snapshot;
use xp_cdr::{EndedCall, write_record};
use xp_past::Past;
use xp_sink::Received;

/// Writes charging records, each as one line. Once memory was wanting or the writer failed, it writes nothing more.
#[derive(Drop)]
pub struct RecordPrinter<W: Write> {
    writer: W,
    /// The room for the text of a record.
    text: Vec<u8>,
    /// Whether memory was wanting, or the writer failed.
    outcome: Result<(), KeepFault>,
    /// How many records were written before that.
    count: usize,
    /// The writer as it was given.
    first: Snapshot<W>,
    /// All calls that it was given.
    given: Past<EndedCall>,
}

impl<W: Write> Model for RecordPrinter<W> {
    ghost use Rattle.xp_keeping.specs.Printing.{HasPrinted, IsPrinted, Printer};

    ghost Value = { Printer };

    ghost view = { λ p. record { given = p.given.items; before = W.contents p.first.value; contents = W.contents p.writer; outcome = p.outcome } };

    ghost invariant = { λ p. IsPrinted (record { given = p.given.items; before = W.contents p.first.value; contents = W.contents p.writer; outcome = p.outcome }) × HasPrinted (record { given = p.given.items; before = W.contents p.first.value; contents = W.contents p.writer; outcome = p.outcome }) p.count };
}

impl<W: Write> RecordPrinter<W> {
    /// The printer that writes on this writer.
    pub fn new(alloc: Global, writer: W) -> RecordPrinter<W>
        ensures { result ≡ record { given = []; before = W.contents writer; contents = W.contents writer; outcome = Ok tt } }
    {
        RecordPrinter {
            text: Vec::new(alloc),
            outcome: Ok(()),
            count: 0,
            first: Snapshot::of(&writer),
            given: Past::new(),
            writer,
        }
    }

    /// Writes the records of further calls, and flushes the writer.
    pub fn print(&mut self, calls: &[EndedCall])
        ensures given { self.new.given ≡ self.old.given ++ calls.now }
        ensures before { self.new.before ≡ self.old.before }
    {
        self.outcome = print_more(self.outcome, calls, &mut self.text, &mut self.writer);
        self.given.extend(calls);
        self.count = count_on(self.count, calls, self.outcome.is_ok());
    }

    /// Returns what came of all records: their text was written, or a front of it.
    ///
    /// # Errors
    ///
    /// `Memory`, `Output`.
    pub fn outcome(&self) -> Result<(), KeepFault>
        ensures outcome { result ≡ self.now.outcome }
        ensures printed { IsPrinted self.now }
    {
        self.outcome
    }

    /// Returns the writer.
    pub fn into_writer(self) -> W
        ensures { W.contents result ≡ self.contents }
    {
        let RecordPrinter {
            writer,
            text: _,
            outcome: _,
            count: _,
            first: _,
            given: _,
        } = self;
        writer
    }
}

impl<W: Write + Drop> CallKeeper for RecordPrinter<W> {
    ghost use Rattle.std.specs.Prelude.{◌≡◌, flat_map};
    ghost use Rattle.std.proofs.Common.{refl, ◌∙◌};
    ghost use Rattle.xp_cdr.specs.RecordLine.{record_line};
    ghost use Rattle.xp_keeping.specs.Printing.{HasPrinted, Prints};

    ghost given = { λ p. p.given };

    ghost keeps = { λ p q. q.before ≡ p.before };

    ghost kept = { λ p calls result. Prints p.before p.contents (flat_map record_line calls) result };

    ghost has_kept = { HasPrinted };

    fn keep(&mut self, calls: Vec<EndedCall>) -> Received {
        self.print(&calls);
        match self.outcome() {
            Ok(()) => Received::GoesOn,
            Err(_) => Received::Stops,
        }
    }

    fn tick(&mut self) -> Received {
        Received::GoesOn
    }

    fn finish(&mut self) -> Result<(), KeepFault> {
        self.outcome()
    }

    fn count_kept(&self) -> usize {
        self.count
    }

    ghost keeps_itself = { λ p. refl };

    ghost keeps_on = { λ p q r first second. second ∙ first };
}

/// Writes the lines of further calls, unless there was a fault before.
fn print_more<W: Write>(
    before: Result<(), KeepFault>,
    calls: &[EndedCall],
    text: &mut Vec<u8>,
    writer: &mut W,
) -> Result<(), KeepFault>
    ensures { PrintsOn before (W.contents writer.old) (W.contents writer.new) (flat_map record_line calls.now) result }
{
    match before {
        Ok(()) => print_records(calls, text, writer),
        Err(fault) => Err(fault),
    }
}

/// Writes the lines of the charging records of calls, in order, and flushes the writer.
///
/// # Errors
///
/// `Memory`, `Output`. Then a front of them is written.
fn print_records<W: Write>(
    calls: &[EndedCall],
    text: &mut Vec<u8>,
    writer: &mut W,
) -> Result<(), KeepFault>
    ensures { Prints (W.contents writer.old) (W.contents writer.new) (flat_map record_line calls.now) result }
{
    for call in calls {
        print_record(call, text, writer)?;
    }
    flush(writer)
}

/// Writes the line of a charging record, which it makes in the room of the one before.
fn print_record<W: Write>(
    call: &EndedCall,
    text: &mut Vec<u8>,
    writer: &mut W,
) -> Result<(), KeepFault>
    ensures { Prints (W.contents writer.old) (W.contents writer.new) (record_line call.now) result }
{
    text.clear();
    write_record(call, text)?;
    write_lines(text, writer)
}
