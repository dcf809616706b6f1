//! What is told of lines that were served, as a short text.

ghost use Rattle.std.specs.Prelude.{All};
ghost use Rattle.xp_charge.specs.Lines.{HasLines};
ghost use Rattle.xp_subs.specs.Tables.{line_count};

use crate::kept::Kept;
use std::alloc::{AllocError, Global};
use xp_charge::Record;
use xp_lines::EndReason;
use xp_lock::Book;
use xp_subs::Subs;

/// The letter of why a line's thread has ended.
pub fn why_letter(why: EndReason) -> u8 {
    match why {
        EndReason::Turns => b'T',
        EndReason::Halted => b'H',
        EndReason::Journal => b'J',
        EndReason::Port => b'P',
        EndReason::NotStarted => b'N',
        EndReason::Stopped => b'S',
        EndReason::Memory => b'M',
    }
}

/// Adds the lines of charging records.
pub fn tell_records(records: &[Record], subs: &Subs, text: &mut Vec<u8>) -> Result<(), AllocError>
    requires { All (HasLines (line_count subs.now)) records.now }
{
    for ended in records {
        ended.write(subs, text)?;
    }
    Ok(())
}

/// Adds how many entries the book has, what differs from the plans, the charging records that the sink kept, and those that the
/// book still has.
pub fn tell_book(
    alloc: Global,
    book: &Book,
    sink: &Kept,
    text: &mut Vec<u8>,
) -> Result<(), AllocError> {
    let (entries, lines) = (book.count(), book.subs().counts().lines);
    text.extend_from_slice(format!(in alloc; " {entries}")?.as_bytes())?;
    sink.board.tell(alloc, text)?;
    if sink.board.number("taken=", 0) == 1 {
        let (caller, called) = (book.taken(0), book.taken(1));
        let taken = format!(in alloc; " taken {caller} {called}")?;
        text.extend_from_slice(taken.as_bytes())?;
    }
    if (sink.seen_entries, sink.seen_lines) != (entries, lines) {
        text.extend_from_slice(b" not all seen")?;
    }
    text.push(b'\n')?;
    text.extend_from_slice(&sink.text)?;
    tell_records(book.records(), book.subs(), text)
}
