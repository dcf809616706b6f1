//! Writing what lines receive and send to a capture file.

ghost use Rattle.std.specs.Prelude.{◌≡◌, [], flat_map};
ghost use Rattle.xp_capture.specs.FileHeader.{file_header};
ghost use Rattle.xp_keeping.specs.Printing.{Prints};
ghost use Rattle.xp_tracing.specs.declared.tracing.TraceFault.TheVariants.{Memory as OutOfMemory};
ghost use Rattle.xp_trace.specs.Pieces.{piece_octets};

use std::alloc::{AllocError, Global};
use std::io::Write;
use std::sync::Arc;
use thiserror::Error;
use xp_capture::write_file_header;
use xp_door::Trace;
use xp_trace::{Piece, WaitingPieces, write_piece};
use xp_writing::write_out;

/// Why nothing more is written to a capture file.
#[derive(Debug, Drop, Error)]
pub enum TraceFault {
    #[error("cannot be written")]
    Write,
    #[error("out of memory")]
    Memory,
}

impl From<AllocError> for TraceFault {
    ghost from_gives = { λ _ fault. fault ≡ OutOfMemory };

    fn from(_refused: AllocError) -> TraceFault {
        TraceFault::Memory
    }
}

/// Writes what the lines of a trace receive and send to a capture file.
#[derive(Drop)]
pub struct TraceWriter<W: Write> {
    trace: Arc<Trace>,
    output: W,
    /// The pieces that are written in one look. Between two looks there are none.
    taken: WaitingPieces,
    /// Room for what one piece adds to the file.
    room: Vec<u8>,
}

impl<W: Write + Drop> TraceWriter<W> {
    /// Writes on this output what goes into the trace.
    ///
    /// # Errors
    ///
    /// `Memory`.
    pub fn new(alloc: Global, trace: Arc<Trace>, output: W) -> Result<TraceWriter<W>, TraceFault> {
        Ok(TraceWriter {
            trace,
            output,
            taken: WaitingPieces::new(alloc)?,
            room: Vec::new(alloc),
        })
    }

    /// Writes the header of the file.
    ///
    /// # Errors
    ///
    /// `Memory`, `Write`. Then a front of it is written.
    pub fn begin(&mut self) -> Result<(), TraceFault>
        ensures { Prints (W.contents self.old.output) (W.contents self.new.output) file_header result }
    {
        self.room.clear();
        write_file_header(&mut self.room)?;
        write_all(&mut self.output, self.room.as_slice())?;
        flush(&mut self.output)
    }

    /// Writes the pieces that wait, with this moment, in seconds since 1970. After a failure nothing is traced any more.
    ///
    /// # Errors
    ///
    /// `Memory`, `Write`.
    pub fn write_waiting(&mut self, moment: u64) -> Result<(), TraceFault> {
        if self.trace.is_stopped() {
            return Ok(());
        }
        self.trace.exchange(&mut self.taken);
        let written = self.write_taken(moment);
        self.taken.clear();
        if written.is_err() {
            self.trace.stop();
        }
        written
    }

    /// Traces nothing any more.
    pub fn stop(&self) {
        self.trace.stop();
    }

    /// How many octets of traced lines were left out so far.
    pub fn left_out(&self) -> u64 {
        self.trace.left_out()
    }

    /// The output.
    pub fn into_output(self) -> W {
        let TraceWriter {
            trace: _,
            output,
            taken: _,
            room: _,
        } = self;
        output
    }

    /// Writes the pieces that were taken, if there are any.
    fn write_taken(&mut self, moment: u64) -> Result<(), TraceFault> {
        let pieces = self.taken.pieces();
        if pieces.is_empty() {
            return Ok(());
        }
        write_pieces(&mut self.output, &mut self.room, moment, pieces)
    }
}

/// Writes what pieces add to a capture file at this moment, in seconds since 1970, in order, and flushes the output. Each is made in
/// the room.
///
/// # Errors
///
/// `Memory`, `Write`. Then a front of it is written.
pub fn write_pieces<W: Write>(
    output: &mut W,
    room: &mut Vec<u8>,
    moment: u64,
    pieces: &[Piece],
) -> Result<(), TraceFault>
    ensures { Prints (W.contents output.old) (W.contents output.new) (flat_map (piece_octets moment) pieces.now) result }
{
    for piece in pieces {
        write_one(output, room, moment, piece)?;
    }
    flush(output)
}

/// Writes what a piece adds to a capture file.
fn write_one<W: Write>(
    output: &mut W,
    room: &mut Vec<u8>,
    moment: u64,
    piece: &Piece,
) -> Result<(), TraceFault>
    ensures { Prints (W.contents output.old) (W.contents output.new) (piece_octets moment piece.now) result }
{
    room.clear();
    write_piece(room, moment, piece)?;
    write_all(output, room.as_slice())
}

/// Writes octets.
fn write_all<W: Write>(output: &mut W, octets: &[u8]) -> Result<(), TraceFault>
    ensures { Prints (W.contents output.old) (W.contents output.new) octets.now result }
{
    match write_out(output, octets) {
        Ok(()) => Ok(()),
        Err(_) => Err(TraceFault::Write),
    }
}

/// Flushes an output.
fn flush<W: Write>(output: &mut W) -> Result<(), TraceFault>
    ensures { Prints (W.contents output.old) (W.contents output.new) [] result }
{
    match output.flush() {
        Ok(()) => Ok(()),
        Err(_) => Err(TraceFault::Write),
    }
}
