//! What lines receive and send, on its way to a capture file.

use crate::locks::hold;
use std::alloc::{AllocError, Global};
use std::mem;
use std::sync::Mutex;
use std::sync::atomic::Ordering::SeqCst;
use std::sync::atomic::{AtomicBool, AtomicU32, AtomicU64};
use xp_subs::LineNo;
use xp_trace::{Piece, TracedLines, WaitingPieces};

/// What traced lines receive and send, as pieces that wait to be taken. The threads of the lines put them there, and never wait: a
/// piece for which there is no room is left out, which is counted.
#[derive(Drop)]
pub struct Trace {
    lines: TracedLines,
    numbers: Vec<LineNumber>,
    waiting: Mutex<WaitingPieces>,
    /// How many octets were left out.
    left_out: AtomicU64,
    is_stopped: AtomicBool,
}

/// What is known of the number of a line.
#[derive(Drop)]
struct LineNumber {
    /// How many connections the line has had.
    connections: AtomicU32,
    /// Whether another line has taken the number, or none has it any more.
    is_gone: AtomicBool,
}

/// So many numbers of lines that have had no connection.
fn numbers_of_lines(alloc: Global, count: usize) -> Result<Vec<LineNumber>, AllocError> {
    let mut numbers = Vec::with_capacity(alloc, count)?;
    for _line in 0..count {
        numbers.push(LineNumber {
            connections: AtomicU32::new(0),
            is_gone: AtomicBool::new(false),
        })?;
    }
    Ok(numbers)
}

impl Trace {
    /// The trace of these lines, of so many that there are.
    pub fn new(alloc: Global, lines: TracedLines, count: usize) -> Result<Trace, AllocError> {
        let numbers = numbers_of_lines(alloc, count)?;
        let waiting = WaitingPieces::new(alloc)?;
        Ok(Trace {
            lines,
            numbers,
            waiting: Mutex::new(waiting),
            left_out: AtomicU64::new(0),
            is_stopped: AtomicBool::new(false),
        })
    }

    /// The number of a line's next connection. `None` where the line is not traced, or no line is any more.
    pub(crate) fn next_connection(&self, line: LineNo) -> Option<u32> {
        if self.is_stopped() || !self.lines.includes(line) {
            return None;
        }
        let number = self.numbers.get(usize::from(line))?;
        if number.is_gone.load(SeqCst) {
            return None;
        }
        Some(number.connections.fetch_add(1, SeqCst))
    }

    /// The line with this number is gone: where lines were named to be traced, another one that takes the number is not.
    pub(crate) fn line_goes(&self, line: LineNo) {
        if let TracedLines::Named(_) = &self.lines {
            if let Some(number) = self.numbers.get(usize::from(line)) {
                number.is_gone.store(true, SeqCst);
            }
        }
    }

    /// Puts a piece behind those that wait. Whether it could: there was room, and no other threads kept the pieces for too long.
    pub(crate) fn put(&self, piece: Piece) -> bool {
        match hold(&self.waiting) {
            Some(mut waiting) => waiting.put(piece),
            None => false,
        }
    }

    /// Counts octets that were left out.
    pub(crate) fn leave_out(&self, octets: usize) {
        self.left_out.fetch_add(octets as u64, SeqCst);
    }

    /// Takes the pieces that wait, in exchange for these. Both are as they were where other threads keep the pieces for too long.
    pub fn exchange(&self, pieces: &mut WaitingPieces) {
        if let Some(mut waiting) = hold(&self.waiting) {
            mem::swap(&mut *waiting, pieces);
        }
    }

    /// How many octets of traced lines were left out so far.
    pub fn left_out(&self) -> u64 {
        self.left_out.load(SeqCst)
    }

    /// Nothing is traced any more.
    pub fn stop(&self) {
        self.is_stopped.store(true, SeqCst);
    }

    /// Whether nothing is traced any more.
    pub fn is_stopped(&self) -> bool {
        self.is_stopped.load(SeqCst)
    }
}
