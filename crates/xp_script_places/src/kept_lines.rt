ghost use Rattle.std.specs.Prelude.{◌≡◌};

use crate::kept_script::{KeptScript, LINE_FEED};
use memchr::memrchr;
use std::alloc::{AllocError, Global};
use std::io;
use std::io::Read;
use std::marker::Model;
use xp_script::MAX_LINE_OCTETS;

/// What a line begins with that brings subscriptions into force.
const TABLES: &[u8] = b"tables ";

/// A reader of a script that keeps the last lines which it gave: those of its last read, from the beginning of the line that the read
/// before left unfinished. Of the lines before these it keeps those that bring subscriptions into force, where lines may. It gives what
/// the reader within gives.
#[derive(Drop)]
pub struct KeptLines<R> {
    reader: R,
    /// Whether lines may bring subscriptions into force.
    may_bring: bool,
    /// The lines before the last ones that bring subscriptions into force.
    brought: Vec<u8>,
    /// The last lines.
    octets: Vec<u8>,
    /// How many lines were finished before the last lines, counted where lines may bring subscriptions into force.
    finished: u64,
    /// Whether memory was found for all of them so far.
    is_whole: bool,
}

impl<R> Model for KeptLines<R> {
    ghost Value = { R };

    ghost view = { λ lines. lines.reader };
}

impl<R> KeptLines<R> {
    /// A reader that has given nothing yet, of a script whose lines may bring subscriptions into force, or may not.
    pub fn new(alloc: Global, reader: R, may_bring: bool) -> KeptLines<R>
        ensures { result ≡ reader }
    {
        KeptLines {
            reader,
            may_bring,
            brought: Vec::new(alloc),
            octets: Vec::new(alloc),
            finished: 0,
            is_whole: true,
        }
    }

    /// What is kept of the script, of which the last line may be unfinished. Empty where memory was wanting. No contract says which lines
    /// they are.
    pub fn script(&self) -> KeptScript<'_> {
        if self.is_whole {
            KeptScript {
                brought: &self.brought,
                lines: &self.octets,
                first: self.may_bring.then_some(self.finished.saturating_add(1)),
            }
        } else {
            KeptScript::whole(&[])
        }
    }

    /// Forgets the lines that are finished, but for those that bring subscriptions into force.
    fn forget_finished(&mut self)
        ensures { self.new ≡ self.old }
    {
        if let Some(end) = memrchr(LINE_FEED, &self.octets) {
            if self.may_bring {
                let finished = &self.octets[..end];
                let is_kept = keep_brought(&mut self.brought, finished, &mut self.finished);
                self.is_whole = self.is_whole && is_kept;
            }
            let rest = self.octets.len() - end - 1;
            self.octets.copy_within(end + 1.., 0);
            self.octets.truncate(rest);
        }
    }

    /// Keeps these octets, except behind so many that the line is too long anyway.
    fn keep(&mut self, octets: &[u8])
        ensures { self.new ≡ self.old }
    {
        if self.octets.len() <= MAX_LINE_OCTETS {
            self.is_whole = self.is_whole && self.octets.extend_from_slice(octets).is_ok();
        }
    }
}

/// Adds those of these lines that bring subscriptions into force, and counts all of them. Returns whether memory was found.
fn keep_brought(brought: &mut Vec<u8>, lines: &[u8], count: &mut u64) -> bool {
    for line in lines.split(|octet| *octet == LINE_FEED) {
        *count = count.saturating_add(1);
        if !keep_if_brought(brought, line) {
            return false;
        }
    }
    true
}

/// Adds a line, if it brings subscriptions into force. Returns whether memory was found.
fn keep_if_brought(brought: &mut Vec<u8>, line: &[u8]) -> bool {
    !line.starts_with(TABLES) || push_line(brought, line).is_ok()
}

/// Adds a line.
fn push_line(lines: &mut Vec<u8>, line: &[u8]) -> Result<(), AllocError> {
    lines.extend_from_slice(line)?;
    lines.push(LINE_FEED)?;
    Ok(())
}

impl<R: Read> Read for KeptLines<R> {
    ghost remaining = { R.remaining };

    fn read(&mut self, buffer: &mut [u8]) -> io::Result<usize> {
        self.forget_finished();
        let count = self.reader.read(buffer)?;
        self.keep(&buffer[..count]);
        Ok(count)
    }
}
