//! The lines of a live file of a run that died, and which of their calls have no record.

ghost use Rattle.std.specs.Prelude.{◌≡◌, ◌≤◌, [], ◌++◌, IfOk, IfSome, OnOk, flat_map, length};
ghost use Rattle.std.specs.Io.BufRead.{drop_through, take_through};
ghost use Rattle.xp_live.specs.LeftCalls.{call_name as name_of_call, commas, is_partial_line, joined, left_behind, live_lines, partial_lines, without_record};
ghost use Rattle.xp_live.specs.steps.LeftCalls.{text_in};

use memchr::memchr;
use std::alloc::{AllocError, Global};
use std::io;
use std::io::{BufRead, ErrorKind};
use std::marker::Model;
use xp_cdr::{HEADER, read_moment};

/// How many commas a call detail record has.
const COMMAS: usize = 17;

/// How a whole line of a live file ends.
const END: &[u8] = b",partial\n";

/// A line of a live file.
#[derive(Drop)]
pub struct LiveLine {
    /// The line, with its line feed.
    text: Vec<u8>,
    /// Of which call it is: its first two fields, each with the comma behind it.
    name: Vec<u8>,
}

/// The lines of a live file whose calls have no record, as far as records were seen. Each is the partial record that its call gets.
#[derive(Drop)]
pub struct LeftCalls {
    lines: Vec<LiveLine>,
}

impl Model for LeftCalls {
    ghost use Rattle.std.specs.Prelude.{◌≡◌, All, List, map, ℕ};
    ghost use Rattle.xp_live.specs.LeftCalls.{call_name};

    ghost Value = { List (List ℕ) };

    ghost view = { λ left. map (λ line. line.text.items) left.lines.items };

    ghost invariant = { λ left. All (λ line. line.name.items ≡ call_name line.text.items) left.lines.items };
}

impl LeftCalls {
    /// No line.
    pub fn none(alloc: Global) -> LeftCalls
        ensures { result ≡ [] }
    {
        LeftCalls {
            lines: Vec::new(alloc),
        }
    }

    /// The lines of the text of a live file. `None` where the text is no such text.
    ///
    /// # Errors
    ///
    /// `AllocError` if an allocation fails.
    pub fn read(alloc: Global, text: &[u8]) -> Result<Option<LeftCalls>, AllocError>
        ensures { IfOk result (λ left. left ≡ live_lines text.now) }
    {
        if text.starts_with(HEADER.as_bytes()) {
            read_lines(alloc, &text[HEADER.len()..])
        } else {
            Ok(None)
        }
    }

    /// Lets the lines go whose call this record is of.
    pub fn see(&mut self, row: &[u8])
        ensures { self.new ≡ without_record row.now self.old }
    {
        self.lines
            .retain(|line| !row.starts_with(line.name.as_slice()));
    }

    /// Lets the lines go whose calls have a record among these lines.
    ///
    /// # Errors
    ///
    /// What the reader tells. Then not all of them were seen.
    pub fn see_all<S: BufRead>(&mut self, alloc: Global, records: &mut S) -> io::Result<()>
        ensures { OnOk result (IfSome (S.remaining records.old) (λ text. self.new ≡ left_behind text self.old)) }
    {
        let mut row = Vec::new(alloc);
        for _row in 0..u64::MAX {
            row.clear();
            if records.read_until(b'\n', &mut row)? == 0 {
                return Ok(());
            }
            self.see(row.as_slice());
        }
        Err(io::Error::from(ErrorKind::FileTooLarge))
    }

    /// How many lines there are.
    pub fn count(&self) -> usize
        ensures { result ≡ length self.now }
    {
        self.lines.len()
    }

    /// The lines, one after the other.
    ///
    /// # Errors
    ///
    /// `AllocError` if an allocation fails.
    pub fn text(&self, alloc: Global) -> Result<Vec<u8>, AllocError>
        ensures { IfOk result (λ text. text.items ≡ joined self.now) }
    {
        text_of(alloc, self.lines.as_slice())
    }

    /// When the run began whose calls these are, in seconds since 1970, as the first line says.
    pub fn started(&self) -> Option<u64> {
        let line = self.lines.first()?.text.as_slice();
        let size = memchr(b',', line)?;
        read_moment(&line[..size])
    }
}

/// These lines, one after the other.
fn text_of(alloc: Global, lines: &[LiveLine]) -> Result<Vec<u8>, AllocError>
    ensures { IfOk result (λ text. text.items ≡ flat_map text_in lines.now) }
{
    let mut text = Vec::new(alloc);
    for line in lines {
        text.extend_from_slice(line.text.as_slice())?;
    }
    Ok(text)
}

/// The lines of this text. `None` where one of them is no whole line of a live file.
fn read_lines(alloc: Global, text: &[u8]) -> Result<Option<LeftCalls>, AllocError>
    ensures { IfOk result (λ left. left ≡ partial_lines text.now) }
{
    let mut lines = Vec::new(alloc);
    let mut rest = text;
    while !rest.is_empty() {
        let (line, behind) = cut(b'\n', rest);
        if !is_partial(line) {
            return Ok(None);
        }
        lines.push(live_line(alloc, line)?)?;
        rest = behind;
    }
    Ok(Some(LeftCalls { lines }))
}

/// A line of a live file.
fn live_line(alloc: Global, line: &[u8]) -> Result<LiveLine, AllocError>
    ensures text { IfOk result (λ made. text_in made ≡ line.now) }
    ensures name { IfOk result (λ made. made.name.items ≡ name_of_call line.now) }
{
    let name = call_name(line);
    Ok(LiveLine {
        text: Vec::from_slice(alloc, line)?,
        name: Vec::from_slice(alloc, name)?,
    })
}

/// Whether a line is a whole partial record: it has eighteen fields, and the last is `partial`.
fn is_partial(line: &[u8]) -> bool
    ensures { result ≡ is_partial_line line.now }
{
    line.ends_with(END) && commas_of(line) == COMMAS
}

/// How many commas a line has.
fn commas_of(line: &[u8]) -> usize
    ensures { result ≡ commas line.now }
{
    line.iter().filter(|octet| **octet == b',').count()
}

/// Of which call a line is: its first two fields, each with the comma behind it.
fn call_name(line: &[u8]) -> &[u8]
    ensures { result.now ≡ name_of_call line.now }
{
    let (started, behind) = cut(b',', line);
    let (number, _) = cut(b',', behind);
    &line[..started.len() + number.len()]
}

/// Cuts a text behind the first of these octets. All of it is in front where there is none.
fn cut(octet: u8, text: &[u8]) -> (&[u8], &[u8])
    ensures front { result.0.now ≡ take_through octet text.now }
    ensures behind { result.1.now ≡ drop_through octet text.now }
    ensures whole { result.0.now ++ result.1.now ≡ text.now }
{
    let end = end_of(octet, text);
    (&text[..end], &text[end..])
}

/// How long a text is through the first of these octets.
fn end_of(octet: u8, text: &[u8]) -> usize
    ensures end { result ≡ length (take_through octet text.now) }
    ensures within { result ≤ length text.now }
{
    match memchr(octet, text) {
        Some(place) => place + 1,
        None => text.len(),
    }
}
