//! Reading the subscription file, and where a refused one has its fault.

ghost use Rattle.std.specs.Prelude.{IfOk, Ok, string_bytes};
ghost use Rattle.std.specs.IoError.{error_kind};
ghost use Rattle.std.specs.Result.{result_map_both};
ghost use Rattle.xp_tasks.specs.SetUp.{SetsUp};

use crate::failure::CommandFailure;
use crate::output::with_reason;
use std::alloc::{AllocError, AllocGlobal, Global};
use std::fs::{File, Files};
use std::io::ErrorKind;
use std::{fs, io};
use xp_arguments::{FileSource, refused as refused_word};
use xp_places::place_of;
use xp_subs::Subs;
use xp_tasks::{TaskFailure, subscriptions};

/// The text of the subscription file that a word names, which may be standard input.
pub fn file_text<R: AllocGlobal + Files<File = File> + Input>(
    rt: &R,
    word: &str,
) -> io::Result<String> {
    match FileSource::of(word) {
        FileSource::StandardInput => io::read_to_string(rt.alloc(), rt.reader()),
        FileSource::Named(name) => fs::read_to_string(rt, name),
    }
}

/// The name of the subscription file that a word names, where standard input is taken for this.
///
/// # Errors
///
/// `Arguments` where the word names standard input, and want of memory.
pub fn named_file<'a>(
    alloc: Global,
    word: &'a str,
    input: &str,
) -> Result<&'a str, CommandFailure> {
    match FileSource::of(word) {
        FileSource::Named(name) => Ok(name),
        FileSource::StandardInput => {
            let reason = format!(in alloc; "the name of a FILE is wanted, found -: {input}")?;
            Err(CommandFailure::from(refused_word(alloc, &reason)?))
        }
    }
}

/// The subscriptions that a file sets up, of which a word of the command line names this text.
///
/// # Errors
///
/// Those of [`subscriptions`], as `Explained` where it is found why the file was not read, or where its text has the fault.
pub fn subscriptions_of<R: AllocGlobal + Files<File = File>>(
    rt: &R,
    word: &str,
    text: &io::Result<String>,
) -> Result<Subs, CommandFailure>
    ensures { IfOk result (λ subs. SetsUp (result_map_both string_bytes error_kind text.now) (Ok subs)) }
{
    match subscriptions(rt.alloc(), text) {
        Ok(subs) => Ok(subs),
        Err(failure) => Err(explained(rt, word, text, failure)),
    }
}

/// This failure, with why the file was not read, or the place of the fault in its text.
fn explained<R: AllocGlobal + Files<File = File>>(
    rt: &R,
    word: &str,
    text: &io::Result<String>,
    failure: TaskFailure,
) -> CommandFailure {
    match (text, failure) {
        (Ok(text), TaskFailure::Subscriptions(fault)) => {
            with_reason(failure, place_of(rt.alloc(), text, fault))
        }
        (Err(error), TaskFailure::File) => with_reason(failure, unread(rt, word, error)),
        _ => CommandFailure::Task(failure),
    }
}

/// Why the file that a word names was not read, such as `/etc/xp/a.toml: No such file or directory (os error 2)`.
fn unread<R: AllocGlobal + Files<File = File>>(
    rt: &R,
    word: &str,
    error: &io::Error,
) -> Result<String, AllocError> {
    let alloc = rt.alloc();
    let name = match FileSource::of(word) {
        FileSource::StandardInput if error.kind() == ErrorKind::InvalidData => {
            return String::from_str(alloc, "standard input: not UTF-8");
        }
        FileSource::StandardInput => {
            return format!(in alloc; "standard input: {error}");
        }
        FileSource::Named(name) => name,
    };
    match faulty_line(rt, name, error) {
        Some(line) => format!(in alloc; "{name}: not UTF-8 in line {line}"),
        None => format!(in alloc; "{name}: {error}"),
    }
}

/// The first line of a file that is not UTF-8, where the file was not read for this.
fn faulty_line<R: AllocGlobal + Files<File = File>>(
    rt: &R,
    name: &str,
    error: &io::Error,
) -> Option<usize> {
    if error.kind() != ErrorKind::InvalidData {
        return None;
    }
    let octets = fs::read(rt, name).ok()?;
    let fault = str::from_utf8(&octets).err()?;
    let valid = octets.iter().take(fault.valid_up_to());
    let above = valid.filter(|octet| **octet == b'\n').count();
    Some(above.saturating_add(1))
}
