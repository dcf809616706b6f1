//! A whole script, replayed and told.

ghost use Rattle.std.specs.Prelude.{◌≡◌, ℕ, List, IfErr, IfOk, IfSome};
ghost use Rattle.std.specs.Io.KnownBytes.{Appends, Keeps};
ghost use Rattle.std.specs.declared.alloc.Global.{Global as Alloc};
ghost use Rattle.xp_exchange.specs.declared.fault.ReplayFault.TheVariants.{Write as FailedToWrite};
ghost use Rattle.xp_transcript.specs.Telling.{Transcribes, TranscribesFrom};
ghost use Rattle.xp_transcript.specs.steps.Telling.{IsUnread, WritesFront};

use crate::form::Form;
use crate::opening::open;
use crate::teller::push_front;
use crate::transcript::Transcript;
use std::alloc::Global;
use std::io;
use std::io::{ErrorKind, Read, Write};
use xp_exchange::{ReplayFault, write_out};
use xp_script::NamedTables;
use xp_subs::Subs;

/// Replays a script to an exchange of these subscriptions, and tells its history in a form. Its lines may bring the named
/// subscriptions into force. The whole script is read first.
/// What is written is flushed.
///
/// # Errors
///
/// What is told of the lines before the fault is written whole, and nothing of those behind it. Of the line itself:
///
/// - `Script`, with the number of the line: it is not a line of a script, and nothing is told of it.
/// - `Lay` or `Reload`, with the number of the line: the subscriptions that it names cannot come into force now, and nothing is
///   told of it.
/// - `Journal`, `Memory`, `Write`: what is told of its first events is written, or a front of that. They may be none.
///
/// `Read`: the reader failed, and nothing is written. Without memory to begin nothing is written either.
pub fn tell<R: Read + Drop, W: Write>(
    alloc: Global,
    form: Form,
    subs: Subs,
    named: &[NamedTables<'_>],
    reader: R,
    writer: &mut W,
) -> Result<(), ReplayFault>
    ensures { IfSome (R.remaining reader) (λ script. (text : List ℕ) × Appends (W.contents writer.old) (W.contents writer.new) text × Transcribes Alloc form subs named.now script result text) }
{
    match read_script(alloc, reader) {
        Ok(script) => tell_script(alloc, form, subs, named, &script, writer),
        Err(fault) => Err(fault),
    }
}

/// Tells a script that was read.
fn tell_script<W: Write>(
    alloc: Global,
    form: Form,
    subs: Subs,
    named: &[NamedTables<'_>],
    script: &[u8],
    writer: &mut W,
) -> Result<(), ReplayFault>
    ensures { (text : List ℕ) × Appends (W.contents writer.old) (W.contents writer.new) text × Transcribes Alloc form subs named.now script.now result text }
{
    match open(alloc, form, subs, named) {
        Ok(mut transcript) => {
            let ended = tell_from(alloc, form, &mut transcript, script, writer);
            drop(transcript);
            ended
        }
        Err(fault) => Err(fault),
    }
}

/// Tells a script, behind what stands in front of all entries.
fn tell_from<W: Write>(
    alloc: Global,
    form: Form,
    transcript: &mut Transcript<'_, '_>,
    script: &[u8],
    writer: &mut W,
) -> Result<(), ReplayFault>
    ensures { (text : List ℕ) × Appends (W.contents writer.old) (W.contents writer.new) text × TranscribesFrom form transcript.old script.now result text }
{
    write_front(alloc, form, writer)?;
    transcript.tell_script(script, writer)?;
    hand_on(writer)
}

/// Reads a whole script.
fn read_script<R: Read + Drop>(alloc: Global, mut reader: R) -> Result<Vec<u8>, ReplayFault>
    ensures octets { IfSome (R.remaining reader) (λ octets. IfOk result (λ script. script.items ≡ octets)) }
    ensures refused { IfErr result IsUnread }
{
    let mut script = Vec::new(alloc);
    match reader.read_to_end(&mut script) {
        Ok(_) => Ok(script),
        Err(error) if error.kind() == ErrorKind::OutOfMemory => Err(ReplayFault::Memory),
        Err(_) => Err(ReplayFault::Read),
    }
}

/// Writes what stands in front of all entries.
fn write_front<W: Write>(alloc: Global, form: Form, writer: &mut W) -> Result<(), ReplayFault>
    ensures { (text : List ℕ) × Appends (W.contents writer.old) (W.contents writer.new) text × WritesFront form result text }
{
    let mut front = Vec::new(alloc);
    push_front(form, &mut front)?;
    write_out(writer, &front)
}

/// Flushes the writer.
fn hand_on<W: Write>(writer: &mut W) -> Result<(), ReplayFault>
    ensures same { Keeps (W.contents writer.old) (W.contents writer.new) }
    ensures refused { IfErr result (λ fault. fault ≡ FailedToWrite) }
{
    writer.flush().map_err(|_| ReplayFault::Write)
}
