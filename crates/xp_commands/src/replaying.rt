//! Replaying a script.

use crate::failure::CommandFailure;
use crate::output::{STANDARD_OUTPUT, WatchedWriter, with_reason};
use crate::subscribing::subscriptions_of;
use std::alloc::{AllocError, AllocGlobal, Global};
use std::fs::{File, Files};
use std::io::{BufReader, ErrorKind, Read, Write};
use std::{fs, io};
use xp_arguments::{NamedPath, ReplayForm, ReplayOrder};
use xp_core::ReloadFault;
use xp_exchange::ReplayFault;
use xp_script::NamedTables;
use xp_script_places::{KeptLines, KeptScript, refused_lines, refused_tables, wanted_in};
use xp_subs::Subs;
use xp_tasks::{Task, TaskFailure, perform, subscriptions};
use xp_transcript::{Form, tell};

/// Replays a script from standard input over the subscription file of this name, and tells what comes of it. Lines of the script may
/// bring the subscriptions of other files into force.
pub fn replay_script<R: AllocGlobal + Files<File = File> + Input + Print>(
    rt: &R,
    order: &ReplayOrder<'_>,
    file: &str,
) -> Result<(), CommandFailure> {
    let alloc = rt.alloc();
    let text = fs::read_to_string(rt, file);
    let texts = named_texts(rt, &order.tables)?;
    let named = named_tables(alloc, &order.tables, &texts)?;
    let subs = subscriptions_of(rt, file, &text)?;
    let order_of_play = Play {
        file: &text,
        named: &named,
    };
    let told = match order.form {
        ReplayForm::Digits => return play_script(rt, order_of_play, subs),
        ReplayForm::Words => Told::printed(Form::Words),
        ReplayForm::Ladder => Told::printed(Form::Ladder),
        ReplayForm::Capture(path) => {
            let told = Told {
                form: Form::Capture,
                name: path,
            };
            return match File::create(rt, path) {
                Ok(capture) => tell_script(rt, told, order_of_play, subs, capture),
                Err(error) => Err(with_reason(
                    TaskFailure::Output,
                    format!(in alloc; "{path}: {error}"),
                )),
            };
        }
    };
    tell_script(rt, told, order_of_play, subs, io::writer(rt))
}

/// The texts of these files of subscriptions, in order.
///
/// # Errors
///
/// Those of `subscriptions_of`, for the first of them that sets up nothing.
fn named_texts<R: AllocGlobal + Files<File = File>>(
    rt: &R,
    tables: &[NamedPath<'_>],
) -> Result<Vec<String>, CommandFailure> {
    let mut texts = Vec::new(rt.alloc());
    for named in tables {
        let text = checked_text(rt, named.path)?;
        if texts.push(text).is_err() {
            return Err(CommandFailure::Task(TaskFailure::Memory));
        }
    }
    Ok(texts)
}

/// The text of a file that sets up subscriptions.
fn checked_text<R: AllocGlobal + Files<File = File>>(
    rt: &R,
    path: &str,
) -> Result<String, CommandFailure> {
    let text = fs::read_to_string(rt, path);
    let _subs = subscriptions_of(rt, path, &text)?;
    match text {
        Ok(text) => Ok(text),
        Err(_) => Err(CommandFailure::Task(TaskFailure::File)),
    }
}

/// These texts of subscriptions with their names.
fn named_tables<'a>(
    alloc: Global,
    tables: &'a [NamedPath<'a>],
    texts: &'a [String],
) -> Result<Vec<NamedTables<'a>>, CommandFailure> {
    let mut named = Vec::new(alloc);
    for (tables, text) in tables.iter().zip(texts) {
        let tables = NamedTables::new(alloc, tables.name, text).map_err(TaskFailure::from)?;
        if named.push(tables).is_err() {
            return Err(CommandFailure::Task(TaskFailure::Memory));
        }
    }
    Ok(named)
}

/// What a script is played over.
#[derive(Clone, Copy)]
struct Play<'a, 'n> {
    /// The text of the subscription file.
    file: &'a io::Result<String>,
    /// The subscriptions that lines may bring into force.
    named: &'a [NamedTables<'n>],
}

/// How a history is told, and what it is written on.
#[derive(Clone, Copy)]
struct Told<'a> {
    form: Form,
    /// The name of the file, or that of standard output.
    name: &'a str,
}

impl Told<'_> {
    /// A history that is printed in this form.
    fn printed(form: Form) -> Told<'static> {
        Told {
            form,
            name: STANDARD_OUTPUT,
        }
    }
}

/// Replays a script from standard input, and prints the frames that the exchange puts out and its records.
fn play_script<R: AllocGlobal + Input + Print>(
    rt: &R,
    play: Play<'_, '_>,
    subs: Subs,
) -> Result<(), CommandFailure> {
    let alloc = rt.alloc();
    let reader = BufReader::new(alloc, rt.reader()).map_err(|_| TaskFailure::Memory)?;
    let mut lines = KeptLines::new(alloc, reader, !play.named.is_empty());
    let mut writer = WatchedWriter::buffered(alloc, io::writer(rt))?;
    match perform(
        alloc,
        Task::Replay,
        subs,
        play.named,
        &mut lines,
        &mut writer,
    ) {
        Ok(()) => Ok(()),
        Err(failure) => Err(
            match writer.get_ref().explained(alloc, failure, STANDARD_OUTPUT) {
                CommandFailure::Task(failure) => {
                    with_wanted(alloc, failure, play, lines.script())
                }
                explained => explained,
            },
        ),
    }
}

/// Replays a script from standard input, and tells its history so.
fn tell_script<R: AllocGlobal + Input, W: Write + Drop>(
    rt: &R,
    told: Told<'_>,
    play: Play<'_, '_>,
    subs: Subs,
    writer: W,
) -> Result<(), CommandFailure> {
    let alloc = rt.alloc();
    let script = whole_script(rt)?;
    let mut writer = WatchedWriter::buffered(alloc, writer)?;
    match tell(
        alloc,
        told.form,
        subs,
        play.named,
        script.as_slice(),
        &mut writer,
    ) {
        Ok(()) => Ok(()),
        Err(fault) => {
            let failure = TaskFailure::Replay(fault);
            Err(
                match writer.get_ref().explained(alloc, failure, told.name) {
                    CommandFailure::Task(failure) => {
                        with_wanted(alloc, failure, play, KeptScript::whole(&script))
                    }
                    explained => explained,
                },
            )
        }
    }
}

/// The whole script from standard input.
fn whole_script<R: AllocGlobal + Input>(rt: &R) -> Result<Vec<u8>, TaskFailure> {
    let mut script = Vec::new(rt.alloc());
    match rt.reader().read_to_end(&mut script) {
        Ok(_) => Ok(script),
        Err(error) if error.kind() == ErrorKind::OutOfMemory => Err(TaskFailure::Memory),
        Err(_) => Err(TaskFailure::Replay(ReplayFault::Read)),
    }
}

/// This failure of a replay. Where the script has a faulty line, what was wanted there is told with it. Where subscriptions that a line
/// names cannot come into force it is told why.
fn with_wanted(
    alloc: Global,
    failure: TaskFailure,
    play: Play<'_, '_>,
    script: KeptScript<'_>,
) -> CommandFailure {
    let TaskFailure::Replay(fault) = failure else {
        return CommandFailure::Task(failure);
    };
    let Ok(opening) = subscriptions(alloc, play.file) else {
        return CommandFailure::Task(failure);
    };
    match fault {
        ReplayFault::Script(number) => with_reason(
            failure,
            match script.force_at(alloc, opening, play.named, number) {
                Ok(force) => wanted_in(alloc, &force, play.named, script, number),
                Err(error) => Err(error),
            },
        ),
        ReplayFault::Lay(number, tables) => refused(
            failure,
            lines_refused_in(alloc, opening, play.named, script, number, tables),
        ),
        ReplayFault::Reload(number, tables, why) => refused(
            failure,
            match script.force_at(alloc, opening, play.named, number) {
                Ok(force) => tables_refused(alloc, &force, play.named, tables, why),
                Err(error) => Err(error),
            },
        ),
        _ => CommandFailure::Task(failure),
    }
}

/// Why the lines of these subscriptions have no places at the line of this number.
fn lines_refused_in(
    alloc: Global,
    opening: Subs,
    named: &[NamedTables<'_>],
    script: KeptScript<'_>,
    number: u64,
    tables: usize,
) -> Result<String, AllocError> {
    let force = script.force_at(alloc, opening, named, number)?;
    let Some(tables) = named.get(tables) else {
        return Err(AllocError);
    };
    match tables.laid_over(&force) {
        Ok(_) => Err(AllocError),
        Err(fault) => refused_lines(alloc, tables.name(), &fault),
    }
}

/// Why these subscriptions cannot come into force.
fn tables_refused(
    alloc: Global,
    force: &Subs,
    named: &[NamedTables<'_>],
    tables: usize,
    why: ReloadFault,
) -> Result<String, AllocError> {
    match named.get(tables) {
        Some(tables) => refused_tables(alloc, force, tables, why),
        None => Err(AllocError),
    }
}

/// This failure of a replay, with why subscriptions cannot come into force if there was memory for the text of that.
fn refused(failure: TaskFailure, reason: Result<String, AllocError>) -> CommandFailure {
    match reason {
        Ok(reason) => CommandFailure::Refused(failure, reason),
        Err(_) => CommandFailure::Task(failure),
    }
}
