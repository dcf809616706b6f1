//! Rows, as their folders have them.

use std::io::ErrorKind;
use std::rt::Files;
use std::{fs, io};
use xp_tasks::Task;

/// A subscription file that a script may bring into force.
#[derive(Drop)]
pub struct TablesFile {
    pub name: String,
    pub text: String,
}

/// What is done, and what is to come of it.
#[derive(Drop)]
pub struct Row {
    pub task: Task,
    /// The name of the subscription file, which need not be there.
    pub file: String,
    pub script: Vec<u8>,
    /// The subscription files that the script may bring into force, with their names.
    pub tables: Vec<TablesFile>,
    /// The text that is to be written.
    pub text: Vec<u8>,
    /// The exit status that the program ends with.
    pub status: Vec<u8>,
    /// What it tells on standard error, without the line feed.
    pub told: Vec<u8>,
    /// Whether it is done with ample memory alone.
    pub once: bool,
}

impl Row {
    /// Reads the row of this folder. Without a file `script` nothing is read, without `status` it is 0, without `stderr`
    /// nothing is told. A file `check` asks for the subscription file to be checked, and a file `once` for ample memory
    /// alone. The script may bring the subscription files of the folder `tables` into force, each by its name there.
    pub fn read<R: AllocGlobal + Files + Clone + Drop>(rt: &R, folder: &str) -> io::Result<Row> {
        let alloc = rt.alloc();
        Ok(Row {
            task: match fs::exists(rt, format!(in alloc; "{folder}/check")?.as_str())? {
                true => Task::Check,
                false => Task::Replay,
            },
            file: format!(in alloc; "{folder}/subs.toml")?,
            script: octets_of(rt, folder, "script")?.unwrap_or(Vec::new(alloc)),
            tables: tables_of(rt, folder)?,
            text: fs::read(rt, format!(in alloc; "{folder}/expected")?.as_str())?,
            status: line_of(rt, folder, "status", "0")?,
            told: line_of(rt, folder, "stderr", "")?,
            once: fs::exists(rt, format!(in alloc; "{folder}/once")?.as_str())?,
        })
    }
}

/// The files of the folder `tables` in a folder, if it is there, in the order of their names.
fn tables_of<R: AllocGlobal + Files + Clone + Drop>(
    rt: &R,
    folder: &str,
) -> io::Result<Vec<TablesFile>> {
    let alloc = rt.alloc();
    let mut files = Vec::new(alloc);
    let folder = format!(in alloc; "{folder}/tables")?;
    if !fs::exists(rt, folder.as_str())? {
        return Ok(files);
    }
    for name in names_in(rt, &folder)? {
        let text = fs::read_to_string(rt, format!(in alloc; "{folder}/{name}")?.as_str())?;
        files.push(TablesFile { name, text })?;
    }
    Ok(files)
}

/// The names of the files in a folder, in order.
fn names_in<R: AllocGlobal + Files + Clone + Drop>(
    rt: &R,
    folder: &str,
) -> io::Result<Vec<String>> {
    let mut names = Vec::new(rt.alloc());
    for entry in fs::read_dir(rt, folder)? {
        names.push(String::from_str(rt.alloc(), entry?.file_name())?)?;
    }
    names.sort()?;
    Ok(names)
}

/// The octets of a file in a folder, if it is there.
fn octets_of<R: AllocGlobal + Files>(
    rt: &R,
    folder: &str,
    name: &str,
) -> io::Result<Option<Vec<u8>>> {
    let path = format!(in rt.alloc(); "{folder}/{name}")?;
    match fs::read(rt, path.as_str()) {
        Ok(octets) => Ok(Some(octets)),
        Err(error) if error.kind() == ErrorKind::NotFound => Ok(None),
        Err(error) => Err(error),
    }
}

/// The one line of a file in a folder, without its line feed; this one if the file is not there.
fn line_of<R: AllocGlobal + Files>(
    rt: &R,
    folder: &str,
    name: &str,
    absent: &str,
) -> io::Result<Vec<u8>> {
    match octets_of(rt, folder, name)? {
        Some(mut octets) => {
            if octets.last() == Some(&b'\n') {
                octets.pop();
            }
            Ok(octets)
        }
        None => Ok(Vec::from_slice(rt.alloc(), absent.as_bytes())?),
    }
}
