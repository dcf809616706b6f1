//! The file of live calls.

use crate::kept_text::KeptText;
use crate::live_fault::LiveFault;
use std::alloc::Global;
use std::fs::{File, Files, Metadata, TryLockError};
use std::io::{ErrorKind, Read, Write};
use std::os::unix::fs::MetadataExt;
use std::path::Path;
use std::{fs, io};

/// What stands behind the path of the file that is written before it takes the place of the last one.
const BEHIND_NEW: &str = ".new";

/// How often the file is opened anew where another took its place meanwhile.
const MOST_TRIES: usize = 10;

/// A file that each write replaces as a whole, with the live calls as they were seen.
pub trait WholeFile: Drop {
    /// Has the file hold this text, on the disk.
    ///
    /// # Errors
    ///
    /// What the system tells. Then the file holds this text or the last one, whole.
    fn replace(&mut self, text: &KeptText) -> io::Result<()>;
}

/// A file that is replaced as a whole by each write: whoever reads it, also after a loss of power, finds a text that was written
/// whole. No other exchange can open it while this one has it.
#[derive(Drop)]
pub struct LiveFile<R: Files<File = File>> {
    rt: R,
    path: String,
    /// Where a text is written before it takes the place of the last one.
    new_path: String,
    /// The handle of the file that lies at the path, which holds the lock. There is none where no file lay there, and none was
    /// written yet.
    locked: Option<File>,
}

impl<R: Files<File = File> + Drop> LiveFile<R> {
    /// Opens the file at this path, which need not be there, and reads it.
    ///
    /// # Errors
    ///
    /// Why not.
    pub fn open(alloc: Global, rt: R, path: &str) -> Result<(LiveFile<R>, Vec<u8>), LiveFault> {
        let own_path = own(alloc, path, "").map_err(LiveFault::Open)?;
        let new_path = own(alloc, path, BEHIND_NEW).map_err(LiveFault::Open)?;
        let locked = open_locked(&rt, path)?;
        let text = text_of(alloc, &locked).map_err(LiveFault::Read)?;
        let file = LiveFile {
            rt,
            path: own_path,
            new_path,
            locked,
        };
        Ok((file, text))
    }

    /// A new file beside it that holds this text, on the disk.
    fn written(&self, text: &[u8]) -> io::Result<File> {
        let mut file = File::options()
            .read(true)
            .write(true)
            .create(true)
            .open(&self.rt, self.new_path.as_str())?;
        file.try_lock()?;
        file.set_len(0)?;
        file.write_all(text)?;
        file.sync_all()?;
        Ok(file)
    }

    /// Whether no file lies at the path but the one that this exchange has.
    fn is_own(&self) -> io::Result<bool> {
        match fs::metadata(&self.rt, self.path.as_str()) {
            Ok(there) => match &self.locked {
                Some(file) => Ok(is_same(&there, &file.metadata()?)),
                None => Ok(false),
            },
            Err(error) if error.kind() == ErrorKind::NotFound => Ok(true),
            Err(error) => Err(error),
        }
    }
}

impl<R: Files<File = File> + Drop> WholeFile for LiveFile<R> {
    fn replace(&mut self, text: &KeptText) -> io::Result<()> {
        if !self.is_own()? {
            return Err(io::Error::from(ErrorKind::AlreadyExists));
        }
        let file = self.written(text.as_slice())?;
        fs::rename(&self.rt, self.new_path.as_str(), self.path.as_str())?;
        self.locked = Some(file);
        File::open(&self.rt, directory_of(self.path.as_str()))?.sync_all()
    }
}

/// A path of its own, with this behind it.
fn own(alloc: Global, path: &str, behind: &str) -> io::Result<String> {
    let mut own = path.to_string(alloc)?;
    own.push_str(behind)?;
    Ok(own)
}

/// The directory in which a file of this path lies.
fn directory_of(path: &str) -> &str {
    match Path::new(path).parent() {
        Some(parent) if !parent.as_str().is_empty() => parent.as_str(),
        _ => ".",
    }
}

/// Opens and locks the file at this path, if there is one.
fn open_locked<R: Files<File = File>>(rt: &R, path: &str) -> Result<Option<File>, LiveFault> {
    for _try in 0..MOST_TRIES {
        let Some(file) = opened(rt, path)? else {
            return Ok(None);
        };
        lock(&file)?;
        if lies_at(rt, path, &file).map_err(LiveFault::Open)? {
            return Ok(Some(file));
        }
    }
    Err(LiveFault::InUse)
}

/// Opens the regular file at this path, if there is one.
fn opened<R: Files<File = File>>(rt: &R, path: &str) -> Result<Option<File>, LiveFault> {
    match fs::metadata(rt, path) {
        Ok(there) if !there.is_file() => return Err(LiveFault::Special),
        _ => {}
    }
    match File::open(rt, path) {
        Ok(file) => Ok(Some(file)),
        Err(error) if error.kind() == ErrorKind::NotFound => Ok(None),
        Err(error) => Err(LiveFault::Open(error)),
    }
}

/// Locks the file, for as long as it is open.
fn lock(file: &File) -> Result<(), LiveFault> {
    match file.try_lock() {
        Ok(()) => Ok(()),
        Err(TryLockError::WouldBlock) => Err(LiveFault::InUse),
        Err(TryLockError::Error(error)) => Err(LiveFault::Lock(error)),
    }
}

/// Whether the file of this handle lies at this path.
fn lies_at<R: Files<File = File>>(rt: &R, path: &str, file: &File) -> io::Result<bool> {
    match fs::metadata(rt, path) {
        Ok(there) => Ok(is_same(&there, &file.metadata()?)),
        Err(error) if error.kind() == ErrorKind::NotFound => Ok(false),
        Err(error) => Err(error),
    }
}

/// Whether both are of one file.
fn is_same(one: &Metadata, two: &Metadata) -> bool {
    one.dev() == two.dev() && one.ino() == two.ino()
}

/// What the file holds. Nothing where there is none.
fn text_of(alloc: Global, file: &Option<File>) -> io::Result<Vec<u8>> {
    let mut text = Vec::new(alloc);
    if let Some(file) = file {
        let mut reader = file;
        reader.read_to_end(&mut text)?;
    }
    Ok(text)
}
