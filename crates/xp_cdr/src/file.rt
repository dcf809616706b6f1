//! A file of call detail records.

ghost use Rattle.std.specs.Prelude.{◌≡◌, ◌+◌, [], ◌∷◌, ◌++◌, IfOk, MatchResult, length};
ghost use Rattle.std.specs.Io.{StartsWith};
ghost use Rattle.std.specs.IoError.{error_kind};

use crate::handles::{lies_at, open_locked, reopened};
use crate::opening::{OpenFault, Opened};
use crate::record_file::{Place, RecordFile};
use crate::tidying::tidy;
use std::alloc::{AllocError, Global};
use std::fs::{File, Files};
use std::io::{ErrorKind, Seek, SeekFrom, Write};
use std::{fs, io};
use xp_past::Past;

/// A file of call detail records, which no other exchange can open while this one has it open.
///
/// No contract can say what a file holds. So proofs know the file by what it has told since it was opened: the octets that it
/// took, the front of them that a good sync covers, and its failures. Where a sync has failed, they know of no octet behind that
/// front. Where it is moved or removed, a new file is begun at its path (`follow`): what it took is what these files took, one after
/// the other.
#[derive(Drop)]
pub struct DetailFile<R: Files<File = File> + Drop> {
    rt: R,
    path: String,
    handles: Handles,
    taken: Past<u8>,
    synced: Past<u8>,
    failures: Past<ErrorKind>,
    ghost front: { StartsWith taken.items synced.items },
}

/// The handles of an open file.
#[derive(Drop)]
struct Handles {
    /// The first one, which holds the lock.
    locked: File,
    /// The one that is written.
    file: File,
    /// How long the file was at the last good sync, and how many octets it has taken since.
    length: u64,
    more: u64,
}

impl<R: Files<File = File> + Drop> RecordFile for DetailFile<R> {
    ghost taken = { λ file. file.taken.items };

    ghost synced = { λ file. file.synced.items };

    ghost failures = { λ file. length file.failures.items };

    ghost part_of = { λ _. 0 };

    ghost current = { λ _. record { part = 0; before = [] } };

    fn part_at(&self, _moment: u64) -> u64 {
        0
    }

    fn open_part(&self) -> u64 {
        0
    }

    fn name(&self) -> &str {
        let path = self.path.as_str();
        match path.rsplit_once('/') {
            Some((_, name)) => name,
            None => path,
        }
    }

    fn append(&mut self, octets: &[u8]) -> io::Result<usize> {
        match self.handles.file.write(octets) {
            Ok(0) if !octets.is_empty() => Err(self.failed(io::Error::from(ErrorKind::WriteZero))),
            Ok(count) => {
                self.took(&octets[..count]);
                Ok(count)
            }
            Err(error) => Err(self.failed(error)),
        }
    }

    fn sync(&mut self) -> io::Result<()> {
        match self.handles.file.sync_data() {
            Ok(()) => {
                let handles = &mut self.handles;
                handles.length = handles.length.saturating_add(handles.more);
                handles.more = 0;
                self.synced = self.taken.again();
                Ok(())
            }
            Err(error) => {
                self.forget();
                Err(self.failed(error))
            }
        }
    }

    fn cut_back(&mut self) -> io::Result<()> {
        self.forget();
        let Handles { locked, length, .. } = &self.handles;
        match reopened(&self.rt, self.path.as_str(), locked, *length) {
            Ok(file) => {
                self.handles.file = file;
                Ok(())
            }
            Err(error) => Err(self.failed(error)),
        }
    }

    fn follow(&mut self) -> Result<Place, OpenFault> {
        match begun_anew(&self.rt, self.path.as_str(), &self.handles.locked) {
            Ok(None) => Ok(Place::Same),
            Ok(Some(handles)) => {
                self.handles = handles;
                Ok(Place::Begun)
            }
            Err(fault) => Err(self.refused(fault)),
        }
    }

    /// One file has the records of all moments: no other one is begun.
    fn begin(&mut self, _part: u64) -> Result<(), OpenFault> {
        let error = io::Error::from(ErrorKind::Unsupported);
        Err(self.refused(OpenFault::Open(error)))
    }
}

impl<R: Files<File = File> + Drop> DetailFile<R> {
    /// Opens the file at this path, or makes it. A torn last line is cut off, and a file without lines gets the names of the
    /// fields. Where a sync fails, the file is opened anew, at this path if it still lies there.
    ///
    /// # Errors
    ///
    /// Why it was not opened. A file with other content is left as it was.
    pub fn open(alloc: Global, rt: R, path: &str) -> Result<(DetailFile<R>, Opened), OpenFault>
        ensures taken { IfOk result (λ opened. ⟦<DetailFile<R> as RecordFile>⟧.taken opened.0 ≡ []) }
        ensures synced { IfOk result (λ opened. ⟦<DetailFile<R> as RecordFile>⟧.synced opened.0 ≡ []) }
        ensures failures { IfOk result (λ opened. ⟦<DetailFile<R> as RecordFile>⟧.failures opened.0 ≡ 0) }
    {
        let own_path = path.to_string(alloc)?;
        let (handles, opened) = begin_or_move(alloc, &rt, path)?;
        let file = DetailFile {
            rt,
            path: own_path,
            handles,
            taken: Past::new(),
            synced: Past::new(),
            failures: Past::new(),
        };
        Ok((file, opened))
    }

    /// What it has taken since it was opened. It is known to proofs alone.
    pub fn taken(&self) -> Past<u8>
        ensures { result.items ≡ ⟦<DetailFile<R> as RecordFile>⟧.taken self.now }
    {
        self.taken.again()
    }

    /// Goes on in the file of this name in this directory, which is opened or made as `open` does it. It is locked before the one that
    /// was open is let go.
    ///
    /// # Errors
    ///
    /// Why it was not opened. Then the one that is open goes on.
    pub fn go_on_at(&mut self, directory: &str, name: &str) -> Result<(), OpenFault>
        requires { ⟦<DetailFile<R> as RecordFile>⟧.taken self.old ≡ ⟦<DetailFile<R> as RecordFile>⟧.synced self.old }
        ensures taken { ⟦<DetailFile<R> as RecordFile>⟧.taken self.new ≡ ⟦<DetailFile<R> as RecordFile>⟧.taken self.old }
        ensures synced { ⟦<DetailFile<R> as RecordFile>⟧.synced self.new ≡ ⟦<DetailFile<R> as RecordFile>⟧.synced self.old }
        ensures failures { MatchResult result (λ _. ⟦<DetailFile<R> as RecordFile>⟧.failures self.new ≡ ⟦<DetailFile<R> as RecordFile>⟧.failures self.old) (λ _. ⟦<DetailFile<R> as RecordFile>⟧.failures self.new ≡ ⟦<DetailFile<R> as RecordFile>⟧.failures self.old + 1) }
    {
        let alloc = *self.path.allocator();
        match begun_in(alloc, &self.rt, directory, name) {
            Ok((path, handles)) => {
                self.path = path;
                self.handles = handles;
                Ok(())
            }
            Err(fault) => Err(self.refused(fault)),
        }
    }

    /// A handle by which the file is read from its begin on.
    ///
    /// # Errors
    ///
    /// What the system tells.
    pub fn reader(&self) -> io::Result<File> {
        let mut reader = self.handles.locked.try_clone()?;
        reader.seek(SeekFrom::Start(0))?;
        Ok(reader)
    }

    /// Writes these lines at the end of the file, and waits until they are on the disk. They count as what the file held when it was
    /// opened: nothing was taken yet.
    ///
    /// # Errors
    ///
    /// What the system tells. A front of the lines may be there then.
    pub fn complete(&mut self, lines: &[u8]) -> io::Result<()>
        ensures taken { self.new.taken ≡ self.old.taken }
        ensures synced { self.new.synced ≡ self.old.synced }
        ensures failures { self.new.failures ≡ self.old.failures }
    {
        let handles = &mut self.handles;
        handles.file.write_all(lines)?;
        handles.file.sync_all()?;
        handles.length = handles.length.saturating_add(lines.len() as u64);
        Ok(())
    }

    /// Notes that the file took these octets.
    fn took(&mut self, octets: &[u8])
        ensures taken { self.new.taken.items ≡ self.old.taken.items ++ octets.now }
        ensures synced { self.new.synced ≡ self.old.synced }
        ensures failures { self.new.failures ≡ self.old.failures }
    {
        self.handles.more = self.handles.more.saturating_add(octets.len() as u64);
        self.taken.extend(octets);
    }

    /// Forgets what the file took since the last good sync.
    fn forget(&mut self)
        ensures taken { self.new.taken.items ≡ self.old.synced.items }
        ensures synced { self.new.synced ≡ self.old.synced }
        ensures failures { self.new.failures ≡ self.old.failures }
    {
        self.handles.more = 0;
        self.taken = self.synced.again();
    }

    /// Notes a failure, and passes it on.
    fn failed(&mut self, error: io::Error) -> io::Error
        ensures taken { self.new.taken ≡ self.old.taken }
        ensures synced { self.new.synced ≡ self.old.synced }
        ensures failures { self.new.failures.items ≡ self.old.failures.items ++ error_kind error ∷ [] }
        ensures same { result ≡ error }
    {
        self.failures.push(&error.kind());
        error
    }

    /// Notes that no file was begun, and passes on why.
    fn refused(&mut self, fault: OpenFault) -> OpenFault
        ensures taken { self.new.taken ≡ self.old.taken }
        ensures synced { self.new.synced ≡ self.old.synced }
        ensures failures { length self.new.failures.items ≡ length self.old.failures.items + 1 }
    {
        self.failures.push(&ErrorKind::Other);
        fault
    }
}

/// The path of the file of this name in this directory.
pub fn path_in(alloc: Global, directory: &str, name: &str) -> Result<String, AllocError> {
    let separator = if directory.ends_with('/') { "" } else { "/" };
    format!(in alloc; "{directory}{separator}{name}")
}

/// Opens the file of this name in this directory, or makes it, as `begin` does. Returns its path, too.
fn begun_in<R: Files<File = File>>(
    alloc: Global,
    rt: &R,
    directory: &str,
    name: &str,
) -> Result<(String, Handles), OpenFault> {
    let path = path_in(alloc, directory, name)?;
    let (handles, _) = begin(rt, path.as_str())?;
    Ok((path, handles))
}

/// Opens the file at this path as `begin` does. One that lacks the last columns is moved aside, and a new one is begun.
fn begin_or_move<R: Files<File = File>>(
    alloc: Global,
    rt: &R,
    path: &str,
) -> Result<(Handles, Opened), OpenFault> {
    match begin(rt, path) {
        Err(OpenFault::OldColumns(last_started)) => {
            move_aside(alloc, rt, path).map_err(OpenFault::Move)?;
            let (handles, opened) = begin(rt, path)?;
            let opened = Opened {
                moved_aside: true,
                last_started,
                ..opened
            };
            Ok((handles, opened))
        }
        result => result,
    }
}

/// Moves the file at this path to where no file lies, beside it.
fn move_aside<R: Files<File = File>>(alloc: Global, rt: &R, path: &str) -> io::Result<()> {
    let aside = format!(in alloc; "{path}{BEHIND_MOVED}")?;
    if fs::exists(rt, &aside)? {
        return Err(io::Error::from(ErrorKind::AlreadyExists));
    }
    fs::rename(rt, path, &aside)
}

/// What stands behind the path of a file that was moved aside.
const BEHIND_MOVED: &str = ".16-columns";

/// Opens the file at this path, or makes it, locks it, and tidies it. Tells how it was found, too.
fn begin<R: Files<File = File>>(rt: &R, path: &str) -> Result<(Handles, Opened), OpenFault> {
    let locked = open_locked(rt, path)?;
    let (opened, length) = tidy(&locked)?;
    let file = locked.try_clone().map_err(OpenFault::Open)?;
    let handles = Handles {
        locked,
        file,
        length,
        more: 0,
    };
    Ok((handles, opened))
}

/// Begins a new file at this path, or opens the one that lies there, unless that is the locked one.
fn begun_anew<R: Files<File = File>>(
    rt: &R,
    path: &str,
    locked: &File,
) -> Result<Option<Handles>, OpenFault> {
    if lies_at(rt, path, locked).map_err(OpenFault::Open)? {
        return Ok(None);
    }
    let (handles, _) = begin(rt, path)?;
    Ok(Some(handles))
}
