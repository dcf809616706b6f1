//! The newest of the files of days in a directory.

use crate::day::{day_named, file_name};
use std::alloc::{AllocGlobal, Global};
use std::fs::{DirEntry, File, Files};
use std::{fs, io};
use xp_cdr::{OpenFault, path_in};

/// The file of a day.
#[derive(Drop)]
pub struct DayFile {
    pub day: u64,
    pub path: String,
}

/// The newest file of a day in this directory that is not later than `today`, or that of `today` where there is none yet. Nothing is
/// opened or made.
///
/// # Errors
///
/// `Directory` where the directory cannot be read, and `Open` for want of memory.
pub fn newest_file<R: AllocGlobal + Clone + Drop + Files<File = File>>(
    rt: &R,
    directory: &str,
    today: u64,
) -> Result<DayFile, OpenFault> {
    let day = newest_day(rt, directory, today)?.unwrap_or(today);
    file_of(rt.alloc(), directory, day)
}

/// The newest file of a day in this directory that is earlier than this day, if there is one. Nothing is opened or made.
///
/// # Errors
///
/// `Directory` where the directory cannot be read, and `Open` for want of memory.
pub fn file_before<R: AllocGlobal + Clone + Drop + Files<File = File>>(
    rt: &R,
    directory: &str,
    day: u64,
) -> Result<Option<DayFile>, OpenFault> {
    let Some(last) = day.checked_sub(1) else {
        return Ok(None);
    };
    match newest_day(rt, directory, last)? {
        Some(day) => Ok(Some(file_of(rt.alloc(), directory, day)?)),
        None => Ok(None),
    }
}

/// The file of this day in this directory.
fn file_of(alloc: Global, directory: &str, day: u64) -> Result<DayFile, OpenFault> {
    let path = path_in(alloc, directory, file_name(day).as_str())?;
    Ok(DayFile { day, path })
}

/// The newest day of which there is a file in this directory, up to `today`.
pub(crate) fn newest_day<R: AllocGlobal + Clone + Drop + Files<File = File>>(
    rt: &R,
    directory: &str,
    today: u64,
) -> Result<Option<u64>, OpenFault> {
    let mut newest = None;
    for entry in fs::read_dir(rt, directory).map_err(OpenFault::Directory)? {
        newest = later(newest, day_of_entry(entry)?, today);
    }
    Ok(newest)
}

/// The day whose file an entry of the directory is, if it is one.
fn day_of_entry<R: Clone + Drop + Files<File = File>>(
    entry: io::Result<DirEntry<R>>,
) -> Result<Option<u64>, OpenFault> {
    match entry {
        Ok(entry) => Ok(day_named(entry.file_name())),
        // A name that is no text is that of no day.
        Err(error) if error.kind() == io::ErrorKind::InvalidFilename => Ok(None),
        Err(error) => Err(OpenFault::Directory(error)),
    }
}

/// The later of two days that are not after `today`.
fn later(newest: Option<u64>, day: Option<u64>, today: u64) -> Option<u64> {
    match (newest, day) {
        (_, None) => newest,
        (_, Some(day)) if day > today => newest,
        (Some(newest), Some(day)) => Some(newest.max(day)),
        (None, day) => day,
    }
}
