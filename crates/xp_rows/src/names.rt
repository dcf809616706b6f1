//! The rows that there are.

use std::rt::Files;
use std::{fs, io};

/// The names of the folders in the folder where the program is run, in order.
pub fn row_names<R: AllocGlobal + Files + Clone + Drop>(rt: &R) -> io::Result<Vec<String>> {
    let mut names = Vec::new(rt.alloc());
    for entry in fs::read_dir(rt, ".")? {
        let entry = entry?;
        if entry.file_type()?.is_dir() {
            names.push(String::from_str(rt.alloc(), entry.file_name())?)?;
        }
    }
    names.sort()?;
    Ok(names)
}
