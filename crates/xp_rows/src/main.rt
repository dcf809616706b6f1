//! Tries the rows in the folder where it is run: each has a folder of its own, with a subscription file, a script, and what
//! is to come of them. Tells of each row, by a line of its own, whether that came.
#![tactic(auto)]

mod names;
mod row;
mod run;
mod trial;

use crate::names::row_names;
use crate::row::Row;
use crate::trial::verdict_on;
use std::io;
use std::process::ExitCode;
use std::rt::Files;

fn main(rt: HostRuntime) -> ExitCode {
    match try_all(&rt) {
        Ok(()) => ExitCode::SUCCESS,
        Err(error) => {
            // Where the standard error fails there is nobody left to tell.
            let _ = rt.eprintln(&error);
            ExitCode::FAILURE
        }
    }
}

/// Tries all rows, in the order of their names.
fn try_all<R: AllocGlobal + Files + Clone + Drop + Print>(rt: &R) -> io::Result<()> {
    for name in row_names(rt)? {
        match Row::read(rt, &name) {
            Ok(row) => println!(rt; "{name}: {}", verdict_on(rt, &row)?)?,
            Err(error) => println!(rt; "{name}: {error}")?,
        }
    }
    Ok(())
}
