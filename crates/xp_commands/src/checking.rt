//! Checking a subscription file.

use crate::failure::CommandFailure;
use crate::output::{STANDARD_OUTPUT, WatchedWriter, print_text};
use std::alloc::AllocGlobal;
use std::io;
use xp_arguments::CheckForm;
use xp_subs::Subs;
use xp_summary::summary;
use xp_tasks::{Task, perform};

/// Prints what a subscription file sets up.
pub fn check_file<R: AllocGlobal + Print>(
    rt: &R,
    form: CheckForm,
    subs: Subs,
) -> Result<(), CommandFailure> {
    match form {
        CheckForm::Counts => count_set_up(rt, subs),
        CheckForm::Words => print_text(rt, &summary(rt.alloc(), &subs)?),
    }
}

/// Prints the counts of what a subscription file sets up.
fn count_set_up<R: AllocGlobal + Print>(rt: &R, subs: Subs) -> Result<(), CommandFailure> {
    let alloc = rt.alloc();
    let mut writer = WatchedWriter::buffered(alloc, io::writer(rt))?;
    match perform(alloc, Task::Check, subs, &[], io::empty(), &mut writer) {
        Ok(()) => Ok(()),
        Err(failure) => Err(writer.get_ref().explained(alloc, failure, STANDARD_OUTPUT)),
    }
}
