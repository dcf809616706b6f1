//! Whether what comes of a row is what it says.

use crate::row::Row;
use crate::run::{Outcome, run};
use std::alloc::AllocError;
use std::rt::Files;
use thiserror::Error;
use xp_tasks::Task;
use xp_testing::Refusing;

/// How many requests for memory a row makes at most.
const MOST_REQUESTS: u64 = 1_000_000;

/// What is told of a row.
#[derive(Clone, Copy, Debug, PartialEq, Eq, Error)]
pub enum Verdict {
    #[error("as expected")]
    AsExpected,
    #[error("another text is written")]
    Text,
    #[error("it ends with another status")]
    Status,
    #[error("another failure is told")]
    Failure,
    /// Where a request for memory is refused, what is written is no front of the text, or want of memory is not told.
    #[error("want of memory is answered in another way")]
    Memory,
    /// A script was replayed, and the exchange asked for no memory.
    #[error("no memory is asked for")]
    NoRequest,
}

/// Tries a row with ample memory, and then, unless that is to be all, with each request for memory refused in turn.
pub fn verdict_on<R: AllocGlobal + Files>(rt: &R, row: &Row) -> Result<Verdict, AllocError> {
    let outcome = run(rt, row, rt.alloc());
    match compared(rt, row, &outcome)? {
        Verdict::AsExpected if !row.once => with_refusals(rt, row, &outcome),
        verdict => Ok(verdict),
    }
}

/// What came beside what was to come.
fn compared<R: AllocGlobal>(rt: &R, row: &Row, outcome: &Outcome) -> Result<Verdict, AllocError> {
    if outcome.text != row.text {
        return Ok(Verdict::Text);
    }
    if outcome.status().to_string(rt.alloc())?.as_bytes() != row.status.as_slice() {
        return Ok(Verdict::Status);
    }
    let told = match &outcome.ended {
        Ok(()) => String::new(rt.alloc()),
        Err(failure) => failure.to_string(rt.alloc())?,
    };
    if told.as_bytes() != row.told.as_slice() {
        return Ok(Verdict::Failure);
    }
    Ok(Verdict::AsExpected)
}

/// Refuses the 1st, 2nd, 3rd .. request for memory, until a run meets no refusal.
fn with_refusals<R: AllocGlobal + Files>(
    rt: &R,
    row: &Row,
    whole: &Outcome,
) -> Result<Verdict, AllocError> {
    for number in 1..MOST_REQUESTS {
        let scarce = Refusing::new(rt.alloc(), number);
        let outcome = run(rt, row, &scarce);
        if scarce.is_pending() {
            return Ok(match number == 1 && is_replayed(row, whole) {
                true => Verdict::NoRequest,
                false => Verdict::AsExpected,
            });
        }
        let is_told = outcome.tells_want(rt.alloc());
        let is_front = whole.text.starts_with(outcome.text.as_slice());
        drop(outcome);
        if !is_told? || !is_front {
            return Ok(Verdict::Memory);
        }
    }
    Ok(Verdict::Memory)
}

/// Whether a script was replayed: a row whose subscription file is refused comes to none.
fn is_replayed(row: &Row, whole: &Outcome) -> bool {
    row.task == Task::Replay && whole.status() != 3
}
