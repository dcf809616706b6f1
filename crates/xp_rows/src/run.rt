//! One run of a row.

use crate::row::{Row, TablesFile};
use std::alloc::{AllocError, Allocator, Global};
use std::fs;
use std::rt::Files;
use xp_script::NamedTables;
use xp_tasks::{TaskFailure, perform, subscriptions};

/// What was written, and how it ended.
#[derive(Drop)]
pub struct Outcome {
    pub text: Vec<u8>,
    pub ended: Result<(), TaskFailure>,
}

impl Outcome {
    /// The exit status of the program.
    pub fn status(&self) -> u8 {
        match &self.ended {
            Ok(()) => 0,
            Err(failure) => failure.status(),
        }
    }

    /// Whether want of memory is told, with its status.
    pub fn tells_want(&self, alloc: Global) -> Result<bool, AllocError> {
        match &self.ended {
            Ok(()) => Ok(false),
            Err(failure) => {
                let told = failure.to_string(alloc)?;
                Ok(told.as_str() == "xp: memory" && failure.status() == 4)
            }
        }
    }
}

/// Does what the row asks for, with memory for the exchange from this allocator.
pub fn run<R: AllocGlobal + Files, A: Allocator + Copy>(rt: &R, row: &Row, memory: A) -> Outcome {
    let mut text = Vec::new(rt.alloc());
    let file = fs::read_to_string(rt, row.file.as_str());
    let ended = match named_tables(rt.alloc(), &row.tables) {
        Ok(named) => match subscriptions(rt.alloc(), &file) {
            Ok(subs) => perform(
                memory,
                row.task,
                subs,
                &named,
                row.script.as_slice(),
                &mut text,
            ),
            Err(failure) => Err(failure),
        },
        Err(failure) => Err(failure),
    };
    Outcome { text, ended }
}

/// The subscriptions of these files.
fn named_tables(alloc: Global, files: &[TablesFile]) -> Result<Vec<NamedTables<'_>>, TaskFailure> {
    let mut named = Vec::new(alloc);
    for file in files {
        let tables = NamedTables::new(alloc, &file.name, &file.text)?;
        if named.push(tables).is_err() {
            return Err(TaskFailure::Memory);
        }
    }
    Ok(named)
}
