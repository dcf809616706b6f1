//! The lines of a thread that are due in a round.

use std::alloc::{AllocError, Global};
use xp_door::Marks;

/// So many places stand in a word of marks, and room is made for as many.
const MOST_OF_A_WORD: usize = 64;

/// The places of the lines that are due in a round, and of those that have a turn to make up.
#[derive(Drop)]
pub(crate) struct Round {
    due: Vec<usize>,
    /// How many of them have come.
    had: usize,
    held: Vec<usize>,
}

impl Round {
    /// A round of a thread with so many lines, in which none is due.
    pub(crate) fn new(alloc: Global, lines: usize) -> Result<Round, AllocError> {
        Ok(Round {
            due: Vec::with_capacity(alloc, lines.saturating_add(MOST_OF_A_WORD))?,
            had: 0,
            held: Vec::with_capacity(alloc, lines)?,
        })
    }

    /// The place that comes next.
    pub(crate) fn next(&mut self) -> Option<usize> {
        let place = self.due.get(self.had).copied()?;
        self.had = self.had.saturating_add(1);
        Some(place)
    }

    /// Notes that the line in this place has a turn to make up.
    pub(crate) fn hold(&mut self, place: usize) {
        // There is room for each line once. Without it, the line has a turn half a second later at the latest.
        let _ = self.held.push(place);
    }

    /// The places of this round.
    pub(crate) fn places(&self) -> &[usize] {
        &self.due
    }

    /// Marks the lines that have a turn to make up.
    pub(crate) fn mark_held(&mut self, due: &Marks) {
        for place in &self.held {
            due.mark(*place);
        }
        self.held.clear();
    }

    /// Begins a round of the lines that are marked.
    pub(crate) fn begin(&mut self, due: &Marks) {
        self.had = 0;
        // There is room for each of them. Without it, those that are left out stay marked.
        let _ = due.take(&mut self.due);
    }
}
