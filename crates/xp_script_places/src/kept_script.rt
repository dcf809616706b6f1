//! What is kept of a script, and the subscriptions in force at one of its lines.

use std::alloc::{AllocError, Global};
use xp_script::{Command, LineFault, NamedTables};
use xp_subs::{LayFault, Subs};

pub(crate) const LINE_FEED: u8 = b'\n';

/// What is kept of a script: some of its lines, and those lines before them that brought subscriptions into force.
#[derive(Clone, Copy)]
pub struct KeptScript<'a> {
    pub(crate) brought: &'a [u8],
    pub(crate) lines: &'a [u8],
    /// The number of the first of the lines. None where no line may bring subscriptions into force: then lines were not counted.
    pub(crate) first: Option<u64>,
}

impl<'a> KeptScript<'a> {
    /// A whole script.
    pub fn whole(lines: &'a [u8]) -> KeptScript<'a> {
        KeptScript {
            brought: &[],
            lines,
            first: Some(1),
        }
    }

    /// The line of this number, if lines were counted and it is kept.
    pub fn line(&self, number: u64) -> Option<&'a [u8]> {
        let mut place = self.first?;
        for line in self.lines.split(|octet| *octet == LINE_FEED) {
            if place == number {
                return Some(line);
            }
            place = place.saturating_add(1);
        }
        None
    }

    /// The lines, where they were not counted.
    pub(crate) fn uncounted(&self) -> Option<&'a [u8]> {
        match self.first {
            Some(_) => None,
            None => Some(self.lines),
        }
    }

    /// The subscriptions in force at the line of this number: those with which the exchange was opened, or the last that a line
    /// before it brought.
    ///
    /// # Errors
    ///
    /// An allocation failed.
    pub fn force_at(
        &self,
        alloc: Global,
        opening: Subs,
        named: &[NamedTables<'_>],
        number: u64,
    ) -> Result<Subs, AllocError> {
        let Some(first) = self.first else {
            return Ok(opening);
        };
        let mut force = opening;
        for line in self.brought.split(|octet| *octet == LINE_FEED) {
            force = force_behind(alloc, force, named, line)?;
        }
        let mut place = first;
        for line in self.lines.split(|octet| *octet == LINE_FEED) {
            if place >= number {
                return Ok(force);
            }
            force = force_behind(alloc, force, named, line)?;
            place = place.saturating_add(1);
        }
        Ok(force)
    }
}

/// The subscriptions in force behind this line.
fn force_behind(
    alloc: Global,
    force: Subs,
    named: &[NamedTables<'_>],
    line: &[u8],
) -> Result<Subs, AllocError> {
    match brought_by(alloc, &force, named, line)? {
        Some(next) => Ok(next),
        None => Ok(force),
    }
}

/// The subscriptions that this line brings, with their lines at the places of those in force.
fn brought_by(
    alloc: Global,
    force: &Subs,
    named: &[NamedTables<'_>],
    line: &[u8],
) -> Result<Option<Subs>, AllocError> {
    let number = match Command::read(force, named, line, Vec::new(alloc)) {
        Ok(command) => command.reload(),
        Err(LineFault::Faulty) => None,
        Err(LineFault::Memory) => return Err(AllocError),
    };
    let Some(tables) = named_by(named, number) else {
        return Ok(None);
    };
    match tables.laid_over(force) {
        Ok(next) => Ok(Some(next)),
        Err(LayFault::Memory) => Err(AllocError),
        Err(LayFault::Modulus(_) | LayFault::Place(_)) => Ok(None),
    }
}

/// The subscriptions of this number.
fn named_by<'s, 'n>(
    named: &'s [NamedTables<'n>],
    number: Option<usize>,
) -> Option<&'s NamedTables<'n>> {
    named.get(number?)
}
