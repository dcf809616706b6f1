//! Which lines are behind the same router, and which routers are unreachable.

ghost use Rattle.std.specs.Prelude.{◌<◌};
ghost use Rattle.xp_subs.specs.Tables.{line_count};

use std::alloc::{AllocError, Global};
use xp_file::Access;
use xp_subs::{LineNo, Subs};

/// What is known of the router of a line, if it is behind one.
#[derive(Drop)]
struct KnownRouter {
    access: Access,
    /// The moment since which it is unreachable, if the last try has failed. It is noted of the first line behind it alone.
    since: Option<u64>,
}

/// What is known of the connections that the exchange makes to routers.
#[derive(Drop)]
pub(crate) struct Routers {
    /// For each line, the first line behind the same router. `None` for a line that is behind none.
    first_lines: Vec<Option<LineNo>>,
    /// For each line, its router.
    known: Vec<KnownRouter>,
    /// How many connections to routers could not be made.
    pub(crate) failures: u64,
}

impl Routers {
    /// The routers of these subscriptions, none of which has failed.
    pub(crate) fn new(alloc: Global, subs: &Subs) -> Result<Routers, AllocError> {
        let first_lines = first_lines(alloc, subs)?;
        let known = known_routers(alloc, subs)?;
        Ok(Routers {
            first_lines,
            known,
            failures: 0,
        })
    }

    /// Goes on with what was known of the same routers.
    pub(crate) fn go_on(&mut self, before: &Routers) {
        self.failures = before.failures;
        for (place, router) in self.known.iter_mut().enumerate() {
            router.since = before.since_of(place, &router.access);
        }
    }

    /// The moment since which this router is unreachable, which is first looked for at this place.
    fn since_of(&self, place: usize, access: &Access) -> Option<u64> {
        match self.known.get(place) {
            Some(router) if router.access == *access => self.unreachable_since(place),
            _ => self.since_anywhere(access),
        }
    }

    /// The moment since which this router is unreachable.
    fn since_anywhere(&self, access: &Access) -> Option<u64> {
        if !matches!(access, Access::Router(_)) {
            return None;
        }
        let known = self.known.iter().find(|router| router.access == *access)?;
        known.since
    }

    /// Takes note that a connection to the router of this line was made at last.
    pub(crate) fn connected(&mut self, line: LineNo) {
        if let Some(since) = self.of_line(line) {
            *since = None;
        }
    }

    /// Takes note that no connection to the router of this line could be made, at this moment.
    pub(crate) fn failed(&mut self, line: LineNo, now: u64) {
        self.failures = self.failures.saturating_add(1);
        if let Some(since) = self.of_line(line) {
            if since.is_none() {
                *since = Some(now);
            }
        }
    }

    /// The moment since which the router of this line is unreachable, if its last connection has failed.
    pub(crate) fn unreachable_since(&self, line: usize) -> Option<u64> {
        let first = (*self.first_lines.get(line)?)?;
        self.known.get(usize::from(first))?.since
    }

    /// What is known of the router of a line.
    fn of_line(&mut self, line: LineNo) -> Option<&mut Option<u64>> {
        let first = (*self.first_lines.get(usize::from(line))?)?;
        let router = self.known.get_mut(usize::from(first))?;
        Some(&mut router.since)
    }
}

fn first_lines(alloc: Global, subs: &Subs) -> Result<Vec<Option<LineNo>>, AllocError> {
    let count = subs.counts().lines;
    let mut first = Vec::with_capacity(alloc, count)?;
    for place in 0..count {
        first.push(first_behind(subs, place as LineNo))?;
    }
    Ok(first)
}

/// The first line behind the same router as this line. `None` for a line that is behind none.
fn first_behind(subs: &Subs, line: LineNo) -> Option<LineNo>
    requires { line < line_count subs.now }
{
    let access = subs.access_of(line);
    if !matches!(access, Access::Router(_)) {
        return None;
    }
    for other in 0..line {
        if subs.access_of(other) == access {
            return Some(other);
        }
    }
    Some(line)
}

fn known_routers(alloc: Global, subs: &Subs) -> Result<Vec<KnownRouter>, AllocError> {
    let count = subs.counts().lines;
    let mut known = Vec::with_capacity(alloc, count)?;
    for place in 0..count {
        known.push(KnownRouter {
            access: subs.access_of(place as LineNo).copy(),
            since: None,
        })?;
    }
    Ok(known)
}
