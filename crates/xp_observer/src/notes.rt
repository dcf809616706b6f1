//! What is kept of an exchange besides what it shows of itself.

use crate::ended::NotedCall;
use crate::lines::{LineNotes, NamedLine};
use crate::routers::Routers;
use crate::stations::Stations;
use std::alloc::{AllocError, Global};
use std::collections::VecDeque;
use std::net::SocketAddr;
use xp_charge::Record;
use xp_console::RefusedCalls;
use xp_subs::{LineNo, Subs};
use xp_view::ExchangeView;

/// How many ended calls are kept.
const MOST_ENDED: usize = 100;

/// How a run of the exchange begins.
#[derive(Clone, Copy, Default, PartialEq, Eq)]
pub struct RunBegin {
    /// The moment at which the exchange begins to serve, in seconds since 1970.
    pub started: u64,
    /// How many calls of the run before got a partial record.
    pub partial_records: u64,
}

/// The peers and the routers of the lines, the last records, and sums over all of them.
#[derive(Drop)]
pub(crate) struct Notes {
    lines: Vec<LineNotes>,
    pub(crate) routers: Routers,
    pub(crate) stations: Stations,
    /// The calls that ended last, the latest last.
    pub(crate) ended_last: VecDeque<NotedCall>,
    /// How many calls have ended.
    pub(crate) ended: u64,
    pub(crate) refused: RefusedCalls,
    /// Calls of routers that no line took.
    pub(crate) router_refusals: RefusedCalls,
    /// The segments from the callers of the calls that have ended, and from the called lines.
    pub(crate) from_callers: u64,
    pub(crate) from_called: u64,
    /// How many calls of the run before got a partial record.
    pub(crate) partial_records: u64,
}

impl Notes {
    /// No notes yet of the lines of these subscriptions, where a run begins so.
    pub(crate) fn new(alloc: Global, subs: &Subs, begin: RunBegin) -> Result<Notes, AllocError> {
        let lines = notes_of_lines(alloc, subs.counts().lines, begin.started)?;
        let routers = Routers::new(alloc, subs)?;
        let stations = Stations::new(alloc, subs)?;
        let ended_last = VecDeque::with_capacity(alloc, MOST_ENDED)?;
        Ok(Notes {
            lines,
            routers,
            stations,
            ended_last,
            ended: 0,
            refused: RefusedCalls::default(),
            router_refusals: RefusedCalls::default(),
            from_callers: 0,
            from_called: 0,
            partial_records: begin.partial_records,
        })
    }

    /// What is known of a line.
    pub(crate) fn of_line(&self, line: usize) -> LineNotes {
        match self.lines.get(line) {
            Some(notes) => *notes,
            None => LineNotes::new(0),
        }
    }

    /// Begins anew at this moment with each place whose line has another name than before.
    pub(crate) fn begin_anew(&mut self, before: &[NamedLine], lines: &[NamedLine], now: u64) {
        for (place, notes) in self.lines.iter_mut().enumerate() {
            if has_another_name(before, lines, place) {
                *notes = LineNotes::new(now);
            }
        }
    }

    /// Takes note of a line's peer.
    pub(crate) fn set_peer(&mut self, line: LineNo, peer: Option<SocketAddr>) {
        if let Some(notes) = self.lines.get_mut(usize::from(line)) {
            notes.peer = peer;
        }
    }

    /// Takes note of what is seen of the lines at this moment.
    pub(crate) fn see(&mut self, now: u64, view: &ExchangeView) {
        for (place, notes) in self.lines.iter_mut().enumerate() {
            if let Some(seen) = view.lines.get(place) {
                notes.see(now, seen.line);
            }
        }
    }

    /// Takes note of the records of calls that have ended, of lines that are named so.
    pub(crate) fn note_ended(&mut self, lines: &[NamedLine], records: &[Record]) {
        for record in records {
            self.note_record(lines, record);
        }
    }

    fn note_record(&mut self, lines: &[NamedLine], record: &Record) {
        self.ended = self.ended.saturating_add(1);
        self.from_callers = self
            .from_callers
            .saturating_add(u64::from(record.from_caller));
        self.from_called = self
            .from_called
            .saturating_add(u64::from(record.from_called));
        if record.called.is_none() {
            self.refused.count(record.cause);
        }
        self.stations.count(record);
        if self.ended_last.len() >= MOST_ENDED {
            self.ended_last.pop_front();
        }
        // There is room for them all.
        let _ = self.ended_last.push_back(NotedCall::of(lines, record));
    }
}

/// Whether the line at this place has another name than before.
fn has_another_name(before: &[NamedLine], lines: &[NamedLine], place: usize) -> bool {
    match (before.get(place), lines.get(place)) {
        (Some(was), Some(is)) => is.name != was.name,
        _ => false,
    }
}

/// No notes yet of so many lines.
fn notes_of_lines(alloc: Global, lines: usize, started: u64) -> Result<Vec<LineNotes>, AllocError> {
    let mut notes = Vec::with_capacity(alloc, lines)?;
    for _line in 0..lines {
        notes.push(LineNotes::new(started))?;
    }
    Ok(notes)
}
