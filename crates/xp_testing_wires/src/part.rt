//! Parts of a line: its link and the port that it comes from, its clock and its bell; and what its thread does between the turns.

ghost use Rattle.std.specs.Prelude.{◌≤◌, length};
ghost use Rattle.xp_links.specs.Counts.{pulled_count};

use crate::board::{Board, Line};
use std::alloc::AllocError;
use std::sync::Arc;
use std::sync::atomic::Ordering;
use std::thread;
use xp_links::{Arrived, Bell, Clock, Link, Patience, Poller, Port, Pulled, Pushed};
use xp_subs::LineNo;

/// A part of a line, which does what the line's plan tells.
#[derive(Drop)]
pub struct Part {
    board: Arc<Board>,
    line: LineNo,
    /// How many pieces a link gave, how many links a port gave, what time it is by a clock, and how many lines a thread has, this
    /// line the first.
    count: u64,
    /// How many lines of a thread had a turn in this round.
    place: usize,
}

impl Part {
    pub fn new(board: &Arc<Board>, line: LineNo, count: u64) -> Result<Part, AllocError> {
        Ok(Part {
            board: Arc::try_clone(board)?,
            line,
            count,
            place: 0,
        })
    }
}

/// Whether this pull or push meets a fault.
fn fails(line: &Line, word: &str, number: u64, at: u64) -> bool {
    let fails = number == at && line.has(word);
    if fails {
        line.failed.store(true, Ordering::SeqCst);
    }
    fails
}

/// Puts octets at the front of the buffer. No octets are the end of the link.
fn fill(octets: &[u8], into: &mut [u8]) -> Pulled
    ensures { pulled_count result ≤ length into.new }
{
    if octets.is_empty() {
        return Pulled::Ended;
    }
    let count = octets.len().min(into.len());
    into[..count].copy_from_slice(&octets[..count]);
    Pulled::Octets(count)
}

impl Link for Part {
    fn pull(&mut self, into: &mut [u8]) -> Pulled {
        let line = self.board.of(self.line);
        let time = line.pulls.fetch_add(1, Ordering::SeqCst);
        if fails(line, "pull-fault", time, self.board.at) {
            return Pulled::Fault;
        }
        let Some(piece) = line.plan.gives.get(self.count as usize) else {
            if !self.board.together {
                line.hold();
            }
            return Pulled::Nothing;
        };
        if line.got() < piece.after || !self.board.lets(line) {
            return Pulled::Nothing;
        }
        self.count = self.count.saturating_add(1);
        fill(&piece.octets, into)
    }

    fn push(&mut self, from: &[u8]) -> Pushed {
        let line = self.board.of(self.line);
        let time = line.pushes.fetch_add(1, Ordering::SeqCst);
        if fails(line, "push-fault", time, self.board.at) {
            return Pushed::Fault;
        }
        let room = line.plan.all.saturating_sub(line.got() as u64);
        let room = room.min(line.plan.most);
        let count = (from.len() as u64).min(room) as usize;
        line.take(&from[..count]);
        Pushed::Took(count)
    }
}

/// It gives at most one link.
impl Port for Part {
    type Link = Part;

    fn next(&mut self) -> Arrived<Part> {
        let line = self.board.of(self.line);
        if line.has("broken") {
            line.pulls.fetch_add(1, Ordering::SeqCst);
            return Arrived::Fault;
        }
        if self.count > 0 || line.has("none") {
            return Arrived::Nothing;
        }
        self.count = 1;
        match Part::new(&self.board, self.line, 0) {
            Ok(link) => Arrived::Came(link),
            Err(_) => Arrived::Fault,
        }
    }
}

/// It goes on by so many seconds where it is read (`read`), its line has nothing to do (`step`) and its thread pauses (`pause`).
impl Clock for Part {
    fn now(&mut self) -> u64 {
        let line = self.board.of(self.line);
        let pauses = line.pauses.load(Ordering::SeqCst);
        let paused = pauses.saturating_mul(self.board.pause);
        let idles = line.idles.load(Ordering::SeqCst);
        let idled = idles.saturating_mul(self.board.step);
        let now = self.count;
        self.count = now.saturating_add(self.board.read);
        now.saturating_add(paused).saturating_add(idled)
    }
}

/// The line is due in each round. It counts how often it had nothing to do, and how often others rang for it.
impl Bell for Part {
    fn is_due(&self) -> bool {
        true
    }

    fn begin_turn(&self) {}

    fn idle(&self) {
        let line = self.board.of(self.line);
        line.idles.fetch_add(1, Ordering::SeqCst);
    }

    fn ring(&self, line: LineNo) {
        self.board.of(line).wakes.fetch_add(1, Ordering::SeqCst);
    }
}

/// Each line of the thread is due in each round. Between two rounds the thread lets others run.
impl Poller for Part {
    fn lines(&self) -> usize {
        self.count as usize
    }

    fn next_due(&mut self) -> Option<usize> {
        let place = self.place;
        self.place = place.saturating_add(1);
        (place < self.lines()).then_some(place)
    }

    fn hold(&mut self, _place: usize) {}

    fn poll(&mut self, _patience: Patience) {
        self.place = 0;
        thread::yield_now();
    }

    fn pause(&mut self) {
        for place in 0..self.count.min(6) as LineNo {
            let line = self.board.of(self.line.saturating_add(place));
            line.pauses.fetch_add(1, Ordering::SeqCst);
        }
    }
}
