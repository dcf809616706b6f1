//! What a thread does between the turns of its lines.

use crate::round::Round;
use crate::thread_links::ThreadLinks;
use crate::tokens::{is_listener, line_of};
use mio::{Events, Poll};
use std::sync::Arc;
use std::time::Duration;
use xp_clock::uptime;
use xp_door::{LineWaker, ThreadWaker};
use xp_links::{Patience, Poller};

/// How long a thread sleeps at most, and after how long each line has a turn at the latest, in milliseconds.
const LONGEST_SLEEP: u64 = 500;

/// How many lines have such a turn at once. So a line that has something to do waits for few others.
const LINES_OF_A_TICK: usize = 64;

/// How long a thread sleeps at most while its lines end, or one has a turn to make up, in milliseconds.
const SHORT_SLEEP: u64 = 10;

/// How many rounds of turns a thread may have without a look at its sockets, while its lines have work of each other.
const MOST_ROUNDS: u32 = 1;

/// How often a thread looks at its sockets at most in a pause, which is so long as a short sleep.
const MOST_LOOKS: u32 = 10_000;

/// How often a thread looks at most at the connections that its lines have let go, once they have ended.
const MOST_LAST_LOOKS: u32 = 2_000;

/// The lines of a thread: they stand together among all wakers, from the first, and so many there are.
#[derive(Drop)]
pub(crate) struct OwnLines {
    pub(crate) wakers: Arc<Vec<LineWaker>>,
    pub(crate) first: usize,
    pub(crate) count: usize,
}

/// Lets a thread wait for the sockets of its lines, and for other threads. As it is dropped it waits for the connections that were let
/// go, for two seconds at most.
pub struct TcpPoller {
    poll: Poll,
    /// Room for what the thread was woken by.
    events: Events,
    thread: Arc<ThreadWaker>,
    links: Arc<ThreadLinks>,
    lines: OwnLines,
    /// The lines that are due in this round.
    round: Round,
    /// Rounds since the last look at the sockets.
    rounds: u32,
    /// When lines were last told to have a turn.
    ticked: Duration,
    /// The place of the line that is told so next.
    next_told: usize,
}

impl Drop for TcpPoller {
    fn drop(self) {
        let TcpPoller {
            poll,
            events,
            thread: _,
            links,
            lines: _,
            round: _,
            rounds: _,
            ticked: _,
            next_told: _,
        } = self;
        let mut poll = poll;
        let mut events = events;
        for _look in 0..MOST_LAST_LOOKS {
            if !links.look_at_leaving() {
                return;
            }
            // Where the wait fails, the next look comes at once.
            let _ = poll.poll(&mut events, Some(Duration::from_millis(SHORT_SLEEP)));
        }
    }
}

impl OwnLines {
    /// Their wakers.
    fn own(&self) -> &[LineWaker] {
        let own = self.wakers.as_slice().get(self.first..).unwrap_or(&[]);
        own.get(..self.count).unwrap_or(own)
    }

    /// The wakers of the lines that are told together, from this place on.
    fn told_from(&self, first: usize) -> &[LineWaker] {
        let rest = self.own().get(first..).unwrap_or(&[]);
        rest.get(..LINES_OF_A_TICK).unwrap_or(rest)
    }

    /// How long their thread sleeps at most, in milliseconds, so that each of them has a turn in time.
    fn longest_sleep(&self) -> u64 {
        let ticks = self.count.div_ceil(LINES_OF_A_TICK).max(1) as u64;
        (LONGEST_SLEEP / ticks).max(SHORT_SLEEP)
    }
}

impl TcpPoller {
    pub(crate) fn new(
        poll: Poll,
        events: Events,
        thread: Arc<ThreadWaker>,
        links: Arc<ThreadLinks>,
        lines: OwnLines,
        round: Round,
    ) -> TcpPoller {
        let mut round = round;
        round.begin(thread.due());
        TcpPoller {
            poll,
            events,
            thread,
            links,
            lines,
            round,
            rounds: 0,
            ticked: Duration::ZERO,
            next_told: 0,
        }
    }

    /// Whether a line of the thread may have something to do.
    fn is_any_due(&self) -> bool {
        self.thread.due().is_any()
    }

    /// Has the lines be due again whose turn had something to do.
    fn mark_busy(&self) {
        let wakers = self.lines.own();
        for place in self.round.places() {
            if wakers.get(*place).is_some_and(|waker| waker.is_busy()) {
                self.thread.due().mark(*place);
            }
        }
    }

    /// Looks at the sockets, and waits for so many milliseconds at most. Each line of which something was heard is due.
    fn look(&mut self, most: u64) {
        self.rounds = 0;
        // Where the wait fails, nothing is heard, and the thread waits again.
        if self
            .poll
            .poll(&mut self.events, Some(Duration::from_millis(most)))
            .is_err()
        {
            return;
        }
        for event in self.events.iter() {
            let line = line_of(event.token());
            if let Some(waker) = line.and_then(|line| self.lines.wakers.get(line as usize)) {
                if is_listener(event.token()) {
                    waker.knock();
                } else if event.is_read_closed() {
                    waker.note_end();
                }
                waker.refill();
                waker.mark_work();
            }
        }
        self.links.look_at_leaving();
    }

    /// Sleeps until something comes to the sockets or another thread wakes this one, for so many milliseconds at most.
    fn sleep(&mut self, most: u64) {
        self.thread.begin_sleep();
        let most = if self.is_any_due() { 0 } else { most };
        self.look(most);
        self.thread.end_sleep();
    }

    /// Makes the next lines due where the time for them has come.
    fn tick(&mut self) {
        let now = time();
        if now.saturating_sub(self.ticked) < Duration::from_millis(self.lines.longest_sleep()) {
            return;
        }
        self.ticked = now;
        for waker in self.lines.told_from(self.next_told) {
            waker.refill();
            waker.mark_work();
        }
        self.next_told = self.next_told.saturating_add(LINES_OF_A_TICK);
        if self.next_told >= self.lines.count {
            self.next_told = 0;
        }
    }

    /// How long it sleeps at most, in milliseconds.
    fn longest_sleep(&self, patience: Patience) -> u64 {
        match patience {
            Patience::Long => self.lines.longest_sleep(),
            Patience::Short => SHORT_SLEEP,
        }
    }
}

impl Poller for TcpPoller {
    fn lines(&self) -> usize {
        self.lines.count
    }

    fn next_due(&mut self) -> Option<usize> {
        self.round.next()
    }

    fn hold(&mut self, place: usize) {
        self.round.hold(place);
    }

    fn poll(&mut self, patience: Patience) {
        self.mark_busy();
        if !self.is_any_due() {
            self.sleep(self.longest_sleep(patience));
        } else if self.rounds < MOST_ROUNDS {
            self.rounds += 1;
        } else {
            self.look(0);
        }
        self.tick();
        self.round.mark_held(self.thread.due());
        self.round.begin(self.thread.due());
    }

    fn pause(&mut self) {
        let end = time().saturating_add(Duration::from_millis(SHORT_SLEEP));
        for _look in 0..MOST_LOOKS {
            self.look(SHORT_SLEEP);
            // What came has cut the wait short.
            if time() >= end {
                return;
            }
        }
    }
}

/// The time since the system began.
fn time() -> Duration {
    uptime().unwrap_or(Duration::MAX)
}
