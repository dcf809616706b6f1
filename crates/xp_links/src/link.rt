//! What a line is served with: links and the port that they come from, a clock and a bell; and what its thread waits on.

ghost use Rattle.std.specs.Prelude.{◌≡◌, ◌≤◌, length, take};
ghost use Rattle.std.specs.Io.KnownBytes.{Appends};
ghost use Rattle.xp_links.specs.Counts.{pulled_count, pushed_count};

use xp_subs::LineNo;

/// The result of a pull from a link.
#[derive(Clone, Copy)]
pub enum Pulled {
    /// This many octets came. They stand at the front of the buffer.
    Octets(usize),
    /// No octets have come yet.
    Nothing,
    /// The other end closed the link: no more octets will come.
    Ended,
    /// The link is broken.
    Fault,
}

/// The result of a push into a link.
#[derive(Clone, Copy, Debug, PartialEq)]
pub enum Pushed {
    /// The link took this many octets, from the front.
    Took(usize),
    /// The link takes none now.
    Nothing,
    /// The link is broken.
    Fault,
}

/// An octet stream in both directions, such as a TCP connection. No call of it waits.
pub trait Link: Drop {
    ghost use Rattle.std.specs.Prelude.{ℕ, List, Option, None};

    // All octets that were pushed into the link so far, and all that were pulled from it, where they are known.
    ghost pushed: { Self → Option (List ℕ) } = { λ _. None };

    ghost pulled: { Self → Option (List ℕ) } = { λ _. None };

    /// Moves octets that came to the front of the buffer, at most as many as it holds.
    fn pull(&mut self, into: &mut [u8]) -> Pulled
        ensures bound { pulled_count result ≤ length into.new }
        ensures pulled { Appends (pulled self.old) (pulled self.new) (take (pulled_count result) into.new) }
        ensures pushed { pushed self.new ≡ pushed self.old };

    /// Sends octets, as many as the link takes now, from the front.
    fn push(&mut self, from: &[u8]) -> Pushed
        ensures bound { pushed_count result ≤ length from.now }
        ensures pushed { Appends (pushed self.old) (pushed self.new) (take (pushed_count result) from.now) }
        ensures pulled { pulled self.new ≡ pulled self.old };
}

/// The result of asking a port for the next link.
#[derive(Drop)]
pub enum Arrived<L: Link> {
    /// A new link of the line.
    Came(L),
    /// No link has come yet.
    Nothing,
    /// No link can come any more.
    Fault,
}

/// The port that a line's links come from.
pub trait Port: Drop {
    type Link: Link + Send;

    /// Returns the next link, if one has come. It does not wait for one.
    fn next(&mut self) -> Arrived<Self::Link>;
}

/// The clock of a line.
pub trait Clock: Drop {
    ghost use Rattle.std.specs.Prelude.{ℕ, ⊤};

    // What a call of `now` says of the clock before it, the time that it returns, and the clock after it, where anything is known.
    ghost tells: { Self → ℕ → Self → Type 0 } = { λ _ _ _. ⊤ };

    /// The time in seconds since any fixed moment. The line's events have it as their moment.
    fn now(&mut self) -> u64
        ensures { tells self.old result self.new };
}

/// The bell of a line: what its thread and those of other lines tell each other of its work. No call of it waits.
pub trait Bell: Drop {
    /// Whether a turn of the line may find something to do. The thread asks before each turn, and leaves the turn out where the
    /// answer is no.
    fn is_due(&self) -> bool;

    /// Notes that the line has a turn, and is due again after it.
    fn begin_turn(&self);

    /// Notes that the line is not due until octets come from its link, or another line's thread rings for it.
    fn idle(&self);

    /// Makes another line due, since the exchange put something out to it, and wakes its thread if that is asleep. A thread may
    /// call it while it holds the exchange's lock.
    fn ring(&self, line: LineNo);
}

/// For how long a thread may wait for its lines.
#[derive(Clone, Copy)]
pub enum Patience {
    /// Until a line is due.
    Long,
    /// For a moment at most: a line has a turn to make up.
    Short,
}

/// What a thread does between the turns of its lines.
pub trait Poller: Drop {
    /// How many lines the thread serves at most.
    fn lines(&self) -> usize;

    /// The place, among the lines of the thread, of the next line that may have something to do in this round. Each place comes once
    /// in a round at most. `None` where no other line is due in it.
    fn next_due(&mut self) -> Option<usize>;

    /// Notes that the line in this place has a turn to make up: it is due in the next round too.
    fn hold(&mut self, place: usize);

    /// Ends a round. Looks at what has come to the lines. Where no line is due it waits for that, or for another thread, as long as
    /// `patience` lets it.
    fn poll(&mut self, patience: Patience);

    /// Waits for a moment, while the lines of the thread end.
    fn pause(&mut self);
}
