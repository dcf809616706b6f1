ghost use Rattle.std.specs.Prelude.{◌≡◌};
ghost use Rattle.xp_packets.specs.Encodability.{CanBeEncoded};
ghost use Rattle.xp_packets.specs.declared.modulus.Modulus.TheVariants.{Long};
ghost use Rattle.xp_step.specs.Exchange.{DialsFew, IsReadable};
ghost use Rattle.xp_step.specs.Stalls.{places_for};

use std::alloc::{Allocator, Global};
use std::fmt;
use xp_packets::{Malformed, Packet};
use xp_subs::LineNo;

/// How many stalls may follow one event.
pub const MOST_STALLS: usize = 3;

/// What happened on one line.
pub struct Event<A: Allocator = Global> {
    /// The line, one of the subscriptions'.
    pub line: LineNo,
    /// The moment at which it happened, in seconds.
    pub moment: u64,
    /// What happened on the line.
    pub what: What<A>,
}

impl<A: Allocator> Drop for Event<A> {
    fn drop(self) {
        let Event {
            line: _,
            moment: _,
            what: _,
        } = self;
    }
}

/// Tells the line and the moment, and not what happened.
impl<A: Allocator> fmt::Debug for Event<A> {
    fn fmt<W: fmt::Write>(&self, f: &mut fmt::Formatter<W>) -> fmt::Result {
        write!(f, "event of line {} at {}", self.line, self.moment)
    }
}

/// What can happen on a line.
pub enum What<A: Allocator = Global> {
    /// A connection came.
    Up,
    /// The connection was lost, or what came over it broke the framing.
    Down,
    /// A packet came, under this logical channel identifier, 0 to 4,095 (X.25 clauses 5.1.2 and 5.1.3).
    Frame { identifier: u16, packet: Packet<A> },
    /// A frame came that holds no packet.
    WrongFrame(Malformed),
    /// The line did not answer an incoming call in time (T11, X.25 Annex D).
    Expire,
    /// The line takes its packets too slowly, and is given up: its connection is closed. The exchange under its lock
    /// raises this event, and no line does.
    Stall,
    /// Other subscriptions are in force from now on. The exchange raises this event, and no line does. It changes no line
    /// and no call.
    Reload,
}

impl<A: Allocator> Drop for What<A> {
    fn drop(self) {
        match self {
            What::Up => {}
            What::Down => {}
            What::Frame {
                identifier: _,
                packet: _,
            } => {}
            What::WrongFrame(_) => {}
            What::Expire => {}
            What::Stall => {}
            What::Reload => {}
        }
    }
}

impl<A: Allocator> What<A> {
    /// Returns the event that a packet came. The packet can be encoded modulo 128 with this identifier, as can every
    /// packet that is read, by either modulus.
    pub fn frame(identifier: u16, packet: Packet<A>) -> What<A>
        requires { CanBeEncoded Long identifier packet }
        ensures frame { result ≡ What.Frame identifier packet }
        ensures readable { IsReadable result }
    {
        measure(&packet);
        What::Frame { identifier, packet }
    }

    /// Returns how many places of the history must be left for the event: one for its entry, and, unless the event is a
    /// stall, three for the stalls that may follow it.
    pub fn places(&self) -> u64
        ensures { result ≡ places_for self.now }
    {
        match self {
            What::Stall => 1,
            What::Up
            | What::Down
            | What::Frame { .. }
            | What::WrongFrame(_)
            | What::Expire
            | What::Reload => 1 + MOST_STALLS as u64,
        }
    }
}

/// Counts the digits of a called address. This shows that they are at most 15.
fn measure<A: Allocator>(packet: &Packet<A>)
    ensures { DialsFew packet.now }
{
    if let Packet::Call { d: _, block } = packet {
        let _ = block.called.len();
    }
}
