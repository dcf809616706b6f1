//! Changes of a direction.

ghost use Rattle.std.specs.Prelude.{◌≡◌, ◌+◌, ◌<◌, ◌≤◌, if◌then◌else◌, length};
ghost use Rattle.xp_relay.specs.Direction.{Direction, emptied};
ghost use Rattle.xp_relay.specs.StoredDirection.{Represents};
ghost use Rattle.xp_relay.specs.Turns.{acknowledged_to, held_interrupt, settled, with_data};

use crate::data::{Data, Interruption};
use crate::direction_state::DirectionState;
use std::alloc::Allocator;
use std::mem;
use xp_packets::Octets;

impl<A: Allocator> DirectionState<A> {
    /// Accepts a packet of the sender. It waits in the queue.
    pub(crate) fn accept(&mut self, carried: Data<A>)
        requires { self.old.out + length self.old.held < self.old.terms.window }
        ensures { (d : Direction A) → Represents self.old d → Represents self.new (with_data carried d) }
    {
        self.held.push_back_reserved(carried);
    }

    /// Takes note that the receiver acknowledges this many more packets.
    pub(crate) fn acknowledge(&mut self, more: u8)
        requires { more ≤ self.old.out }
        ensures { (d : Direction A) → Represents self.old d → Represents self.new (acknowledged_to d.ready (d.acknowledged + more) d) }
    {
        self.pr = (self.pr + more) % self.terms.sender.numbers();
        self.oldest = (self.oldest + more) % self.terms.receiver.numbers();
        self.out -= more;
    }

    /// Sets whether the receiver is ready.
    pub(crate) fn set_ready(&mut self, ready: bool)
        ensures { (d : Direction A) → Represents self.old d → Represents self.new (acknowledged_to ready d.acknowledged d) }
    {
        self.ready = ready;
    }

    /// Empties the direction for a reset, and sets whether its receiver owes a reset confirmation.
    pub(crate) fn empty(&mut self, owes: bool)
        ensures { (d : Direction A) → Represents self.old d → Represents self.new (emptied owes d) }
    {
        self.held.clear();
        self.pr = 0;
        self.oldest = 0;
        self.out = 0;
        self.interrupt = Interruption::Idle;
        self.ready = true;
        self.owes = owes;
    }

    /// Takes note that the receiver confirmed the sender's interrupt.
    pub(crate) fn end_interrupt(&mut self)
        ensures { (d : Direction A) → Represents self.old d → Represents self.new (record d { interrupt = Interruption.Idle }) }
    {
        self.interrupt = Interruption::Idle;
    }

    /// Takes an interrupt of the sender. Returns its octets if they go to the receiver now. While the receiver owes a
    /// reset confirmation, the interrupt waits.
    pub(crate) fn offer(&mut self, octets: Octets<A>) -> Option<Octets<A>>
        ensures goes { result ≡ (if self.old.owes then None else Some octets) }
        ensures shown { (d : Direction A) → Represents self.old d → Represents self.new (record d { interrupt = if d.owes then Interruption.Held octets else Interruption.PutOut }) }
    {
        if self.owes {
            self.interrupt = Interruption::Held(octets);
            None
        } else {
            self.interrupt = Interruption::PutOut;
            Some(octets)
        }
    }

    /// Takes note that the receiver gave its reset confirmation. Returns the octets of the interrupt that waited for
    /// it.
    pub(crate) fn settle(&mut self) -> Option<Octets<A>>
        ensures waited { result ≡ held_interrupt self.old.interrupt }
        ensures shown { (d : Direction A) → Represents self.old d → Represents self.new (settled d) }
    {
        self.owes = false;
        match mem::replace(&mut self.interrupt, Interruption::Idle) {
            Interruption::Idle => None,
            Interruption::Held(octets) => {
                self.interrupt = Interruption::PutOut;
                Some(octets)
            }
            Interruption::PutOut => {
                self.interrupt = Interruption::PutOut;
                None
            }
        }
    }
}
