//! Numbers and windows (X.25 clauses 4.4.1.1 to 4.4.1.3).

ghost use Rattle.std.specs.Prelude.{◌≡◌, ◌+◌, ◌<◌, ◌≤◌, IfSome, IsTrue, length};
ghost use Rattle.std.specs.Option.{option_map};
ghost use Rattle.xp_relay.specs.Direction.{Direction, next_number, has_room, acknowledged_count};
ghost use Rattle.xp_relay.specs.Judgement.{is_awaited};
ghost use Rattle.xp_relay.specs.StoredDirection.{Represents};

use crate::direction_state::DirectionState;
use std::alloc::Allocator;

impl<A: Allocator> DirectionState<A> {
    /// Returns how many accepted packets the receiver has not acknowledged.
    fn unacknowledged(&self) -> u8
        ensures count { result ≡ self.now.out + length self.now.held }
        ensures most { result ≤ self.now.terms.window }
        ensures few { result ≤ 15 }
    {
        self.out + self.held.len() as u8
    }

    /// Returns P(S) of the next packet from the sender.
    fn next_number(&self) -> u8
        ensures { (d : Direction A) → Represents self.now d → result ≡ next_number d }
    {
        (self.pr + self.unacknowledged()) % self.terms.sender.numbers()
    }

    /// Returns whether the window lets the sender send one more packet.
    fn has_room(&self) -> bool
        ensures room { (d : Direction A) → Represents self.now d → result ≡ has_room d }
        ensures few { IsTrue result → self.now.out + length self.now.held < self.now.terms.window }
    {
        self.unacknowledged() < self.terms.window
    }

    /// Returns whether the sender may send a packet with this P(S): it is the next number, and within the window.
    pub(crate) fn awaits(&self, number: u8) -> bool
        ensures awaited { (d : Direction A) → Represents self.now d → result ≡ is_awaited number d }
        ensures few { IsTrue result → self.now.out + length self.now.held < self.now.terms.window }
    {
        let has_room = self.has_room();
        number == self.next_number() && has_room
    }

    /// Returns how many more packets a P(R) of the receiver acknowledges, or `None` where it is not valid.
    pub(crate) fn newly_acknowledged(&self, number: u8) -> Option<u8>
        ensures within { IfSome result (λ more. more ≤ self.now.out) }
        ensures told { (d : Direction A) → Represents self.now d → acknowledged_count number d ≡ option_map (λ more. d.acknowledged + more) result }
    {
        let numbers = self.terms.receiver.numbers();
        if number >= numbers {
            return None;
        }
        let more = (number + numbers - self.oldest) % numbers;
        (more <= self.out).then_some(more)
    }
}
