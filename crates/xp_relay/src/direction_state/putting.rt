//! The data packets that go to the receiver.

ghost use Rattle.std.specs.Prelude.{◌≡◌, ◌+◌, ◌-◌, ◌<◌, ◌≤◌, ◌++◌, ◌%◌, [], drop, length};
ghost use Rattle.std.specs.VecDeque.{deque_capacity};
ghost use Rattle.xp_packets.specs.Numbers.{numbers};
ghost use Rattle.xp_packets.specs.declared.packet.Packet.TheVariants.{DataPacket};
ghost use Rattle.xp_relay.specs.Direction.{Direction, put_all, numbered, release, released, to};
ghost use Rattle.xp_relay.specs.StoredDirection.{Represents};

use crate::data::Data;
use crate::direction_state::DirectionState;
use crate::moves::{Move, Moves};
use std::alloc::Allocator;
use std::collections::VecDeque;
use xp_packets::{End, Modulus, Packet};

/// Returns a data packet with these numbers, for an end.
fn numbered_move<A: Allocator>(side: End, ps: u8, pr: u8, carried: Data<A>) -> Move<A>
    ensures { result ≡ to side (DataPacket carried.q carried.d carried.more ps pr carried.octets) }
{
    Move {
        side,
        packet: Packet::DataPacket {
            q: carried.q,
            d: carried.d,
            more: carried.more,
            ps,
            pr,
            octets: carried.octets,
        },
    }
}

/// Takes all packets out of the queue and sends them to an end, with P(S) from `first` on and this P(R).
fn drained<A: Allocator>(
    held: &mut VecDeque<Data<A>, A>,
    side: End,
    modulus: Modulus,
    pr: u8,
    first: u8,
    room: Moves<A>,
) -> Moves<A>
    requires space { length held.old.items ≤ room.room }
    requires number { first < numbers modulus }
    ensures empty { held.new.items ≡ [] }
    ensures capacity { deque_capacity held.new ≡ deque_capacity held.old }
    ensures moves { result.moves ≡ room.moves ++ numbered side (numbers modulus) pr first held.old.items }
    ensures room { result.room + length held.old.items ≡ room.room }
{
    let numbers = modulus.numbers();
    let mut moves = room;
    let mut next = first;
    while let Some(carried) = held.pop_front() {
        moves = moves.with(numbered_move(side, next, pr, carried));
        next = (next + 1) % numbers;
    }
    moves
}

impl<A: Allocator> DirectionState<A> {
    /// Sends all packets that wait to `side`, with this P(R).
    fn put_out(&mut self, side: End, pr: u8, room: Moves<A>) -> Moves<A>
        requires { 15 ≤ room.room }
        ensures shown { (d : Direction A) → Represents self.old d → Represents self.new (put_all d) }
        ensures moves { (d : Direction A) → Represents self.old d → result.moves ≡ room.moves ++ numbered side (numbers d.terms.receiver) pr d.put (drop d.put d.accepted) }
        ensures room { room.room ≤ result.room + 15 }
    {
        let modulus = self.terms.receiver;
        let numbers = modulus.numbers();
        let first = (self.oldest + self.out) % numbers;
        self.out += self.held.len() as u8;
        drained(&mut self.held, side, modulus, pr, first, room)
    }

    /// Sends all packets that wait to the receiver, `side`, with this P(R), where the receiver takes data.
    pub(crate) fn release(&mut self, side: End, pr: u8, room: Moves<A>) -> Moves<A>
        requires { 15 ≤ room.room }
        ensures shown { (d : Direction A) → Represents self.old d → Represents self.new (release d) }
        ensures moves { (d : Direction A) → Represents self.old d → result.moves ≡ room.moves ++ released side pr d }
        ensures room { room.room ≤ result.room + 15 }
    {
        if self.is_open() {
            self.put_out(side, pr, room)
        } else {
            room
        }
    }
}
