ghost use Rattle.std.specs.Prelude.{◌≡◌, ◌+◌, ◌-◌, ◌<◌, ◌≤◌, [], ◌∷◌, ◌++◌, IfNone, IfOk, IfSome, List, length, option_to_list};

use std::alloc::{AllocError, Allocator, Global};
use std::marker::Model;
use xp_packets::{End, Packet};

/// A packet for one end of the call.
#[derive(Drop)]
pub struct Move<A: Allocator = Global> {
    /// The end that receives it.
    pub side: End,
    pub packet: Packet<A>,
}

/// A list of moves, with room for more. To add a move allocates nothing.
#[derive(Drop)]
pub struct Moves<A: Allocator = Global> {
    moves: Vec<Move<A>, A>,
    room: usize,
}

impl<A: Allocator> Model for Moves<A> {
    ghost use Rattle.std.specs.Prelude.{◌+◌, ◌≤◌, vec_len, vec_capacity};
    ghost use Rattle.xp_relay.specs.Direction.{Made};

    ghost Value = { Made A };

    ghost view = { λ m. record { moves = m.moves.items; room = m.room } };

    ghost invariant = { λ m. vec_len m.moves + m.room ≤ vec_capacity m.moves };
}

impl<A: Allocator> Moves<A> {
    /// The most moves that one packet leads to, to both ends together.
    pub const MOST: usize = 17;

    /// Returns an empty list, with room for this many moves.
    pub fn with_room(alloc: A, room: usize) -> Result<Moves<A>, AllocError>
        ensures { IfOk result (λ made. made ≡ record { moves = []; room = room }) }
    {
        let moves = Vec::with_capacity(alloc, room)?;
        Ok(Moves { moves, room })
    }

    /// Returns an empty list, with room for this many moves. It uses the memory of this list again.
    pub fn emptied(self, room: usize) -> Result<Moves<A>, AllocError>
        ensures { IfOk result (λ made. made ≡ record { moves = []; room = room }) }
    {
        let Moves { mut moves, room: _ } = self;
        moves.clear();
        moves.reserve(room)?;
        Ok(Moves { moves, room })
    }

    /// Returns the moves so far, in order.
    pub fn as_slice(&self) -> &[Move<A>]
        ensures { result.now ≡ self.now.moves }
    {
        self.moves.as_slice()
    }

    /// Returns the moves so far, in order.
    pub fn into_vec(self) -> Vec<Move<A>, A>
        ensures { result.items ≡ self.moves }
    {
        let Moves { moves, room: _ } = self;
        moves
    }

    /// Removes the first move and returns it, if there is one. The list keeps its memory.
    pub fn take_first(&mut self) -> Option<Move<A>>
        ensures some { IfSome result (λ first. self.old.moves ≡ first ∷ self.new.moves) }
        ensures none { IfNone result (self.old.moves ≡ []) }
    {
        if self.moves.is_empty() {
            return None;
        }
        Some(self.moves.remove(0))
    }

    /// Adds one move.
    pub(crate) fn with(mut self, next: Move<A>) -> Moves<A>
        requires { 0 < self.room }
        ensures { result ≡ record { moves = self.moves ++ next ∷ []; room = self.room - 1 } }
    {
        self.moves.push_reserved(next);
        self.room -= 1;
        self
    }

    /// Adds one move, if there is one.
    pub(crate) fn with_some(self, next: Option<Move<A>>) -> Moves<A>
        requires { 0 < self.room }
        ensures moves { result.moves ≡ self.moves ++ option_to_list next }
        ensures room { self.room ≤ result.room + 1 }
    {
        match next {
            Some(next) => self.with(next),
            None => self,
        }
    }
}
