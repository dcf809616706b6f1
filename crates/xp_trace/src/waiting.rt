//! The pieces that wait to be written.

ghost use Rattle.std.specs.Prelude.{◌≡◌, ◌↔◌, ◌++◌, ◌∷◌, [], IfOk, IsTrue};
ghost use Rattle.std.specs.Bool.{OnFalse, OnTrue};
ghost use Rattle.xp_trace.specs.Pieces.{HasRoom};

use crate::piece::Piece;
use std::alloc::{AllocError, Global};
use std::marker::Model;

/// How many pieces wait at most.
const MOST_PIECES: usize = 65_536;

/// How many octets they have at most.
const MOST_OCTETS_WAITING: usize = 16_777_216;

/// The pieces that wait to be written, in the order in which they came: at most 65,536, with 16 MiB of octets at most.
#[derive(Drop)]
pub struct WaitingPieces {
    pieces: Vec<Piece>,
    /// How many octets they have.
    octets: usize,
}

impl Model for WaitingPieces {
    ghost use Rattle.std.specs.Prelude.{◌≡◌, ◌≤◌, List, length, vec_capacity};
    ghost use Rattle.xp_trace.specs.Pieces.{octets_in};
    ghost use Rattle.xp_trace.specs.declared.piece.Piece.{Piece};

    ghost Value = { List Piece };

    ghost view = { λ waiting. waiting.pieces.items };

    ghost invariant = { λ waiting. (waiting.octets ≡ octets_in waiting.pieces.items) × (waiting.octets ≤ 16_777_216) × (65_536 ≤ vec_capacity waiting.pieces) };
}

impl WaitingPieces {
    /// No piece waits. Room is made for all that may.
    pub fn new(alloc: Global) -> Result<WaitingPieces, AllocError>
        ensures { IfOk result (λ waiting. waiting ≡ []) }
    {
        Ok(WaitingPieces {
            pieces: Vec::with_capacity(alloc, MOST_PIECES)?,
            octets: 0,
        })
    }

    /// Puts a piece behind those that wait, if there is room. Whether there was.
    pub fn put(&mut self, piece: Piece) -> bool
        ensures room { IsTrue result ↔ HasRoom self.old piece }
        ensures kept { OnTrue result (self.new ≡ self.old ++ piece ∷ []) }
        ensures left_out { OnFalse result (self.new ≡ self.old) }
    {
        let count = piece.octets.len();
        if self.pieces.len() >= MOST_PIECES || count > MOST_OCTETS_WAITING - self.octets {
            return false;
        }
        self.octets += count;
        self.pieces.push_reserved(piece);
        true
    }

    /// The pieces, in the order in which they came.
    pub fn pieces(&self) -> &[Piece]
        ensures { result.now ≡ self.now }
    {
        self.pieces.as_slice()
    }

    /// Drops all pieces. Their room is kept.
    pub fn clear(&mut self)
        ensures { self.new ≡ [] }
    {
        self.pieces.clear();
        self.octets = 0;
    }
}
