//! What a piece adds to a capture file.

ghost use Rattle.std.specs.Prelude.{◌≡◌, ◌++◌, OnErr, OnOk};
ghost use Rattle.xp_trace.specs.Pieces.{piece_octets};

use crate::piece::Piece;
use std::alloc::{AllocError, Allocator};
use xp_capture::{Ends, Segment, write_segment};

/// Appends a piece to the octets of a capture file, as a TCP segment at this moment, in seconds since 1970.
///
/// # Errors
///
/// An allocation failed. Then `out` is as it was.
pub fn write_piece<A: Allocator>(
    out: &mut Vec<u8, A>,
    moment: u64,
    piece: &Piece,
) -> Result<(), AllocError>
    ensures written { OnOk result (out.new.items ≡ out.old.items ++ piece_octets moment piece.now) }
    ensures refused { OnErr result (out.new.items ≡ out.old.items) }
{
    let segment = Segment {
        moment,
        ends: Ends::of_connection(piece.line, piece.connection, piece.direction),
        sequence: piece.sequence,
        acknowledged: piece.acknowledged,
        octets: piece.octets.as_slice(),
    };
    write_segment(out, &segment)
}
