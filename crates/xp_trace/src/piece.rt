//! A piece of what a line has received or sent.

ghost use Rattle.std.specs.Prelude.{◌≤◌, length};

use xp_subs::LineNo;
use xp_words::Direction;

/// The most octets of a piece.
pub const MOST_OCTETS: usize = 4_096;

/// Octets of one direction of a line's connection: at most 4,096.
#[derive(Drop)]
pub struct Piece {
    pub line: LineNo,
    /// The number of the connection among those of the line, from 0.
    pub connection: u32,
    pub direction: Direction,
    /// The sequence number of the first octet.
    pub sequence: u32,
    /// The sequence number of the next octet of the other direction.
    pub acknowledged: u32,
    pub octets: Vec<u8>,
    ghost most: { length octets.items ≤ 4_096 },
}
