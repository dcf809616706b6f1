//! What lines receive and send, as pieces for a capture file: which lines are traced, which octets of a connection make a piece
//! where some had to be left out, the pieces that wait, and what each adds to the file.
#![tactic(auto)]

mod names;
mod piece;
mod stream;
mod waiting;
mod writing;

pub use names::{NamesFault, TracedLines};
pub use piece::{MOST_OCTETS, Piece};
pub use stream::{Part, TracedStream};
pub use waiting::WaitingPieces;
pub use writing::write_piece;
