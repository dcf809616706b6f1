//! X.25 over TCP (RFC 1613): the frames that carry packets over a stream of octets.
//!
//! A frame is a header of four octets, which holds the version 0 and the packet's length, followed by the packet.
//! [`Deframer`] cuts a stream that arrives in pieces of any size back into packets; [`write_frame`] writes frames;
//! [`frame_header`] returns the header alone.
#![tactic(auto)]

mod deframer;
mod fault;
mod header;
mod laws;
mod writer;

pub use deframer::Deframer;
pub use fault::FrameFault;
pub use laws::{any_pieces, failed_ever_after, no_frame_begins_another, one_reading};
pub use writer::{frame_header, write_frame};
