//! Capture files (pcap) of the frames of lines, which Wireshark reads as X.25 over TCP (RFC 1613).
#![tactic(auto)]

mod capture;
mod checksum;
mod ends;
mod file_header;
mod flow;
mod segment;
mod words;

pub use capture::{Capture, Frame};
pub use ends::Ends;
pub use file_header::write_file_header;
pub use segment::{Segment, write_segment};
