//! Laws of the encoding of packets, for both moduli. Each law is the contract of a function with an empty body.

ghost use Rattle.xp_packets.specs.Laws.{EitherSpelledOrMalformed, EncodableByBoth, EncodableIsWritten, OneWrittenSpelling, SpelledIsEncodable, WrittenIsReadBack};

use std::alloc::Allocator;

/// Every string of octets either encodes exactly one identifier and packet, or has exactly one fault; never both.
pub fn either_spelled_or_malformed<A: Allocator>()
    ensures { EitherSpelledOrMalformed A }
{}

/// An identifier and a packet have at most one encoding in which every block has both length octets and spare bits are
/// zero.
pub fn one_written_spelling<A: Allocator>()
    ensures { OneWrittenSpelling A }
{}

/// The octets that `encode` returns for a packet encode that packet and no other. So `decode` returns what was
/// encoded.
pub fn written_is_read_back<A: Allocator>()
    ensures { WrittenIsReadBack A }
{}

/// If any octets encode a packet, then `encode` finds no fault in it.
pub fn spelled_is_encodable<A: Allocator>()
    ensures { SpelledIsEncodable A }
{}

/// If `encode` finds no fault in a packet, then it has an encoding in which every block has both length octets and spare
/// bits are zero.
pub fn encodable_is_written<A: Allocator>()
    ensures { EncodableIsWritten A }
{}

/// A packet that can be encoded modulo 8 can be encoded modulo 128.
pub fn encodable_by_both<A: Allocator>()
    ensures { EncodableByBoth A }
{}
