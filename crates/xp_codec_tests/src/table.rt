//! Calls of the codecs, a line each: frames (RFC 1613), packets modulo 8 and modulo 128 (`long`), facility fields, octets that are kept, and
//! requests to the allocator that refuses one of them.
//!
//! A line tells what the call is given, how long the first of its two pieces is (`cut=`), what it returns where that is not the same (`to=`),
//! and behind ` = ` that it succeeds, or the name of its fault. Each request for memory is refused in turn, from that of the number
//! `from=` on; there are `least=` of them or more, and no more than `most=`.

use crate::playing::is_line_as_told;
use std::test::Fail;

const TABLE: &str = "\
# Bad heads, of which each is judged once its four octets are there, the version first; a frame in two pieces; and many frames in one
# piece: the time to cut it grows with its length alone.
frames octets=00010003 cut=3 to= = frame version 1 in place of 0
frames octets=12340002 cut=0 to= = frame version 4660 in place of 0
frames octets=000000021001 cut=3 to= = packet length 2 outside 3 to 1028 octets
frames octets=0000040410 cut=5 to= = ok
frames octets=00000405 cut=3 to= = packet length 1029 outside 3 to 1028 octets
frames octets=000100030000000d10010b07208002000001000000 cut=4 to= = the stream has failed
frames least=4 octets=0000000d10010b07208002000001000000 cut=10 = ok
frames from=1000000 times=40000 octets=0000000d10010b07208002000001000000 = ok
# Packets of each kind modulo 8, with what each may have, as they are read and written again; then octets that are no packet. Rows show the
# diagnostics of many more.
packet least=1 octets=10010b77208002020800100642070743020201000000 = ok
packet least=1 octets=5fff0b21917000 = ok
packet least=1 octets=51020f0006420707430202 = ok
packet least=1 octets=1001130d = ok
packet least=1 octets=1001130d43 = ok
packet least=1 octets=100113000700020401c0ff = ok
packet least=1 octets=100117000ac2080000000000000002 = ok
packet least=1 octets=d001b6776f726c64 = ok
packet least=1 octets=10012341 = ok
packet least=1 octets=10001f = ok
packet octets=1001 = packet too short
packet octets=1001ff = unidentifiable packet
packet octets=10010b01a0 = invalid address
packet octets=20010b0000 = invalid general format identifier
packet octets=10010b006e = invalid facility length
packet octets=10011f00 = packet too long
# Packets modulo 128: data and flow control have P(R) in an octet of its own, and others differ in octet 1 alone.
long least=1 octets=e001feff776f726c64 = ok
long least=1 octets=2fff02fc41 = ok
long least=1 octets=60010b072080020003430f0f = ok
long least=1 octets=2001130d43 = ok
long least=1 octets=20001b0527 = ok
# Facility fields, and what is written of what they ask. The items behind the second of three markers belong to another network, and are
# dropped. Rows show what each facility means.
field octets=01c002980401420804430701481234 to=01c00298420804430701481234 = ok
field octets=000f0a0100ff0b02000f0c03 to=000f0a010c03 = ok
field octets=42 = invalid facility length
field octets=0500 = facility code not allowed
field octets=420300 = facility parameter not allowed
# Up to 22 octets are kept without memory. The refusing allocator refuses the numbered request alone, and a growth is a request of its own.
kept most=0 octets=01010101010101010101010101010101010101010101 = ok
kept least=1 octets=0101010101010101010101010101010101010101010101 = ok
requests least=3 most=3 = ok";

#[test]
fn calls_as_told(rt: HostRuntime) -> Result<(), Fail> {
    for line in TABLE.lines() {
        if !line.starts_with('#') {
            assert!(rt; is_line_as_told(rt.alloc(), line)?, "{line}");
        }
    }
    Ok(())
}
