//! A frame as a TCP segment in a capture file.

ghost use Rattle.std.specs.Prelude.{◌≡◌, ◌≤◌, ◌++◌, length, OnErr, OnOk};
ghost use Rattle.xp_capture.specs.Segment.{head_octets, ip_header, ip_words, pseudo_words, record_words, segment_octets, tcp_header, tcp_words};

use crate::checksum::{checksum, sum_of_octets};
use crate::ends::Ends;
use crate::words::{Head, high_word, low_word, push_words, sum_of_words};
use std::alloc::{AllocError, Allocator};

/// The octets of both headers of a segment, IPv4 and TCP.
const HEADERS: u16 = 40;

/// A segment of one end of a connection.
#[derive(Clone, Copy)]
pub struct Segment<'a> {
    /// The second in which it goes. A file tells seconds up to 4,294,967,295, and that one in the place of later ones.
    pub moment: u64,
    pub ends: Ends,
    /// The sequence number of its first octet.
    pub sequence: u32,
    /// The sequence number that is expected from the other end.
    pub acknowledged: u32,
    /// At most 65,495 octets of data.
    pub octets: &'a [u8],
}

impl Segment<'_> {
    /// What stands in front of the data: a record of pcap, the IPv4 header and the TCP header.
    #[tactic(auto, unfolding(crate::specs::Segment::head_octets))]
    pub(crate) fn head(&self) -> Head
        requires { length self.now.octets.now ≤ 65_495 }
        ensures { result.items ≡ head_octets self.now.moment self.now.ends self.now.sequence self.now.acknowledged self.now.octets.now }
    {
        let count = self.octets.len() as u16;
        let mut head = Head::new();
        push_words(&mut head, &record_words(self.moment, count));
        push_words(&mut head, &ip_header(self.ends, count));
        push_words(&mut head, &self.tcp_header());
        head
    }

    /// The TCP header, with its checksum.
    fn tcp_header(&self) -> [u16; 10]
        requires { length self.now.octets.now ≤ 65_495 }
        ensures { result ≡ tcp_header self.now.ends self.now.sequence self.now.acknowledged self.now.octets.now }
    {
        let count = self.octets.len() as u16;
        let pseudo = sum_of_words(&pseudo_words(self.ends, count));
        let header = sum_of_words(&tcp_words(0, self.ends, self.sequence, self.acknowledged));
        let data = sum_of_octets(self.octets);
        let field = checksum(pseudo + header + data);
        tcp_words(field, self.ends, self.sequence, self.acknowledged)
    }
}

/// Appends a segment to the octets of a capture file, with its record.
///
/// # Errors
///
/// An allocation failed. Then `out` is as it was.
pub fn write_segment<A: Allocator>(
    out: &mut Vec<u8, A>,
    segment: &Segment<'_>,
) -> Result<(), AllocError>
    requires { length segment.now.octets.now ≤ 65_495 }
    ensures ok { OnOk result (out.new.items
        ≡ out.old.items ++ segment_octets segment.now.moment segment.now.ends segment.now.sequence segment.now.acknowledged segment.now.octets.now) }
    ensures err { OnErr result (out.new.items ≡ out.old.items) }
{
    let head = segment.head();
    out.reserve(head.len() + segment.octets.len())?;
    out.extend_from_slice(head.as_slice()).unwrap();
    out.extend_from_slice(segment.octets).unwrap();
    Ok(())
}

/// A record of pcap: the second, no microseconds, and twice the octets of the packet.
fn record_words(moment: u64, count: u16) -> [u16; 8]
    requires { count ≤ 65_495 }
    ensures { result ≡ record_words moment count }
{
    let second = moment.min(4_294_967_295) as u32;
    let length = HEADERS + count;
    [
        high_word(second),
        low_word(second),
        0,
        0,
        0,
        length,
        0,
        length,
    ]
}

/// The IPv4 header, with its checksum.
fn ip_header(ends: Ends, count: u16) -> [u16; 10]
    requires { count ≤ 65_495 }
    ensures { result ≡ ip_header ends count }
{
    let field = checksum(sum_of_words(&ip_words(0, ends, count)));
    ip_words(field, ends, count)
}

fn ip_words(field: u16, ends: Ends, count: u16) -> [u16; 10]
    requires { count ≤ 65_495 }
    ensures { result ≡ ip_words field ends count }
{
    [
        0x4500,
        HEADERS + count,
        0,
        0x4000,
        0x4006,
        field,
        high_word(ends.from),
        low_word(ends.from),
        high_word(ends.to),
        low_word(ends.to),
    ]
}

fn tcp_words(field: u16, ends: Ends, sequence: u32, acknowledged: u32) -> [u16; 10]
    ensures { result ≡ tcp_words field ends sequence acknowledged }
{
    [
        ends.from_port,
        ends.to_port,
        high_word(sequence),
        low_word(sequence),
        high_word(acknowledged),
        low_word(acknowledged),
        0x5018,
        0xffff,
        field,
        0,
    ]
}

fn pseudo_words(ends: Ends, count: u16) -> [u16; 6]
    requires { count ≤ 65_495 }
    ensures { result ≡ pseudo_words ends count }
{
    [
        high_word(ends.from),
        low_word(ends.from),
        high_word(ends.to),
        low_word(ends.to),
        6,
        20 + count,
    ]
}
