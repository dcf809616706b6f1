//! The calls of the codecs that take memory.

use std::alloc::Allocator;
use xp_facilities::{FacilityFault, IndicatedFacilities, parse, write};
use xp_frames::{Deframer, FrameFault, write_frame};
use xp_packets::{Modulus, Octets, Packet, PacketFault, decode, encode};

/// How many packets two pieces of a stream have at most.
const MOST_PACKETS: u32 = 100_000;

/// Two pieces of a stream come (RFC 1613), and their packets are framed again.
pub fn frames<A: Allocator + Copy>(
    alloc: A,
    first: &[u8],
    next: &[u8],
    wanted: &[u8],
) -> Result<bool, FrameFault> {
    let mut frames = Deframer::new(alloc);
    let mut out = Vec::new(alloc);
    let fed = feed(&mut frames, first, next);
    let framed = fed.and(frame_all(&mut frames, &mut out));
    let same = out.as_slice() == wanted;
    match framed {
        Ok(()) => Ok(same),
        Err(fault) => Err(fault),
    }
}

/// What is told of the second piece, also behind one that is at fault.
fn feed<A: Allocator + Copy>(
    frames: &mut Deframer<A>,
    first: &[u8],
    next: &[u8],
) -> Result<(), FrameFault> {
    match frames.feed(first) {
        Err(FrameFault::Memory) => Err(FrameFault::Memory),
        _ => frames.feed(next),
    }
}

/// Frames all packets that wait.
fn frame_all<A: Allocator + Copy>(
    frames: &mut Deframer<A>,
    out: &mut Vec<u8, A>,
) -> Result<(), FrameFault> {
    let mut framed = Ok(());
    for _packet in 0..MOST_PACKETS {
        let Some(packet) = frames.next() else {
            break;
        };
        framed = framed.and(write_frame(&packet, out));
        frames.reuse(packet);
    }
    framed
}

/// A packet is read, copied and written (X.25 clause 5).
pub fn packet<A: Allocator + Copy>(
    alloc: A,
    modulus: Modulus,
    octets: &[u8],
) -> Result<bool, PacketFault> {
    let (identifier, read) = decode(alloc, modulus, octets)?;
    let written = copied(alloc, modulus, identifier, &read);
    drop(read);
    Ok(written?.as_slice() == octets)
}

fn copied<A: Allocator + Copy>(
    alloc: A,
    modulus: Modulus,
    identifier: u16,
    read: &Packet<A>,
) -> Result<Vec<u8, A>, PacketFault> {
    let copied = read.copy()?;
    encode(alloc, modulus, identifier, &copied)
}

/// A facility field is read, and what it asks is written (X.25 clauses 6 and 7).
pub fn field<A: Allocator + Copy>(
    alloc: A,
    octets: &[u8],
    wanted: &[u8],
) -> Result<bool, FacilityFault> {
    let read = parse(alloc, octets)?;
    let values = IndicatedFacilities {
        selection: read.selection,
        fast: read.fast,
        reverse: read.reverse,
        throughput: read.throughput,
        modified: None,
        packet: read.packet,
        window: read.window,
        redirected: None,
        duration: None,
        segments: None,
        dte: read.dte,
    };
    let written = write(alloc, &values);
    drop(values);
    Ok(written?.as_slice() == wanted)
}

/// Octets are kept.
pub fn kept<A: Allocator + Copy>(alloc: A, octets: &[u8]) -> Result<bool, PacketFault> {
    let kept = Octets::from_slice(alloc, octets)?;
    Ok(kept.as_slice() == octets)
}

/// Three requests for memory: one for the first octets, and two to grow.
pub fn requests<A: Allocator + Copy>(alloc: A) -> Result<bool, PacketFault> {
    let mut octets: Vec<u8, A> = Vec::new(alloc);
    octets.reserve(10)?;
    octets.reserve(100)?;
    octets.reserve(1000)?;
    Ok(true)
}
