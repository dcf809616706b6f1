//! Entries of the history as segments of a capture file.

ghost use Rattle.std.specs.Prelude.{◌≡◌, ◌<◌, ◌≤◌, ◌++◌, All, IfOk, IfSome, OnOk, length, option_map};
ghost use Rattle.xp_transcript.specs.Segments.{entry_segments, event_frame, flows_by_entry, flows_by_outputs, flows_with, frame_of, output_segments, put_frame, segment_of};
ghost use Rattle.xp_frames.specs.Frame.{frame};
ghost use Rattle.xp_subs.specs.Tables.{line_count};

use std::alloc::{AllocError, Global};
use xp_capture::{Capture, Frame};
use xp_frames::write_frame;
use xp_packets::{Modulus, Packet, PacketFault, encode};
use xp_step::{Entry, Output, Put, What};
use xp_subs::{LineNo, Subs};
use xp_words::Direction;

/// Adds the segments of an entry: the frame that came, then those that are put out.
pub(crate) fn push_entry_segments(
    alloc: Global,
    subs: &Subs,
    capture: &mut Capture,
    entry: &Entry,
    text: &mut Vec<u8>,
) -> Result<(), AllocError>
    requires lines { length capture.old ≡ line_count subs.now }
    requires line { entry.now.event.line < line_count subs.now }
    requires outputs { All (λ output. output.line < line_count subs.now) entry.now.outputs }
    ensures segments { OnOk result (text.new.items ≡ text.old.items ++ entry_segments subs.now capture.old entry.now) }
    ensures after { OnOk result (capture.new ≡ flows_by_entry subs.now capture.old entry.now) }
    ensures count { length capture.new ≡ length capture.old }
{
    let moment = entry.event.moment;
    let line = entry.event.line;
    let frame = event_frame(alloc, subs.modulus_of(line), &entry.event.what)?;
    let direction = Direction::FromDte;
    push_segment(
        capture,
        Sent {
            moment,
            line,
            direction,
        },
        &frame,
        text,
    )?;
    push_output_segments(alloc, subs, capture, moment, entry.outputs.as_slice(), text)
}

/// Adds the segments of what is put out at this moment.
fn push_output_segments(
    alloc: Global,
    subs: &Subs,
    capture: &mut Capture,
    moment: u64,
    outputs: &[Output],
    text: &mut Vec<u8>,
) -> Result<(), AllocError>
    requires lines { length capture.old ≡ line_count subs.now }
    requires outputs { All (λ output. output.line < line_count subs.now) outputs.now }
    ensures segments { OnOk result (text.new.items ≡ text.old.items ++ output_segments subs.now moment capture.old outputs.now) }
    ensures after { OnOk result (capture.new ≡ flows_by_outputs subs.now capture.old outputs.now) }
    ensures count { length capture.new ≡ length capture.old }
{
    for output in outputs {
        let line = output.line;
        let frame = put_frame(alloc, subs.modulus_of(line), &output.outgoing.put)?;
        let direction = Direction::FromDce;
        push_segment(
            capture,
            Sent {
                moment,
                line,
                direction,
            },
            &frame,
            text,
        )?;
    }
    Ok(())
}

/// When a segment goes, between which line and the exchange.
#[derive(Clone, Copy)]
struct Sent {
    moment: u64,
    line: LineNo,
    direction: Direction,
}

/// Adds the segment of a frame of at most 1,032 octets, if there is one.
fn push_segment(
    capture: &mut Capture,
    sent: Sent,
    frame: &Option<Vec<u8>>,
    text: &mut Vec<u8>,
) -> Result<(), AllocError>
    requires line { sent.line < length capture.old }
    requires most { IfSome frame.now (λ octets. length octets.items ≤ 1032) }
    ensures segment { OnOk result (text.new.items ≡ text.old.items ++ segment_of capture.old sent.moment sent.line sent.direction (option_map (λ octets. octets.items) frame.now)) }
    ensures after { OnOk result (capture.new ≡ flows_with capture.old sent.line sent.direction (option_map (λ octets. octets.items) frame.now)) }
    ensures count { length capture.new ≡ length capture.old }
{
    match frame {
        None => Ok(()),
        Some(octets) => capture.write(
            text,
            Frame {
                moment: sent.moment,
                line: sent.line,
                direction: sent.direction,
                octets,
            },
        ),
    }
}

/// The frame of an event on a line of this modulus, if it is a packet.
fn event_frame(alloc: Global, modulus: Modulus, what: &What) -> Result<Option<Vec<u8>>, AllocError>
    ensures frame { IfOk result (λ frame. option_map (λ octets. octets.items) frame ≡ event_frame modulus what.now) }
    ensures most { IfOk result (λ frame. IfSome frame (λ octets. length octets.items ≤ 1032)) }
{
    match what {
        What::Frame { identifier, packet } => frame_of(alloc, modulus, *identifier, packet),
        What::Up | What::Down | What::WrongFrame(_) | What::Expire | What::Stall | What::Reload =>
            Ok(None),
    }
}

/// The frame of what is put out to a line of this modulus, if it is a packet.
fn put_frame(alloc: Global, modulus: Modulus, put: &Put) -> Result<Option<Vec<u8>>, AllocError>
    ensures frame { IfOk result (λ frame. option_map (λ octets. octets.items) frame ≡ put_frame modulus put.now) }
    ensures most { IfOk result (λ frame. IfSome frame (λ octets. length octets.items ≤ 1032)) }
{
    match put {
        Put::Send { identifier, packet } => frame_of(alloc, modulus, *identifier, packet),
        Put::Close => Ok(None),
    }
}

/// The frame of a packet, in its one written spelling. There is none where the packet cannot be encoded, which no packet
/// of an exchange is.
fn frame_of(
    alloc: Global,
    modulus: Modulus,
    identifier: u16,
    packet: &Packet,
) -> Result<Option<Vec<u8>>, AllocError>
    ensures frame { IfOk result (λ frame. option_map (λ octets. octets.items) frame ≡ frame_of modulus identifier packet.now) }
    ensures most { IfOk result (λ frame. IfSome frame (λ octets. length octets.items ≤ 1032)) }
{
    match encode(alloc, modulus, identifier, packet) {
        Ok(octets) => Ok(Some(framed(alloc, &octets)?)),
        Err(PacketFault::Malformed(_)) => Ok(None),
        Err(PacketFault::Memory) => Err(AllocError),
    }
}

/// The frame of a packet that can be encoded. It has 3 to 1,028 octets, so that only memory can be wanting.
fn framed(alloc: Global, packet: &[u8]) -> Result<Vec<u8>, AllocError>
    ensures frame { IfOk result (λ octets. octets.items ≡ frame packet.now) }
    ensures most { IfOk result (λ octets. length octets.items ≤ 1032) }
{
    let mut octets = Vec::new(alloc);
    write_frame(packet, &mut octets).map_err(|_| AllocError)?;
    Ok(octets)
}
