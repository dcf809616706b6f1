//! A queue of pieces that is full.

use std::alloc::Global;
use std::sync::Arc;
use std::test::Fail;
use xp_clock::Start;
use xp_door::{LineShare, Notices, Tap, Trace};
use xp_trace::{TracedLines, WaitingPieces};

/// A call confirmation on channel 1, of seven octets.
const FRAME: &[u8] = b"\x00\x00\x00\x03\x10\x01\x0f";

/// How many octets wait at most.
const ROOM: usize = 16_777_216;

/// The trace of one line.
fn new_trace(alloc: Global) -> Result<Arc<Trace>, Fail> {
    let trace = Trace::new(alloc, TracedLines::All, 1)?;
    Ok(Arc::new(alloc, trace)?)
}

/// The tap of the line's next connection.
fn next_tap(alloc: Global, trace: &Arc<Trace>) -> Result<Option<Tap>, Fail> {
    let notices = Notices::with_trace(alloc, Start::read(), Some(Arc::try_clone(trace)?))?;
    let notices = Arc::new(alloc, notices)?;
    let share = LineShare::new(0, &Arc::new(alloc, Vec::new(alloc))?, &notices)?;
    Ok(share.tap())
}

/// Frames of 4,096 octets, the last one without its end.
fn two_frames() -> [u8; 8_192] {
    let mut octets = [0; 8_192];
    octets[2] = 0x0f;
    octets[3] = 0xfc;
    octets[4_098] = 0x0f;
    octets[4_099] = 0xfc;
    octets
}

/// Fills the queue with whole frames, and lets 8,000 octets more pass, another frame the other way, and, once the queue was taken, the rest
/// of the 8,192 and a frame. How many octets were left out each time, and of the one piece that waits in the end how many there are,
/// its sequence number and how far the other way was.
fn filled(trace: &Trace, tap: &mut Tap, pieces: &mut WaitingPieces) -> [u64; 8] {
    let octets = two_frames();
    let (first, second) = octets.split_at(octets.len().min(8_000));
    for _frame in 0..ROOM / 4_096 {
        tap.receive(&first[..first.len().min(4_096)]);
    }
    let whole = trace.left_out();
    tap.receive(first);
    let cut = trace.left_out();
    tap.send(FRAME);
    let sent = trace.left_out();
    trace.exchange(pieces);
    let taken = pieces.pieces().len() as u64;
    pieces.clear();
    tap.receive(second);
    let left_out = trace.left_out();
    tap.receive(FRAME);
    trace.exchange(pieces);
    let (sequence, acknowledged) = match pieces.pieces().first() {
        Some(piece) => (u64::from(piece.sequence), u64::from(piece.acknowledged)),
        None => (0, 0),
    };
    let last = pieces.pieces().len() as u64;
    [
        whole,
        cut,
        sent,
        taken,
        left_out,
        last,
        sequence,
        acknowledged,
    ]
}

/// What a full queue has no room for is counted to the octet, and what comes when there is room again begins with a frame.
#[test]
fn queue_that_is_full(rt: HostRuntime) -> Result<(), Fail> {
    let mut pieces = WaitingPieces::new(rt.alloc())?;
    let trace = new_trace(rt.alloc())?;
    let mut tap = next_tap(rt.alloc(), &trace)?.ok_or("no tap")?;
    let filled = filled(&trace, &mut tap, &mut pieces);
    drop(tap);
    drop(trace);
    drop(pieces);
    assert!(rt; filled == [0, 8_000, 8_007, 4_096, 8_199, 1, 16_785_409, 8]);
    Ok(())
}

/// Lets so many short pieces pass, and stops the trace. How many octets were left out.
fn flooded(trace: &Trace, tap: &mut Tap) -> u64 {
    for _piece in 0..65_537 {
        tap.send(FRAME);
    }
    trace.stop();
    trace.left_out()
}

/// There is room for 65,536 pieces, however short they are. Once the trace is stopped, no connection has a tap.
#[test]
fn queue_of_many_pieces(rt: HostRuntime) -> Result<(), Fail> {
    let trace = new_trace(rt.alloc())?;
    let mut tap = next_tap(rt.alloc(), &trace)?.ok_or("no tap")?;
    let left_out = flooded(&trace, &mut tap);
    drop(tap);
    let next = next_tap(rt.alloc(), &trace)?;
    drop(trace);
    assert!(rt; left_out == 7 && next.is_none());
    Ok(())
}
