//! Turns the octets of a line into events.

ghost use Rattle.std.specs.Prelude.{◌≡◌, [], All, IfOk, OnOk};
ghost use Rattle.xp_exchange.specs.steps.Acting.{emptied, IsBetweenFrames, TakesWhole};
ghost use Rattle.xp_exchange.specs.FrameEvents.{AreRead, CanCome, ReadsEvents, IsReadAs};

use std::alloc::{AllocError, Allocator};
use std::collections::VecDeque;
use xp_frames::{Deframer, FrameFault};
use xp_packets::{Modulus, PacketFault, decode};
use xp_step::{Event, What};
use xp_subs::LineNo;

/// On which line octets come in, and when.
#[derive(Clone, Copy)]
pub struct Arrival {
    pub line: LineNo,
    pub modulus: Modulus,
    /// The moment, in seconds.
    pub moment: u64,
}

/// Fills the queue with the events of octets that arrive so: one for each frame, and that the line goes down if a bad header
/// follows the frames. After a bad header the stream begins anew.
pub fn read_events<A: Allocator + Copy>(
    alloc: A,
    arrival: Arrival,
    stream: &mut Deframer<A>,
    octets: &[u8],
    events: &mut VecDeque<Event<A>, A>,
) -> Result<(), AllocError>
    requires { IsBetweenFrames stream.old }
    ensures heard { OnOk result (ReadsEvents arrival.modulus arrival.line arrival.moment stream.old.rest octets.now events.new.items stream.new.rest) }
    ensures between { OnOk result (IsBetweenFrames stream.new) }
    ensures fit { OnOk result (All (λ event. (event.line ≡ arrival.line) × CanCome event.what) events.new.items) }
{
    let fails = fails_with(stream, octets)?;
    read_all(alloc, arrival, stream, events)?;
    if fails {
        events.push_back(Event {
            line: arrival.line,
            moment: arrival.moment,
            what: What::Down,
        })?;
        *stream = Deframer::new(alloc);
    }
    Ok(())
}

/// Feeds octets to the stream. Returns whether a bad header follows their frames.
fn fails_with<A: Allocator + Copy>(
    stream: &mut Deframer<A>,
    octets: &[u8],
) -> Result<bool, AllocError>
    requires { IsBetweenFrames stream.old }
    ensures { IfOk result (λ fails. TakesWhole stream.old octets.now fails stream.new) }
{
    match stream.feed(octets) {
        Ok(()) => Ok(false),
        Err(FrameFault::Memory) => Err(AllocError),
        Err(FrameFault::Version(_) | FrameFault::Length(_) | FrameFault::Failed) => Ok(true),
    }
}

/// Takes the packets that wait off the stream, and fills the queue with their events.
fn read_all<A: Allocator + Copy>(
    alloc: A,
    arrival: Arrival,
    stream: &mut Deframer<A>,
    events: &mut VecDeque<Event<A>, A>,
) -> Result<(), AllocError>
    ensures read { OnOk result (AreRead arrival.modulus arrival.line arrival.moment stream.old.waiting events.new.items) }
    ensures fit { OnOk result (All (λ event. (event.line ≡ arrival.line) × CanCome event.what) events.new.items) }
    ensures stream { OnOk result (stream.new ≡ emptied stream.old) }
{
    empty(events);
    while let Some(packet) = stream.next() {
        let event = event_of(alloc, arrival, &packet)?;
        events.push_back(event)?;
        stream.reuse(packet);
    }
    Ok(())
}

/// Empties a queue. Nearly always it is empty, and then nothing is called.
#[inline(always)]
fn empty<A: Allocator>(events: &mut VecDeque<Event<A>, A>)
    ensures { events.new.items ≡ [] }
{
    if events.is_empty() {
        return;
    }
    events.clear();
}

/// Returns the event of one frame that arrives so, which holds these octets. They are a packet or they are none.
fn event_of<A: Allocator + Copy>(
    alloc: A,
    arrival: Arrival,
    octets: &[u8],
) -> Result<Event<A>, AllocError>
    ensures line { IfOk result (λ event. event.line ≡ arrival.line) }
    ensures moment { IfOk result (λ event. event.moment ≡ arrival.moment) }
    ensures read { IfOk result (λ event. IsReadAs arrival.modulus octets.now event.what) }
    ensures fit { IfOk result (λ event. CanCome event.what) }
{
    let what = match decode(alloc, arrival.modulus, octets) {
        Ok((identifier, packet)) => What::frame(identifier, packet),
        Err(PacketFault::Malformed(wrong)) => What::WrongFrame(wrong),
        Err(PacketFault::Memory) => return Err(AllocError),
    };
    Ok(Event {
        line: arrival.line,
        moment: arrival.moment,
        what,
    })
}
