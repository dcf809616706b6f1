//! The call of a connection, as its octets pass in both directions.

ghost use Rattle.std.specs.Prelude.{◌≡◌, ◌≢◌, ◌<◌, [], false, true, List, ℕ};
ghost use Rattle.xp_clearing.specs.declared.clearing.Clearing.{Clearing as Cleared};
ghost use Rattle.xp_clearing.specs.declared.clearing.Clearing.TheVariants.{NotBegun as NothingBegun};
ghost use Rattle.xp_clearing.specs.Calls.{PassesOf};
ghost use Rattle.xp_clearing.specs.Clearings.{after_received, after_sent, is_settled, takes_no_more};
ghost use Rattle.xp_clearing.specs.Frames.{IsUnfinished};

use crate::clearing::Clearing;
use crate::frame_watch::FrameWatch;

/// What has passed on a connection: where its two streams of frames are, and how far its call is cleared.
#[derive(Drop)]
pub struct CallWatch {
    pub clearing: Clearing,
    pub sent: FrameWatch,
    pub received: FrameWatch,
    /// Whether any octet was sent.
    pub has_sent: bool,
    /// Whether any octet was received.
    pub has_received: bool,
    ghost unfinished: { IsUnfinished sent × IsUnfinished received },
}

impl CallWatch {
    /// The watch of a new connection.
    pub fn new() -> CallWatch
        ensures clearing { result.clearing ≡ NothingBegun }
        ensures sent { (result.sent ≡ []) × (result.has_sent ≡ false) }
        ensures received { (result.received ≡ []) × (result.has_received ≡ false) }
    {
        CallWatch {
            clearing: Clearing::NotBegun,
            sent: FrameWatch::new(),
            received: FrameWatch::new(),
            has_sent: false,
            has_received: false,
        }
    }

    /// How many of these octets may be sent: all, or those to the end of the frame by which the call is cleared on both sides.
    pub fn may_send(&self, octets: &[u8]) -> usize
        requires { is_settled self.now.clearing ≡ false }
        ensures { (after : Cleared) × (left : List ℕ) × PassesOf after_sent is_settled self.now.clearing self.now.sent octets.now result after left }
    {
        let mut clearing = self.clearing;
        let mut sent = self.sent.again();
        send_through(&mut clearing, &mut sent, octets)
    }

    /// These octets are sent, to the end of the frame by which the call is cleared on both sides at most.
    pub fn send(&mut self, octets: &[u8])
        requires { is_settled self.old.clearing ≡ false }
        ensures sent { (count : ℕ) × PassesOf after_sent is_settled self.old.clearing self.old.sent octets.now count self.new.clearing self.new.sent }
        ensures has_sent { self.new.has_sent ≡ true }
        ensures received { (self.new.received ≡ self.old.received) × (self.new.has_received ≡ self.old.has_received) }
    {
        self.has_sent = true;
        send_through(&mut self.clearing, &mut self.sent, octets);
    }

    /// These octets have come. How many of them are of the call: all, or those to the end of the frame by which the router clears
    /// it, or by which it is cleared on both sides.
    pub fn receive(&mut self, octets: &[u8]) -> usize
        requires { takes_no_more self.old.clearing ≡ false }
        ensures received { PassesOf after_received takes_no_more self.old.clearing self.old.received octets.now result self.new.clearing self.new.received }
        ensures some { octets.now ≢ [] → 0 < result }
        ensures has_received { self.new.has_received ≡ true }
        ensures sent { (self.new.sent ≡ self.old.sent) × (self.new.has_sent ≡ self.old.has_sent) }
    {
        self.has_received = true;
        receive_through(&mut self.clearing, &mut self.received, octets)
    }
}

/// Passes octets to the router until the call is cleared on both sides. How many passed.
fn send_through(clearing: &mut Clearing, sent: &mut FrameWatch, octets: &[u8]) -> usize
    requires before { is_settled clearing.old ≡ false }
    requires unfinished { IsUnfinished sent.old }
    ensures passes { PassesOf after_sent is_settled clearing.old sent.old octets.now result clearing.new sent.new }
    ensures unfinished { IsUnfinished sent.new }
{
    for (place, octet) in octets.iter().enumerate() {
        if let Some(frame) = sent.pass(*octet) {
            *clearing = clearing.after_sent(frame);
            if clearing.is_settled() {
                return place + 1;
            }
        }
    }
    octets.len()
}

/// Passes octets from the router until no more of them are of the call. How many passed.
fn receive_through(clearing: &mut Clearing, received: &mut FrameWatch, octets: &[u8]) -> usize
    requires before { takes_no_more clearing.old ≡ false }
    requires unfinished { IsUnfinished received.old }
    ensures passes { PassesOf after_received takes_no_more clearing.old received.old octets.now result clearing.new received.new }
    ensures some { octets.now ≢ [] → 0 < result }
    ensures unfinished { IsUnfinished received.new }
{
    for (place, octet) in octets.iter().enumerate() {
        if let Some(frame) = received.pass(*octet) {
            *clearing = clearing.after_received(frame);
            if clearing.takes_no_more() {
                return place + 1;
            }
        }
    }
    octets.len()
}
