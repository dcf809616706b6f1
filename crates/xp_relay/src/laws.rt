//! Laws of the definitions. Each is the contract of a function that does nothing.

ghost use Rattle.xp_relay.specs.Bounds.{PutsOutFew, StandsForTheCount};
ghost use Rattle.xp_relay.specs.Encodable.{PutsOutEncodable};
ghost use Rattle.xp_relay.specs.Observed.{EverythingIsDelivered, InterruptsAreDelivered, SendersAreTold};

use std::alloc::Allocator;

/// In each direction the receiver gets what was accepted from the sender since the last reset: each packet once, in
/// order, unchanged, numbered from 0 as the receiver's line numbers. If the receiver is ready and owes no reset
/// confirmation, it has got every packet; else the last packets may wait. The receiver is ready if its last RR or RNR
/// since the reset said so, or if it sent none. No more than a window is unacknowledged, by the P(R) of its data, RR and RNR.
pub fn everything_is_delivered<A: Allocator>()
    ensures { EverythingIsDelivered A }
{}

/// Each P(R) that an end receives, in data, RR or RNR, is the number of packets of this end that its far end had
/// acknowledged then, as the line of this end numbers. A change of that count, or of the far end's readiness, is told: the
/// last P(R) since the reset is for all that are acknowledged, and the last RR or RNR says whether the far end is ready,
/// unless this end owes a reset confirmation.
pub fn senders_are_told<A: Allocator>()
    ensures { SendersAreTold A }
{}

/// The interrupts of an end since the last reset go out to its far end, each once and in order. Only the last one may
/// wait, while the far end owes a reset confirmation.
pub fn interrupts_are_delivered<A: Allocator>()
    ensures { InterruptsAreDelivered A }
{}

/// A received P(R) is valid if it is the number of exactly one count: no less than what was acknowledged before, and no
/// more than what was sent.
pub fn received_number_stands_for_the_count<A: Allocator>()
    ensures { StandsForTheCount A }
{}

/// One packet leads to no more packets than a window and two, to both ends together: at most 9 where windows go to 7,
/// and at most 17 where they go to 15.
pub fn a_turn_puts_out_few<A: Allocator>()
    ensures { PutsOutFew A }
{}

/// Where each packet that comes in can be encoded by some modulus, each packet that goes to an end can be encoded by
/// the modulus of that end's line, under each logical channel identifier of at most 4,095.
pub fn every_packet_put_out_can_be_encoded<A: Allocator>()
    ensures { PutsOutEncodable A }
{}
