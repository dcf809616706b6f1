//! Laws of the definitions. Each law is the contract of a function with an empty body.
ghost use Rattle.xp_answer.specs.Laws.{IncomingCallIsOne, IncomingCallCanBeSent, EveryAnswerHasOne, ConnectionsSettleTerms, ConnectedCanBeSent, EveryClearHasOneIndication, ForwardedClearCanBeSent, InformationIsTold};

use std::alloc::Allocator;

/// There is only one incoming call packet for a line that rings.
pub fn incoming_call_is_one<A: Allocator>()
    ensures { IncomingCallIsOne A }
{}

/// The incoming call packet can be encoded, and its facility field has at most 107 octets.
pub fn incoming_call_can_be_sent<A: Allocator>()
    ensures { IncomingCallCanBeSent A }
{}

/// Every answer is either accepted or refused, never both, and has only one outcome.
pub fn every_answer_has_one_outcome<A: Allocator>()
    ensures { EveryAnswerHasOne A }
{}

/// Each size of a connected call is between the one that was indicated and the default. A line that may have the sizes
/// that were indicated may have those of the call.
pub fn connections_settle_terms<A: Allocator>()
    ensures { ConnectionsSettleTerms A }
{}

/// The call connected packet can be encoded, and its facility field has at most 107 octets.
pub fn connected_can_be_sent<A: Allocator>()
    ensures { ConnectedCanBeSent A }
{}

/// A clear request leads to exactly one clear indication for the far end.
pub fn every_clear_has_one_indication<A: Allocator>()
    ensures { EveryClearHasOneIndication A }
{}

/// The clear indication can be encoded, and its facility field has at most 107 octets.
pub fn forwarded_clear_can_be_sent<A: Allocator>()
    ensures { ForwardedClearCanBeSent A }
{}

/// The facility field of charging information indicates the duration and the segments, and the exchange's own packets
/// with it can be encoded.
pub fn information_is_told<A: Allocator>()
    ensures { InformationIsTold A }
{}
