//! Laws of charging. Each law is the contract of a function with an empty body.

ghost use Rattle.xp_charge.specs.Segments.{AreFewest};

/// The charge for a data packet is the fewest segments, at least one, that hold its octets.
pub fn segments_are_the_fewest_that_hold_the_octets()
    ensures { AreFewest }
{}
