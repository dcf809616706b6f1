ghost use Rattle.std.specs.Prelude.{◌≡◌};
ghost use Rattle.xp_charge.specs.Segments.{segments};

/// The octets of a segment.
const OCTETS: usize = 64;

/// The segments charged for a data packet with `octets` octets of user data: at least one.
pub fn segments_of(octets: usize) -> usize
    ensures { result ≡ segments octets }
{
    octets.div_ceil(OCTETS).max(1)
}
