ghost use Rattle.std.specs.Prelude.{◌≡◌};

use std::alloc::{Allocator, Global};
use std::marker::Model;

/// Octets that come in on a line of the exchange. Their memory can be taken back for those of the next line.
#[derive(Drop)]
pub struct InputOctets<A: Allocator = Global> {
    octets: Vec<u8, A>,
}

impl<A: Allocator> Model for InputOctets<A> {
    ghost use Rattle.std.specs.Prelude.{List, ℕ};

    ghost Value = { List ℕ };

    ghost view = { λ heard. heard.octets.items };
}

impl<A: Allocator> InputOctets<A> {
    /// The octets of a vector.
    pub(crate) fn of(octets: Vec<u8, A>) -> InputOctets<A>
        ensures { result ≡ octets.items }
    {
        InputOctets { octets }
    }

    /// The octets, in order.
    pub fn as_slice(&self) -> &[u8]
        ensures { result.now ≡ self.now }
    {
        self.octets.as_slice()
    }

    /// The vector that holds them.
    pub fn into_vec(self) -> Vec<u8, A>
        ensures { result.items ≡ self }
    {
        self.octets
    }
}
