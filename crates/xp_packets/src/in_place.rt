ghost use Rattle.std.specs.Prelude.{◌≡◌, ◌≤◌, length};

use std::marker::Model;

/// The most octets that are stored in place: as many as use no more room than the reference to a shared block.
pub(crate) const MOST_IN_PLACE: usize = 22;

/// A few octets, stored in place.
#[derive(Drop)]
pub(crate) struct InPlaceOctets {
    octets: [u8; MOST_IN_PLACE],
    count: u8,
}

impl Model for InPlaceOctets {
    ghost use Rattle.std.specs.Prelude.{◌≤◌, List, ℕ, take};

    ghost Value = { List ℕ };

    ghost view = { λ f. take f.count f.octets };

    ghost invariant = { λ f. f.count ≤ 22 };
}

impl InPlaceOctets {
    /// Copies these octets, at most 22.
    pub(crate) fn of(octets: &[u8]) -> InPlaceOctets
        requires { length octets.now ≤ 22 }
        ensures { result ≡ octets.now }
    {
        let count = octets.len();
        let mut places = [0; MOST_IN_PLACE];
        places[..count].copy_from_slice(octets);
        InPlaceOctets {
            octets: places,
            count: count as u8,
        }
    }

    /// An equal copy.
    pub(crate) fn copy(&self) -> InPlaceOctets
        ensures { result ≡ self.now }
    {
        InPlaceOctets {
            octets: self.octets,
            count: self.count,
        }
    }

    /// The octets, in order.
    pub(crate) fn as_slice(&self) -> &[u8]
        ensures { result.now ≡ self.now }
    {
        &self.octets[..usize::from(self.count)]
    }
}
