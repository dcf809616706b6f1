ghost use Rattle.std.specs.Prelude.{◌≡◌};
ghost use Rattle.xp_subs.specs.Tables.{has_router, is_spare, spare_place};

use crate::StationNo;
use crate::limits::NO_STATION;
use xp_file::{Access, Name, Sources};
use xp_packets::{Digits, Modulus};

/// One access line of a station, or a place that is kept for one.
#[derive(Drop)]
pub struct Line {
    pub name: Name,
    /// Its port or its router.
    pub access: Access,
    /// The line's own address, if it has one in addition to its station's.
    pub address: Option<Digits>,
    /// The modulus of its packet numbers (X.25 clause 4.4.1.1).
    pub modulus: Modulus,
    pub station: StationNo,
    /// The addresses from which its connections may come, 1 to 8; none where any address may.
    pub from: Sources,
}

impl Line {
    /// A place for a line of this modulus that may come.
    pub(crate) fn spare_place(modulus: Modulus) -> Line
        ensures { result ≡ spare_place modulus }
    {
        Line {
            name: Name::none(),
            access: Access::Spare,
            address: None,
            modulus,
            station: NO_STATION,
            from: Sources::new(),
        }
    }

    /// Whether the place has no line.
    pub(crate) fn is_spare(&self) -> bool
        ensures { result ≡ is_spare self.now }
    {
        matches!(self.access, Access::Spare)
    }

    /// An equal copy.
    pub(crate) fn copy(&self) -> Line
        ensures { result ≡ self.now }
    {
        Line {
            name: self.name.copy(),
            access: self.access.copy(),
            address: copy_of(&self.address),
            modulus: self.modulus,
            station: self.station,
            from: self.from.copy(),
        }
    }

    /// Whether the line is behind an XOT router.
    pub(crate) fn has_router(&self) -> bool
        ensures { result ≡ has_router self.now }
    {
        matches!(self.access, Access::Router(_))
    }
}

/// An equal copy of a line's own address, if it has one.
pub(crate) fn copy_of(address: &Option<Digits>) -> Option<Digits>
    ensures { result ≡ address.now }
{
    match address {
        Some(address) => Some(address.copy()),
        None => None,
    }
}
