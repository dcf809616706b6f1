//! From where the connections of a line may come.

ghost use Rattle.std.specs.Prelude.{◌≡◌, ◌↔◌, [], Any, IfErr, IfOk, IsTrue, OnErr, OnOk};
ghost use Rattle.xp_tcp.specs.Admissions.{Adds, Admits, IsRefused};
ghost use Rattle.xp_tcp.specs.Networks.{Includes};

use crate::source::Source;
use arrayvec::ArrayVec;
use std::marker::Model;
use std::net::{IpAddr, Ipv4Addr};
use thiserror::Error;

/// How many sources a line has at most from which its connections may come.
pub const MOST_SOURCES: usize = 8;

/// Why a source is not added.
#[derive(Clone, Copy, Debug, Error)]
pub enum AdmissionFault {
    /// The text is that of no IPv4 or IPv6 address, and of no network.
    #[error("neither an address nor a network")]
    NoSource,
    /// There are 8 sources already.
    #[error("too many addresses and networks")]
    Full,
}

/// A source in its place. A free place holds 0.0.0.0, from which no connection comes.
#[derive(Drop)]
struct Place(Source);

impl Model for Place {
    ghost use Rattle.xp_tcp.specs.declared.source.Source.{Source};

    ghost Value = { Source };

    ghost view = { λ place. place.0 };
}

impl Default for Place {
    fn default() -> Place {
        Place(Source::Host(IpAddr::V4(Ipv4Addr::UNSPECIFIED)))
    }
}

/// The hosts and networks from which a line's connections may come. Where there is none they may come from any address. Contracts
/// see the list of them.
#[derive(Drop)]
pub struct Admission {
    places: ArrayVec<Place, MOST_SOURCES>,
}

impl Model for Admission {
    ghost use Rattle.std.specs.Prelude.{List};
    ghost use Rattle.xp_tcp.specs.declared.source.Source.{Source};

    ghost Value = { List Source };

    ghost view = { λ admission. admission.places.items };
}

impl Admission {
    /// Connections may come from any address.
    pub fn any() -> Admission
        ensures { result ≡ [] }
    {
        Admission {
            places: ArrayVec::new(),
        }
    }

    /// Adds the host or the network of a text, such as `10.0.0.9`, `2001:db8::9` or `10.0.0.0/8`. Names of hosts are not looked up.
    ///
    /// # Errors
    ///
    /// `NoSource` where the text is that of no IPv4 or IPv6 address and of no network, and else `Full` where there are 8 sources
    /// already. Nothing is added then.
    pub fn add(&mut self, text: &str) -> Result<(), AdmissionFault>
        ensures ok { OnOk result (Adds self.old text.now self.new) }
        ensures refused { IfErr result (IsRefused self.old text.now) }
        ensures err { OnErr result (self.new ≡ self.old) }
    {
        let Some(source) = Source::of(text) else {
            return Err(AdmissionFault::NoSource);
        };
        if self.places.is_full() {
            return Err(AdmissionFault::Full);
        }
        self.places.push(Place(source));
        Ok(())
    }

    /// Whether connections may come from any address.
    pub fn is_any(&self) -> bool
        ensures { IsTrue result ↔ (self.now ≡ []) }
    {
        self.places.is_empty()
    }

    /// Whether a connection may come from a peer's address. An IPv4-mapped IPv6 address, such as `::ffff:10.0.0.9`, counts as the
    /// IPv4 address in it.
    pub fn admits(&self, peer: IpAddr) -> bool
        ensures { IsTrue result ↔ Admits self.now peer }
    {
        self.places.is_empty() || is_among(self.places.as_slice(), peer)
    }
}

/// Whether one of the sources includes a peer.
fn is_among(places: &[Place], peer: IpAddr) -> bool
    ensures { IsTrue result ↔ Any (λ source. Includes source peer) places.now }
{
    for place in places {
        if place.0.includes(peer) {
            return true;
        }
    }
    false
}
