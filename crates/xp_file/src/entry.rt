//! The content of the subscription file, table by table.
ghost use Rattle.std.specs.Prelude.{◌≡◌};
ghost use Rattle.xp_file.specs.Entries.{is_behind};

use crate::name::Name;
use crate::router::RouterAddress;
use crate::sources::Sources;
use std::marker::Model;
use xp_packets::{Digits, Modulus};

/// Where a station's calls are redirected, and for which reasons (X.25 clause 6.25.1).
#[derive(Drop, PartialEq)]
pub struct Redirection {
    /// The alternate address, 1 to 15 digits. It need not be an address of this exchange.
    pub to: Digits,
    /// Whether every call is redirected.
    pub systematic: bool,
    /// Whether a call is redirected if no line is idle.
    pub busy: bool,
    /// Whether a call is redirected if all lines are out of service.
    pub out_of_order: bool,
}

impl Redirection {
    /// An equal copy.
    pub fn copy(&self) -> Redirection
        ensures { result ≡ self.now }
    {
        Redirection {
            to: self.to.copy(),
            systematic: self.systematic,
            busy: self.busy,
            out_of_order: self.out_of_order,
        }
    }
}

/// The facilities that a station has subscribed to (X.25 clause 6).
#[derive(Clone, Copy, Default, PartialEq, Eq)]
pub struct Facilities {
    /// Outgoing calls barred (X.25 clause 6.6).
    pub outgoing_barred: bool,
    /// Incoming calls barred (X.25 clause 6.5).
    pub incoming_barred: bool,
    /// Reverse charging acceptance (X.25 clause 6.19).
    pub reverse_charging: bool,
    /// Fast select acceptance (X.25 clause 6.17).
    pub fast_select: bool,
    /// Closed user group with outgoing access (X.25 clause 6.14.2).
    pub outgoing_access: bool,
    /// Closed user group with incoming access (X.25 clause 6.14.3).
    pub incoming_access: bool,
}

/// Where the calls of a line come from and go to, or that there is no line.
#[derive(Drop, PartialEq)]
pub enum Access {
    /// The TCP port of the line alone, 1 to 65,535: the exchange listens there for its one connection.
    Port(u16),
    /// The XOT router behind which the line is: each call has a connection of its own (RFC 1613).
    Router(RouterAddress),
    /// No line: its place is kept for one that may come. A file has none of these.
    Spare,
}

impl Access {
    /// An equal copy.
    pub fn copy(&self) -> Access
        ensures { result ≡ self.now }
    {
        match self {
            Access::Port(port) => Access::Port(*port),
            Access::Router(router) => Access::Router(router.copy()),
            Access::Spare => Access::Spare,
        }
    }

    /// Whether it is a router with this address, at whatever port.
    pub fn is_behind(&self, router: &str) -> bool
        ensures { result ≡ is_behind router.now self.now }
    {
        match self {
            Access::Port(_) | Access::Spare => false,
            Access::Router(own) => own.address() == router,
        }
    }
}

/// A line.
#[derive(Drop)]
pub struct LineEntry {
    pub name: Name,
    /// Its port or its router.
    pub access: Access,
    /// The line's own address, 1 to 15 digits, if it has one in addition to its station's.
    pub address: Option<Digits>,
    /// The modulus of its packet numbers (X.25 clause 4.4.1.1).
    pub modulus: Modulus,
    /// The addresses from which its connections may come, 1 to 8; none where any address may.
    pub from: Sources,
}

/// A station's membership of a closed user group.
#[derive(Drop)]
pub struct GroupEntry {
    pub name: Name,
    /// The index by which the station selects the group, 0 to 9,999.
    pub index: u16,
    /// Outgoing calls barred within the group.
    pub outgoing_barred: bool,
    /// Incoming calls barred within the group.
    pub incoming_barred: bool,
}

/// A station.
#[derive(Drop)]
pub struct StationEntry {
    /// The address, 1 to 15 digits.
    pub address: Digits,
    pub facilities: Facilities,
    /// The index of the preferential group, 0 to 9,999.
    pub preferential: Option<u16>,
    /// Whether the station takes the calls of its routers whose calling address is missing, or is that of no station behind
    /// the router.
    pub default_caller: bool,
    /// The lines in the order of the file, at least one.
    pub lines: Vec<LineEntry>,
    /// The closed user groups in the order of the file.
    pub groups: Vec<GroupEntry>,
    pub redirect: Option<Redirection>,
}

impl Model for StationEntry {
    ghost use Rattle.xp_file.specs.Entries.{StationData};

    ghost Value = { StationData };

    ghost view = { λ station. record {
      address = station.address;
      facilities = station.facilities;
      preferential = station.preferential;
      default_caller = station.default_caller;
      lines = station.lines.items;
      groups = station.groups.items;
      redirect = station.redirect;
    } };
}
