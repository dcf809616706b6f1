ghost use Rattle.std.specs.Prelude.{◌≡◌};
ghost use Rattle.xp_file.specs.Keys.{key_text};

use std::fmt;

/// A key of the subscription file.
#[derive(Clone, Copy, Debug, PartialEq, Eq)]
pub enum Key {
    SegmentLimit,
    Journal,
    Host,
    XotPort,
    SpareLines,
    SpareLines128,
    Station,
    Address,
    Line,
    OutgoingBarred,
    IncomingBarred,
    ReverseCharging,
    FastSelect,
    OutgoingAccess,
    IncomingAccess,
    Preferential,
    DefaultCaller,
    Group,
    Redirect,
    Name,
    Port,
    Router,
    Modulus,
    From,
    Index,
    To,
    Systematic,
    Busy,
    OutOfOrder,
    /// A key that the file may not have.
    Other,
}

impl Key {
    /// The key as it is written in the file; `other` for a key that the file may not have.
    pub fn name(self) -> &'static str
        ensures { result.now ≡ key_text self }
    {
        match self {
            Key::SegmentLimit => "segment_limit",
            Key::Journal => "journal",
            Key::Host => "host",
            Key::XotPort => "xot_port",
            Key::SpareLines => "spare_lines",
            Key::SpareLines128 => "spare_lines_128",
            Key::Station => "station",
            Key::Address => "address",
            Key::Line => "line",
            Key::OutgoingBarred => "outgoing_barred",
            Key::IncomingBarred => "incoming_barred",
            Key::ReverseCharging => "reverse_charging",
            Key::FastSelect => "fast_select",
            Key::OutgoingAccess => "outgoing_access",
            Key::IncomingAccess => "incoming_access",
            Key::Preferential => "preferential",
            Key::DefaultCaller => "default_caller",
            Key::Group => "group",
            Key::Redirect => "redirect",
            Key::Name => "name",
            Key::Port => "port",
            Key::Router => "router",
            Key::Modulus => "modulus",
            Key::From => "from",
            Key::Index => "index",
            Key::To => "to",
            Key::Systematic => "systematic",
            Key::Busy => "busy",
            Key::OutOfOrder => "out_of_order",
            Key::Other => "other",
        }
    }
}

impl fmt::Display for Key {
    ghost use Rattle.std.specs.Prelude.{Some};

    ghost output = { λ key. Some (key_text key) };

    fn fmt<W: fmt::Write>(&self, f: &mut fmt::Formatter<W>) -> fmt::Result {
        f.pad(self.name())
    }
}
