//! What is shown of a line.

ghost use Rattle.std.specs.Prelude.{◌≡◌, IfOk};
ghost use Rattle.xp_observer.specs.Shown.{IsShownAs, has_no_name, names_in, state_of};

use std::alloc::{AllocError, Global};
use std::net::SocketAddr;
use xp_channel::Channel;
use xp_console::{LineState, LineStatus, Party};
use xp_file::Name;
use xp_machine::LineView;
use xp_packets::Digits;

/// The name and the address of a line, and the address of its station.
#[derive(Drop)]
pub(crate) struct NamedLine {
    pub(crate) name: Name,
    pub(crate) address: Digits,
    pub(crate) station: Digits,
}

/// What is known of a line besides what the exchange shows.
#[derive(Clone, Copy, PartialEq)]
pub(crate) struct LineNotes {
    /// The far end of its connection.
    pub(crate) peer: Option<SocketAddr>,
    /// The state and the call in which it was last seen, and the moment since which it has been in them.
    channel: Channel,
    call: Option<u64>,
    since: u64,
}

impl LineNotes {
    /// Those of a line that was not seen yet.
    pub(crate) fn new(since: u64) -> LineNotes {
        LineNotes {
            peer: None,
            channel: Channel::Off,
            call: None,
            since,
        }
    }

    /// Takes note of what is seen of the line at this moment.
    pub(crate) fn see(&mut self, now: u64, seen: LineView) {
        if self.channel != seen.channel || self.call != seen.call {
            self.channel = seen.channel;
            self.call = seen.call;
            self.since = now;
        }
    }
}

impl NamedLine {
    /// Whether it is a spare place: it has no name.
    pub(crate) fn is_spare(&self) -> bool
        ensures { result ≡ has_no_name (names_in self.now) }
    {
        self.name.as_str().is_empty()
    }

    /// What is shown of the line.
    pub(crate) fn status(
        &self,
        alloc: Global,
        notes: LineNotes,
        router_unreachable_since: Option<u64>,
        seen: LineView,
    ) -> Result<LineStatus, AllocError>
        ensures { IfOk result (IsShownAs (names_in self.now) seen) }
    {
        Ok(LineStatus {
            name: String::from_str(alloc, self.name.as_str())?,
            address: self.address.to_string(alloc)?,
            station: self.station.to_string(alloc)?,
            state: state_of(seen.channel),
            peer: notes.peer,
            since: notes.since,
            call: seen.call,
            router_unreachable_since,
        })
    }
}

/// A line of this name and this address as a party to a call.
pub(crate) fn party_of(alloc: Global, name: &Name, address: &Digits) -> Result<Party, AllocError> {
    Ok(Party {
        line: String::from_str(alloc, name.as_str())?,
        address: address.to_string(alloc)?,
    })
}

/// The state of a line's logical channel.
fn state_of(channel: Channel) -> LineState
    ensures { result ≡ state_of channel }
{
    match channel {
        Channel::Off => LineState::OutOfService,
        Channel::P1 => LineState::Ready,
        Channel::P2 => LineState::DteWaiting,
        Channel::P3 => LineState::DceWaiting,
        Channel::P4 => LineState::DataTransfer,
        Channel::P7 => LineState::DceClearIndication,
    }
}
