//! The calls that a line asks for, by the packets that pass on its connection: which are refused, or cleared for a fault.

ghost use Rattle.std.specs.Prelude.{◌≡◌};
ghost use Rattle.xp_door.specs.Calls.{after_received, after_sent, is_fault, told_of};

use crate::dialled::Dialled;
use crate::down_reason::DownReason;
use crate::notices::Notice;
use crate::packet_fronts::{PacketFronts, octet_at};
use crate::share::LineShare;
use std::fmt;
use xp_causes::FIRST_DTE_CAUSE;
use xp_words::{ClearingCause, Diagnostic};

/// The place of a packet's type.
const TYPE_PLACE: usize = 2;

/// The type octets of a call request and an incoming call, of a call connected packet, of a clear indication, and of a clear
/// confirmation (X.25 table 5-2).
const CALL: u8 = 0x0b;

const CONNECTED: u8 = 0x0f;

const CLEAR: u8 = 0x13;

const CLEAR_CONFIRMATION: u8 = 0x17;

/// A call that a line has asked for.
#[derive(Clone, Copy)]
pub struct AskedCall {
    pub dialled: Dialled,
    /// Whether the line was told that it is connected.
    pub is_connected: bool,
}

/// A call that the exchange has refused, or has cleared for a fault.
#[derive(Clone, Copy)]
pub struct ClearedCall {
    pub dialled: Dialled,
    /// Whether it was connected before. If not, it was refused.
    pub was_connected: bool,
    /// The clearing cause, 1 to 127.
    pub cause: u8,
    pub diagnostic: u8,
}

/// The text of the call, such as `call to 31102 refused: cause 0d not obtainable, diagnostic 67 invalid called address`.
impl fmt::Display for ClearedCall {
    ghost use Rattle.std.specs.Prelude.{Some};
    ghost use Rattle.xp_door.specs.steps.Notices.{cleared_text};

    ghost output = { λ call. Some (cleared_text call) };

    fn fmt<W: fmt::Write>(&self, f: &mut fmt::Formatter<W>) -> fmt::Result {
        let dialled = self.dialled;
        let end = CallEnd(self.was_connected);
        let why = Why {
            cause: self.cause,
            diagnostic: self.diagnostic,
        };
        write!(f, "call to {dialled} {end}: {why}")
    }
}

/// How a call ended that was connected, or was not.
#[derive(Clone, Copy)]
struct CallEnd(bool);

impl fmt::Display for CallEnd {
    ghost use Rattle.std.specs.Prelude.{Some};
    ghost use Rattle.xp_door.specs.steps.Notices.{end_text};

    ghost output = { λ end. Some (end_text end.0) };

    fn fmt<W: fmt::Write>(&self, f: &mut fmt::Formatter<W>) -> fmt::Result {
        f.write_str(if self.0 { "cleared" } else { "refused" })
    }
}

/// Why it ended.
#[derive(Clone, Copy)]
struct Why {
    cause: u8,
    diagnostic: u8,
}

impl fmt::Display for Why {
    ghost use Rattle.std.specs.Prelude.{Some};
    ghost use Rattle.xp_door.specs.steps.Notices.{why_text};

    ghost output = { λ why. Some (why_text why.cause why.diagnostic) };

    fn fmt<W: fmt::Write>(&self, f: &mut fmt::Formatter<W>) -> fmt::Result {
        let cause = ClearingCause(self.cause);
        let diagnostic = Diagnostic(self.diagnostic);
        write!(f, "cause {cause}, diagnostic {diagnostic}")
    }
}

/// What has passed on a connection of a line: where its two streams of frames are, and the call that the line has asked for.
#[derive(Drop)]
pub struct CallNotes {
    received: PacketFronts,
    sent: PacketFronts,
    call: Option<AskedCall>,
}

impl CallNotes {
    /// Those of a new connection.
    pub fn new() -> CallNotes {
        CallNotes {
            received: PacketFronts::new(),
            sent: PacketFronts::new(),
            call: None,
        }
    }

    /// Why what the line has sent is no frame, where it was found to be none.
    pub fn fault(&self) -> Option<DownReason> {
        self.received.fault()
    }

    /// The line has received these octets from its peer.
    pub fn receive(&mut self, octets: &[u8]) {
        let mut rest = octets;
        while !rest.is_empty() {
            let count = self.received.pass(rest);
            if let Some(packet) = self.received.packet() {
                self.call = after_received(self.call, packet);
            }
            rest = &rest[count..];
        }
    }

    /// The line has sent these octets to its peer. It tells the calls that are cleared by them.
    pub fn send(&mut self, share: &LineShare, octets: &[u8]) {
        let mut rest = octets;
        while !rest.is_empty() {
            let count = self.sent.pass(rest);
            if let Some(packet) = self.sent.packet() {
                if let Some(call) = told_of(self.call, packet) {
                    let line = share.line;
                    share.tell(Notice::CallCleared { line, call });
                }
                self.call = after_sent(self.call, packet);
            }
            rest = &rest[count..];
        }
    }
}

/// The call that the line has asked for, after a packet from its peer.
pub fn after_received(call: Option<AskedCall>, packet: &[u8]) -> Option<AskedCall>
    ensures { result ≡ after_received call packet.now }
{
    match octet_at(packet, TYPE_PLACE) {
        CALL => Some(AskedCall {
            dialled: Dialled::of(packet),
            is_connected: false,
        }),
        CLEAR_CONFIRMATION => None,
        _ => call,
    }
}

/// The call that the line has asked for, after a packet to its peer.
pub fn after_sent(call: Option<AskedCall>, packet: &[u8]) -> Option<AskedCall>
    ensures { result ≡ after_sent call packet.now }
{
    let asked = call?;
    match octet_at(packet, TYPE_PLACE) {
        CONNECTED => Some(AskedCall {
            dialled: asked.dialled,
            is_connected: true,
        }),
        CALL | CLEAR | CLEAR_CONFIRMATION => None,
        _ => call,
    }
}

/// The call that a packet to the line's peer refuses, or clears for a fault. `None` where it does neither.
pub fn told_of(call: Option<AskedCall>, packet: &[u8]) -> Option<ClearedCall>
    ensures { result ≡ told_of call packet.now }
{
    let asked = call?;
    let cause = octet_at(packet, 3);
    if octet_at(packet, TYPE_PLACE) != CLEAR || !is_fault(cause) {
        return None;
    }
    Some(ClearedCall {
        dialled: asked.dialled,
        was_connected: asked.is_connected,
        cause,
        diagnostic: octet_at(packet, 4),
    })
}

/// Whether a clearing cause is one of the exchange, and not of the other station: that is 00, or 80 and up.
fn is_fault(cause: u8) -> bool
    ensures { result ≡ is_fault cause }
{
    cause > 0 && cause < FIRST_DTE_CAUSE
}
