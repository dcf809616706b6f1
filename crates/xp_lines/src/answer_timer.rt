//! How long an incoming call has waited for the line's answer.

ghost use Rattle.std.specs.Prelude.{◌≡◌};
ghost use Rattle.xp_lines.specs.AnswerTimer.{answered, has_expired, since_after};

use std::alloc::Allocator;
use xp_packets::Packet;

/// After this many seconds without an answer an incoming call expires (T11, X.25 Annex D).
const ANSWER_SECONDS: u64 = 180;

/// Since when an incoming call waits for the line's answer, once this packet is written to the line: an incoming call begins to
/// wait, and a clear indication ends the wait. Times are in seconds.
pub(crate) fn since_after<A: Allocator>(
    now: u64,
    since: Option<u64>,
    packet: &Packet<A>,
) -> Option<u64>
    ensures { result ≡ since_after now since packet.now }
{
    match packet {
        Packet::Call { .. } => Some(now),
        Packet::Clear { .. } => None,
        _ => since,
    }
}

/// Since when a call waits, once it is known whether the line sent a packet. Any packet is its answer, and ends the wait.
pub(crate) fn answered(sent: bool, since: Option<u64>) -> Option<u64>
    ensures { result ≡ answered sent since }
{
    if sent { None } else { since }
}

/// Whether a call that waits since then has waited for 180 seconds or more.
pub(crate) fn is_late(now: u64, since: Option<u64>) -> bool
    ensures { result ≡ has_expired now since }
{
    match since {
        Some(since) => now.saturating_sub(since) >= ANSWER_SECONDS,
        None => false,
    }
}
