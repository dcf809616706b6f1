ghost use Rattle.xp_decide.specs.Routes.{Reaches};

use crate::acceptance::Wanted;
use crate::visit::{AddressOutcome, call_at};
use xp_causes::Refusal;
use xp_facilities::Reason;
use xp_groups::Admission;
use xp_hunt::Lines;
use xp_packets::Digits;
use xp_subs::{LineNo, Subs};

/// How many redirections of a call are followed.
const MAX_REDIRECTIONS: u8 = 4;

/// Where a call ends.
#[derive(Clone, Copy)]
pub struct Destination {
    /// An idle line of the last address.
    pub line: LineNo,
    /// How the last station takes the call.
    pub admission: Admission,
    /// Why the call was first redirected, if it was.
    pub reason: Option<Reason>,
}

/// Follows the call from the dialled address through its redirections to a line that takes it.
///
/// # Errors
///
/// The refusal at the last address. `TOO_MANY_REDIRECTIONS` if the call would be redirected once more after four
/// redirections.
pub fn reach<L: Lines>(
    subs: &Subs,
    lines: &L,
    wanted: &Wanted,
    dialled: &Digits,
) -> Result<Destination, Refusal>
    ensures { Reaches subs.now (L.states lines.now) wanted.now dialled.now result }
{
    let mut address = dialled;
    let mut reason = None;
    for _hops in 0..=MAX_REDIRECTIONS {
        match call_at(subs, lines, wanted, address)? {
            AddressOutcome::RedirectedTo(why, to) => {
                reason = reason.or(Some(why));
                address = to;
            }
            AddressOutcome::Taken(line, admission) => {
                return Ok(Destination {
                    line,
                    admission,
                    reason,
                });
            }
        }
    }
    Err(Refusal::TOO_MANY_REDIRECTIONS)
}
