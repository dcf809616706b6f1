ghost use Rattle.std.specs.Prelude.{◌≡◌, ◌<◌, false, IsTrue};
ghost use Rattle.xp_decide.specs.Asks.{HasRoom, HasNoRoom, is_fast, Opens, wanted_of};
ghost use Rattle.xp_subs.specs.Tables.{line_count};

use crate::acceptance::Wanted;
use crate::fault::CallFault;
use crate::window::windows_fit;
use std::alloc::{Allocator, Global};
use xp_causes::Refusal;
use xp_facilities::{FastSelect, RequestedFacilities, parse};
use xp_groups::{Intent, intent};
use xp_packets::Block;
use xp_subs::{LineNo, Subs};

/// The most octets of user data in a call without fast select (X.25 clause 5.2.2).
const MAX_USER_DATA: usize = 16;

/// A call request that the caller's station may make.
#[derive(Drop)]
pub struct Request<A: Allocator = Global> {
    pub asked: RequestedFacilities<A>,
    pub intent: Intent,
}

impl<A: Allocator> Request<A> {
    /// What the call requests of each station that it reaches.
    pub fn wanted(&self) -> Wanted
        ensures { result ≡ wanted_of self.now }
    {
        Wanted {
            intent: self.intent,
            reverse: self.asked.reverse,
            fast: is_fast_select(self.asked.fast),
        }
    }
}

/// Reads what a call request asks for, and checks that the caller's station may make it.
///
/// # Errors
///
/// A failed allocation, or the first refusal: the facilities are faulty, a window is too large for the caller's line,
/// there is too much user data, or the caller's station may not make the call.
pub fn open<A: Allocator + Copy>(
    alloc: A,
    subs: &Subs,
    from: LineNo,
    block: &Block<A>,
) -> Result<Request<A>, CallFault>
    requires { from < line_count subs.now }
    ensures { Opens subs.now from block.now result }
{
    let asked = parse(alloc, block.facilities.as_slice())?;
    if !windows_fit(subs.modulus_of(from), asked.window) {
        return Err(CallFault::Refused(Refusal::FACILITY_PARAMETER));
    }
    if !has_room(block, &asked) {
        return Err(CallFault::Refused(Refusal::USER_DATA_TOO_LONG));
    }
    let caller = subs.station(subs.station_of(from));
    if caller.facilities.outgoing_barred {
        return Err(CallFault::Refused(Refusal::ACCESS_BARRED));
    }
    let intent = intent(caller, asked.selection)?;
    Ok(Request { asked, intent })
}

/// Whether the call may carry its user data.
fn has_room<A: Allocator>(block: &Block<A>, asked: &RequestedFacilities<A>) -> bool
    ensures room { IsTrue result → HasRoom block.now asked.now }
    ensures too_long { result ≡ false → HasNoRoom block.now asked.now }
{
    block.user.len() <= MAX_USER_DATA || is_fast_select(asked.fast)
}

/// Whether it is fast select of either kind.
fn is_fast_select(fast: FastSelect) -> bool
    ensures { result ≡ is_fast fast }
{
    fast != FastSelect::No
}
