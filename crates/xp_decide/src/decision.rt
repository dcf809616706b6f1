ghost use Rattle.std.specs.Prelude.{◌<◌, IfOk, Contains};
ghost use Rattle.xp_causes.specs.Refusals.{call_refusals};
ghost use Rattle.xp_decide.specs.Asks.{station_of_line};
ghost use Rattle.xp_decide.specs.Decided.{Decided, IfTaken, IfRefused};
ghost use Rattle.xp_decide.specs.steps.Decided.{PutsThrough};
ghost use Rattle.xp_decide.specs.Indicated.{IndicatesSizesForBoth};
ghost use Rattle.xp_decide.specs.Laws.{IsFree};
ghost use Rattle.xp_decide.specs.Written.{CanBeWritten};
ghost use Rattle.xp_groups.specs.MayJoin.{MayJoin};
ghost use Rattle.xp_subs.specs.Sound.{IsSound};
ghost use Rattle.xp_subs.specs.Tables.{line_count};

use crate::fault::CallFault;
use crate::incoming_call::incoming_call;
use crate::lines_for_caller::LinesForCaller;
use crate::request::open;
use crate::route::reach;
use crate::verdict::{IncomingCall, Verdict};
use std::alloc::{AllocError, Allocator};
use xp_hunt::Lines;
use xp_packets::Block;
use xp_subs::{LineNo, Subs};

/// Decides on the call request with this block that the line `from` makes. If several lines are idle, the contract
/// does not say which one gets the call.
///
/// The first fault refuses the call: first the faults of the facilities, then windows too large for the caller's line,
/// then the faults of the user data, then of what the caller's station may request, and then those of the address
/// where the call ends.
///
/// # Errors
///
/// An allocation failed.
pub fn decide<A: Allocator + Copy, L: Lines>(
    alloc: A,
    subs: &Subs,
    lines: &L,
    from: LineNo,
    block: &Block<A>,
) -> Result<Verdict<A>, AllocError>
    requires { from < line_count subs.now }
    ensures decided { IfOk result (Decided subs.now (L.states lines.now) from block.now) }

    // The line that rings is in service, has no call and is not the caller's. Closed user groups permit the two to be
    // joined.
    ensures free { IfOk result (λ v. IfTaken v (λ ring. IsFree subs.now (L.states lines.now) from ring.line)) }
    ensures joined { IfOk result (λ v. IfTaken v (λ ring.
        MayJoin (station_of_line subs.now from) (station_of_line subs.now ring.line))) }

    // The facilities that it receives have packet and window sizes that both lines may have, and can be written.
    ensures indicated { IfOk result (λ v. IfTaken v (IndicatesSizesForBoth subs.now from)) }
    ensures written { IfOk result (λ v. IfTaken v (λ ring. CanBeWritten ring.told)) }

    // A refusal is one of the refusals of call requests.
    ensures refused { IfOk result (λ v. IfRefused v (Contains call_refusals)) }
{
    // The contracts of these calls give two facts: all subscriptions are sound, and no address has more than 15
    // digits.
    let _ = subs.counts();
    let _ = block.called.len();
    match put_through(alloc, subs, lines, from, block) {
        Ok(ring) => Ok(Verdict::Take(ring)),
        Err(CallFault::Refused(refusal)) => Ok(Verdict::Refuse(refusal)),
        Err(CallFault::Memory) => Err(AllocError),
    }
}

/// The incoming call for a line.
///
/// # Errors
///
/// The refusal of the call, or a failed allocation.
fn put_through<A: Allocator + Copy, L: Lines>(
    alloc: A,
    subs: &Subs,
    lines: &L,
    from: LineNo,
    block: &Block<A>,
) -> Result<IncomingCall<A>, CallFault>
    requires sound { IsSound subs.now }
    requires line { from < line_count subs.now }
    ensures { PutsThrough subs.now (L.states lines.now) from block.now result }
{
    let request = open(alloc, subs, from, block)?;
    let seen = LinesForCaller {
        lines,
        caller: from,
    };
    let reached = reach(subs, &seen, &request.wanted(), &block.called)?;
    let modulus = subs.modulus_of(reached.line);
    Ok(incoming_call(modulus, request.asked, &reached, &block.called)?)
}
