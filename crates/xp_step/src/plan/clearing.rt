//! Plans what takes a line out of its call: a clear request, an error, data past the segment limit, or the loss of its
//! service. Also plans that a line comes into service, is free again, or stays as it is.

ghost use Rattle.std.specs.Prelude.{◌≡◌, ◌∷◌, [], IfOk, None, option_to_list, List};
ghost use Rattle.xp_causes.specs.declared.clearing_cause.TheConstants.{LOCAL_PROCEDURE_ERROR as LOCAL_ERROR, NETWORK_CONGESTION as CONGESTION, OUT_OF_ORDER as GONE_OUT, REMOTE_PROCEDURE_ERROR as REMOTE_ERROR};
ghost use Rattle.xp_causes.specs.declared.diagnostic.TheConstants.{NO_ADDITIONAL_INFORMATION as NO_INFORMATION};
ghost use Rattle.xp_step.specs.Acts.{closed, outputs_to_both, outputs_of_error, outputs_of_excess, outputs_of_fall};
ghost use Rattle.xp_channel.specs.declared.action.Action.TheVariants.{Confirm as Clears};
ghost use Rattle.xp_step.specs.steps.ReceivedPackets.{clear_of};
ghost use Rattle.xp_machine.specs.Changes.{Rises, Leaves, IsCleared, IsFree, GoesOut};
ghost use Rattle.xp_step.specs.Effects.{leaves};
ghost use Rattle.xp_step.specs.declared.entry.Entry.{Entry as Entered};
ghost use Rattle.xp_step.specs.EventLine.{IsEventLine, IsShort, event_line_context};
ghost use Rattle.xp_step.specs.Plan.{IsPlan, Plans};
ghost use Rattle.xp_step.specs.steps.Branches.{IsPlainPlan, IsToldOn};
ghost use Rattle.xp_step.specs.EventOutputs.{no_outputs};
ghost use Rattle.xp_machine.specs.World.{call_on};

use super::Plan;
use super::event_line::{EventLine, MeteredCall};
use super::received_packets::{ClearRequest, clear_in};
use super::send::{close, send};
use crate::event::What;
use crate::outcome::Outcome;
use crate::output::{Buffer, Output};
use crate::records::Records;
use crate::workspace::Workspace;
use std::alloc::{AllocError, Allocator};
use xp_answer::forward_clear;
use xp_causes::clearing_cause::{
    LOCAL_PROCEDURE_ERROR, NETWORK_CONGESTION, OUT_OF_ORDER, REMOTE_PROCEDURE_ERROR,
};
use xp_causes::diagnostic::NO_ADDITIONAL_INFORMATION;
use xp_causes::{indicated_cause, indicated_diagnostic};
use xp_machine::{Change, Machine, NoCallState};
use xp_subs::LineNo;

/// Plans that nothing happens.
pub fn nothing<A: Allocator + Copy>(
    alloc: A,
    _found: &EventLine<'_, A>,
) -> Result<Plan<A>, AllocError>
    ensures { (before : List (Entered A)) → IfOk result (λ plan. IsPlainPlan plan (event_line_context _found.now before) no_outputs []) }
{
    Ok(Plan::none(alloc))
}

/// Plans that a line comes into service.
pub fn rise<A: Allocator + Copy>(alloc: A, found: &EventLine<'_, A>) -> Result<Plan<A>, AllocError>
    ensures { (before : List (Entered A)) → IfOk result (λ plan. IsPlainPlan plan (event_line_context found.now before) no_outputs (Rises found.now.line ∷ [])) }
{
    let line = found.line;
    Ok(Plan::none(alloc).changing(Change::Rise { line }))
}

/// Plans that a cleared line is free again.
pub fn free<A: Allocator + Copy>(alloc: A, found: &EventLine<'_, A>) -> Result<Plan<A>, AllocError>
    ensures { (before : List (Entered A)) → IfOk result (λ plan. IsPlainPlan plan (event_line_context found.now before) no_outputs (Leaves found.now.line IsFree ∷ [])) }
{
    let line = found.line;
    Ok(Plan::none(alloc).changing(Change::Free { line }))
}

/// Plans that a line goes out of service. Its call ends as out of order.
#[cold]
#[inline(never)]
pub fn fall<A: Allocator + Copy>(
    alloc: A,
    found: &EventLine<'_, A>,
    what: &What<A>,
) -> Result<Plan<A>, AllocError>
    requires { IsShort found.now.charged }
    ensures { (before : List (Entered A)) → IsEventLine found.now before → IfOk result (λ plan. IsPlainPlan plan (event_line_context found.now before) (outputs_of_fall (event_line_context found.now before) what.now) (leaves found.now.line GoesOut GONE_OUT NO_INFORMATION (call_on found.now.machine.now found.now.line) ∷ [])) }
{
    let (cause, diagnostic) = (OUT_OF_ORDER, NO_ADDITIONAL_INFORMATION);
    let outputs = Buffer::with_room(alloc, 2)?;
    let withdrawal = found.withdraw(NoCallState::GoesOut, cause, diagnostic);
    let records = Records::of(alloc, withdrawal.charged)?;
    let own = closing(found.machine, found.line, what);
    let far = found.clear_far(alloc, cause, diagnostic);
    let outputs = outputs.with_some(own).with_some(far);
    Ok(Plan::of(outputs, records).changing(withdrawal.change))
}

/// Returns the output that closes the line's connection, if the line is given up as too slow.
fn closing<A: Allocator>(machine: &Machine<A>, line: LineNo, what: &What<A>) -> Option<Output<A>>
    ensures { option_to_list result ≡ closed machine.now line what.now }
{
    match what {
        What::Stall => Some(close(machine, line)),
        What::Up
        | What::Down
        | What::Frame { .. }
        | What::WrongFrame(_)
        | What::Expire
        | What::Reload => None,
    }
}

/// Plans a procedure error. It clears both ends of the line's call, or the line alone (X.25 clause 4.1 and Annex C).
#[cold]
#[inline(never)]
pub fn fail<A: Allocator + Copy>(
    alloc: A,
    found: &EventLine<'_, A>,
    diagnostic: u8,
) -> Result<Plan<A>, AllocError>
    requires { IsShort found.now.charged }
    ensures { (before : List (Entered A)) → IsEventLine found.now before → IfOk result (λ plan. IsPlainPlan plan (event_line_context found.now before) (outputs_of_error (event_line_context found.now before) diagnostic) (leaves found.now.line IsCleared REMOTE_ERROR diagnostic (call_on found.now.machine.now found.now.line) ∷ [])) }
{
    clear_both(
        alloc,
        found,
        LOCAL_PROCEDURE_ERROR,
        REMOTE_PROCEDURE_ERROR,
        diagnostic,
    )
}

/// Plans data that would go past the segment limit. It clears both ends of its call.
#[cold]
#[inline(never)]
pub fn exceed<A: Allocator + Copy>(
    alloc: A,
    found: &EventLine<'_, A>,
) -> Result<Plan<A>, AllocError>
    requires { IsShort found.now.charged }
    ensures outcome { IfOk result (λ plan. plan.outcome ≡ Outcome.Exceeded) }
    ensures planned { (before : List (Entered A)) → IsEventLine found.now before → IfOk result (λ plan. (plan.relay_update ≡ None) × IsPlan plan (event_line_context found.now before) (outputs_of_excess (event_line_context found.now before)) (leaves found.now.line IsCleared CONGESTION NO_INFORMATION (call_on found.now.machine.now found.now.line) ∷ [])) }
{
    let plan = clear_both(
        alloc,
        found,
        NETWORK_CONGESTION,
        NETWORK_CONGESTION,
        NO_ADDITIONAL_INFORMATION,
    )?;
    Ok(plan.settling(Outcome::Exceeded))
}

/// Clears both ends of the line's call, the line with the cause `near` and its far end with `far`. A line in no call is
/// cleared alone.
fn clear_both<A: Allocator + Copy>(
    alloc: A,
    found: &EventLine<'_, A>,
    near: u8,
    far: u8,
    diagnostic: u8,
) -> Result<Plan<A>, AllocError>
    requires { IsShort found.now.charged }
    ensures { (before : List (Entered A)) → IsEventLine found.now before → IfOk result (λ plan. IsPlainPlan plan (event_line_context found.now before) (outputs_to_both (event_line_context found.now before) near far diagnostic) (leaves found.now.line IsCleared far diagnostic (call_on found.now.machine.now found.now.line) ∷ [])) }
{
    let outputs = Buffer::with_room(alloc, 2)?;
    let withdrawal = found.withdraw(NoCallState::IsCleared, far, diagnostic);
    let records = Records::of(alloc, withdrawal.charged)?;
    let own = found.clear_own(alloc, near, diagnostic);
    let other = found.clear_far(alloc, far, diagnostic);
    let outputs = outputs.with(own).with_some(other);
    Ok(Plan::of(outputs, records).changing(withdrawal.change))
}

/// Plans a clear request. It is confirmed at once (X.25 clause 4.1.7), and the line's call ends.
#[inline(never)]
pub fn confirm<A: Allocator + Copy>(
    found: &EventLine<'_, A>,
    what: &What<A>,
    workspace: &mut Workspace<A>,
) -> Result<Plan<A>, AllocError>
    requires { IsShort found.now.charged }
    ensures { (before : List (Entered A)) → IsEventLine found.now before → IfOk result (Plans (event_line_context found.now before) what.now Clears) }
{
    let alloc = workspace.alloc;
    let Some(clear) = clear_in(what) else {
        return nothing(alloc, found);
    };
    let outputs = workspace.buffer(2)?;
    let cause = indicated_cause(clear.cause);
    let diagnostic = indicated_diagnostic(clear.diagnostic);
    let withdrawal = found.withdraw(NoCallState::IsFree, cause, diagnostic);
    let records = Records::of(alloc, withdrawal.charged)?;
    let far = carry_on(alloc, found, &clear)?;
    let own = found.confirm_own(alloc);
    let outputs = outputs.with(own).with_some(far);
    Ok(Plan::of(outputs, records).changing(withdrawal.change))
}

/// Returns the output that tells the far end of the line's call of a clear request, if the line is in a call.
fn carry_on<A: Allocator + Copy>(
    alloc: A,
    found: &EventLine<'_, A>,
    clear: &ClearRequest<'_, A>,
) -> Result<Option<Output<A>>, AllocError>
    requires { IsShort found.now.charged }
    ensures { (before : List (Entered A)) → IsEventLine found.now before → IfOk result (λ far. IsToldOn (event_line_context found.now before) (clear_of clear.now) (call_on found.now.machine.now found.now.line) (option_to_list far)) }
{
    let information = found.far_information();
    let Some(MeteredCall { call, meter: _ }) = found.charged else {
        return Ok(None);
    };
    let packet = forward_clear(
        alloc,
        call.setup.fast,
        clear.cause,
        clear.diagnostic,
        clear.block,
        information,
    )?;
    Ok(Some(send(found.machine, call.far_end(found.line), packet)))
}
