//! Plans each event, by the table of actions.

ghost use Rattle.std.specs.Prelude.{◌≡◌, ◌<◌, IfOk, List};
ghost use Rattle.xp_channel.specs.declared.action.Action.TheVariants.{Collision as Collides, NewCall as Requested};
ghost use Rattle.xp_step.specs.Agreed.{AllHaveTerms};
ghost use Rattle.xp_machine.specs.Channel.{channel_of};
ghost use Rattle.xp_machine.specs.Coupling.{AreCoupled};
ghost use Rattle.xp_step.specs.declared.entry.Entry.{Entry as Entered};
ghost use Rattle.xp_step.specs.steps.HasTables.{HasTables};
ghost use Rattle.xp_step.specs.EventLine.{IsEventLine, event_line_context};
ghost use Rattle.xp_step.specs.Plan.{Plans};
ghost use Rattle.xp_step.specs.Relays.{RelaysRepresentCalls};
ghost use Rattle.xp_step.specs.StepContext.{step_context};
ghost use Rattle.xp_step.specs.Table.{action_in};
ghost use Rattle.xp_step.specs.InForce.{force_of, in_force};
ghost use Rattle.xp_machine.specs.World.{state_at};
ghost use Rattle.xp_subs.specs.Sound.{IsSound};
ghost use Rattle.xp_subs.specs.Tables.{line_count};

use super::Plan;
use super::answer::answer;
use super::clearing::{confirm, fail, fall, free, nothing, rise};
use super::event_line::{EventLine, charged_on};
use super::received_packets::request_in;
use super::relaying::carry;
use super::request::{Cancelled, request};
use crate::entry::Entry;
use crate::event::{Event, What};
use crate::in_force::SubsInForce;
use crate::table::action_of;
use crate::workspace::Workspace;
use std::alloc::{AllocError, Allocator};
use xp_causes::diagnostic::TIMER_EXPIRED_FOR_INCOMING_CALL;
use xp_channel::Action;
use xp_machine::{Machine, Relays};
use xp_past::Past;

/// Plans what an event does. It fails only if memory is wanting.
#[inline(always)]
pub fn plan_of<A: Allocator + Copy>(
    subs: &SubsInForce,
    machine: &Machine<A>,
    relays: &Relays<A>,
    before: &Past<Entry<A>>,
    event: &Event<A>,
    workspace: &mut Workspace<A>,
) -> Result<Plan<A>, AllocError>
    requires sound { IsSound subs.now.opening }
    requires line { event.now.line < line_count subs.now.opening }
    requires force { force_of subs.now ≡ in_force subs.now.opening before.now.items }
    requires count { line_count (force_of subs.now) ≡ line_count subs.now.opening }
    requires terms { AllHaveTerms subs.now.opening machine.now }
    requires coupled { AreCoupled subs.now.opening machine.now }
    requires carried { RelaysRepresentCalls subs.now.opening before.now.items machine.now relays.now }
    ensures { IfOk result (λ plan. Plans (step_context subs.now.opening before.now.items machine.now event.now.line event.now.moment) event.now.what (action_in (channel_of (state_at machine.now event.now.line)) event.now.what) plan) }
{
    let alloc = workspace.alloc;
    let line = event.line;
    let moment = event.moment;
    let opening = &subs.opening;
    let found = EventLine {
        subs: opening,
        in_force: subs.in_force(),
        machine,
        line,
        moment,
        charged: charged_on(opening, machine, relays, before, line),
    };
    let what = &event.what;
    match action_of(machine.line(line).state, what) {
        Action::Nothing => nothing(alloc, &found),
        Action::Relayed => carry(&found, relays, what, workspace),
        Action::Rise => rise(alloc, &found),
        Action::Fall => fall(alloc, &found, what),
        Action::Free => free(alloc, &found),
        Action::Error(diagnostic) => fail(alloc, &found, diagnostic),
        Action::Expired => fail(alloc, &found, TIMER_EXPIRED_FOR_INCOMING_CALL),
        Action::NewCall => new_call(&found, what, workspace),
        Action::Collision => collision(&found, what, workspace),
        Action::Answer => answer(&found, what, workspace),
        Action::Confirm => confirm(&found, what, workspace),
    }
}

/// Plans a call request of a line that is in no call.
#[inline(never)]
fn new_call<A: Allocator + Copy>(
    found: &EventLine<'_, A>,
    what: &What<A>,
    workspace: &mut Workspace<A>,
) -> Result<Plan<A>, AllocError>
    requires { found.now.line < line_count found.now.in_force.now }
    ensures { (before : List (Entered A)) → HasTables found.now before → IfOk result (Plans (event_line_context found.now before) what.now Requested) }
{
    match request_in(what) {
        None => nothing(workspace.alloc, found),
        Some(call) => request(found, &call, Cancelled::none(), workspace),
    }
}

/// Plans a call request that collides with an incoming call of its line, which is cancelled.
#[cold]
#[inline(never)]
fn collision<A: Allocator + Copy>(
    found: &EventLine<'_, A>,
    what: &What<A>,
    workspace: &mut Workspace<A>,
) -> Result<Plan<A>, AllocError>
    requires { found.now.line < line_count found.now.in_force.now }
    ensures { (before : List (Entered A)) → HasTables found.now before → IsEventLine found.now before → IfOk result (Plans (event_line_context found.now before) what.now Collides) }
{
    match request_in(what) {
        None => nothing(workspace.alloc, found),
        Some(call) => request(found, &call, Cancelled::by(found), workspace),
    }
}
