//! Enters one event.

ghost use Rattle.std.specs.Prelude.{◌≡◌, ◌+◌, ◌<◌, ◌≤◌, ◌^◌, true, Err, IfNone, IfSome, IfOk, IfErr, IsOk, OnOk, OnErr, length};
ghost use Rattle.xp_subs.specs.Sound.{IsSound as IsSubs};
ghost use Rattle.xp_subs.specs.Tables.{line_count};
ghost use Rattle.xp_step.specs.Agreed.{AllHaveTerms};
ghost use Rattle.xp_machine.specs.Coupling.{AreCoupled};
ghost use Rattle.xp_core.specs.steps.Journal.{IsSpent};
ghost use Rattle.xp_reload.specs.Frame.{IsSameFrame};
ghost use Rattle.xp_step.specs.InForce.{brought_by, force_of, in_force};
ghost use Rattle.xp_step.specs.Relays.{RelaysRepresentCalls};
ghost use Rattle.xp_core.specs.steps.Sound.{IsSound};
ghost use Rattle.xp_step.specs.Stalls.{is_stall, left_after};
ghost use Rattle.xp_core.specs.steps.PreparedEntry.{Enters, IsPreparedEntry};

use crate::fault::StepFault;
use crate::journal::Journal;
use crate::stalling::{Spare, give_up};
use std::alloc::{AllocError, Allocator};
use xp_machine::{Machine, Relays};
use xp_step::{
    Entry, Event, Outcome, Outputs, Plan, Records, SubsInForce, What, Workspace, plan_of,
};

/// What an event leads to, before it is entered.
#[derive(Drop)]
pub struct PreparedEntry<A: Allocator> {
    pub outcome: Outcome,
    pub outputs: Outputs<A>,
    pub records: Records<A>,
}

/// Enters one event, and returns its entry. It allocates first, and then changes the state, the history and the records. A
/// prepared stall allocates nothing.
#[inline(always)]
pub fn advance<A: Allocator + Copy>(
    subs: &SubsInForce,
    machine: &mut Machine<A>,
    relays: &mut Relays<A>,
    journal: &mut Journal<A>,
    workspace: &mut Workspace<A>,
    event: Event<A>,
) -> Result<Entry<A>, StepFault<A>>
    requires subs { IsSubs subs.now.opening }
    requires line { event.line < line_count subs.now.opening }
    requires force { force_of subs.now ≡ in_force subs.now.opening journal.old.history }
    requires frame { IsSameFrame subs.now.opening (force_of subs.now) }
    requires sound_now { IsSubs (force_of subs.now) }
    requires sound { IsSound subs.now.opening (length journal.old.history) machine.old }
    requires terms { AllHaveTerms subs.now.opening machine.old }
    requires coupled { AreCoupled subs.now.opening machine.old }
    requires carried { RelaysRepresentCalls subs.now.opening journal.old.history machine.old relays.old }
    requires few { length journal.old.history < 2 ^ 60 }
    ensures ok { IfOk result (λ entry. Enters subs.now.opening machine.old relays.old journal.old.history journal.old.waiting event machine.new relays.new journal.new.history journal.new.waiting entry) }
    ensures brought { IfOk result (λ entry. entry.tables.items ≡ brought_by event.what (force_of subs.now)) }
    ensures memory { IfErr result (λ fault. fault ≡ StepFault.Memory event) }
    ensures prepared { is_stall event.what ≡ true → 0 < journal.old.stalls → IsOk result }
    ensures stalls { OnOk result (journal.new.stalls ≡ left_after event.what journal.old.stalls) }
    ensures as_many { OnErr result (journal.new.stalls ≡ journal.old.stalls) }
    ensures machine { OnErr result (machine.new ≡ machine.old) }
    ensures relays { OnErr result (relays.new ≡ relays.old) }
    ensures history { OnErr result (journal.new.history ≡ journal.old.history) }
    ensures given { journal.new.given ≡ journal.old.given }
    ensures waiting { OnErr result (journal.new.waiting ≡ journal.old.waiting) }
{
    match prepare_entry(subs, machine, relays, journal, workspace, &event) {
        Ok(work) => Ok(journal.enter(event, work, subs.in_force())),
        Err(_) => refuse_for_memory(event),
    }
}

/// Refuses an event for want of memory. A function clears the room of its values as it begins, so this one is kept out of its caller.
#[cold]
#[inline(never)]
fn refuse_for_memory<A: Allocator>(event: Event<A>) -> Result<Entry<A>, StepFault<A>>
    ensures { result ≡ Err (StepFault.Memory event) }
{
    Err(StepFault::Memory(event))
}

/// Prepares all that an event needs, and changes the state last.
#[inline(always)]
fn prepare_entry<A: Allocator + Copy>(
    subs: &SubsInForce,
    machine: &mut Machine<A>,
    relays: &mut Relays<A>,
    journal: &mut Journal<A>,
    workspace: &mut Workspace<A>,
    event: &Event<A>,
) -> Result<PreparedEntry<A>, AllocError>
    requires subs { IsSubs subs.now.opening }
    requires line { event.now.line < line_count subs.now.opening }
    requires force { force_of subs.now ≡ in_force subs.now.opening journal.old.history }
    requires frame { IsSameFrame subs.now.opening (force_of subs.now) }
    requires sound_now { IsSubs (force_of subs.now) }
    requires sound { IsSound subs.now.opening (length journal.old.history) machine.old }
    requires terms { AllHaveTerms subs.now.opening machine.old }
    requires coupled { AreCoupled subs.now.opening machine.old }
    requires carried { RelaysRepresentCalls subs.now.opening journal.old.history machine.old relays.old }
    requires few { length journal.old.history < 2 ^ 60 }
    ensures ok { IfOk result (λ work. IsPreparedEntry subs.now.opening journal.old.history machine.old relays.old event.now work machine.new relays.new) }
    ensures prepared { is_stall event.now.what ≡ true → 0 < journal.old.stalls → IsOk result }
    ensures stalls { OnOk result (journal.new.stalls ≡ left_after event.now.what journal.old.stalls) }
    ensures as_many { OnErr result (journal.new.stalls ≡ journal.old.stalls) }
    ensures places { IfOk result (λ work. journal.new.stalls + length work.records.items ≤ journal.new.record_room) }
    ensures history { journal.new.history ≡ journal.old.history }
    ensures given { journal.new.given ≡ journal.old.given }
    ensures waiting { journal.new.waiting ≡ journal.old.waiting }
    ensures machine { OnErr result (machine.new ≡ machine.old) }
    ensures relays { OnErr result (relays.new ≡ relays.old) }
{
    if let Some(spare) = prepared(journal, event) {
        let before = journal.history();
        return Ok(give_up(subs, machine, relays, before, spare, event));
    }
    let Plan {
        outcome,
        outputs,
        cancelled,
        change,
        records,
        relay_update,
    } = plan_of(subs, machine, relays, journal.history(), event, workspace)?;
    let outputs = outputs.into_outputs();
    journal.reserve(records.as_slice())?;
    machine.apply(cancelled, change)?;
    relays.put_if_any(relay_update, &mut workspace.relays);
    Ok(PreparedEntry {
        outcome,
        outputs,
        records,
    })
}

/// Takes the spare of a stall, if the event is a stall and one is prepared.
fn prepared<A: Allocator>(journal: &mut Journal<A>, event: &Event<A>) -> Option<Spare<A>>
    ensures some { IfSome result (λ _. (is_stall event.now.what ≡ true) × IsSpent journal.old journal.new) }
    ensures none { IfNone result ((journal.new ≡ journal.old) × (left_after event.now.what journal.old.stalls ≡ journal.old.stalls) × (is_stall event.now.what ≡ true → journal.old.stalls ≡ 0)) }
{
    match &event.what {
        What::Stall => journal.take_spare(),
        What::Up
        | What::Down
        | What::Frame { .. }
        | What::WrongFrame(_)
        | What::Expire
        | What::Reload => None,
    }
}
