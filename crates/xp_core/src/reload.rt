//! Other subscriptions come into force while the exchange serves.

ghost use Rattle.std.specs.Prelude.{◌≡◌, ◌≤◌, ◌<◌, ◌^◌, ◌↔◌, ℕ, true, List, Option, [], ◌∷◌, ◌++◌, IfErr, IfOk, IfSome, IsOk, None, OnErr, OnOk, length};
ghost use Rattle.xp_core.specs.Reload.{AreGoing, IsLastingRefusal, IsRefusal, MayReplace, MovesInCall, MustGo, reload_at};
ghost use Rattle.xp_core.specs.steps.PreparedEntry.{Enters};
ghost use Rattle.xp_core.specs.steps.Reload.{IsIdle, IsReloadEntry, NoneGoes};
ghost use Rattle.xp_machine.specs.declared.relays.MeteredRelay.{MeteredRelay as Metered};
ghost use Rattle.xp_step.specs.InForce.{MayFollow, force_of, in_force};
ghost use Rattle.xp_subs.specs.Tables.{line_count};

use crate::advance::PreparedEntry;
use crate::journal::Journal;
use crate::stalling::is_off;
use std::alloc::{AllocError, Allocator};
use thiserror::Error;
use xp_machine::Machine;
use xp_reload::{FrameChange, frame_change, keeps_line};
use xp_step::{Entry, Event, Outcome, Outputs, Records, SubsInForce, What};
use xp_subs::{LineNo, Subs};

/// Why other subscriptions cannot come into force now.
#[derive(Clone, Copy, Debug, PartialEq, Eq, Error)]
pub enum ReloadFault {
    #[error("the journal is full")]
    JournalFull,
    /// They differ from those in force in what cannot change while the exchange serves.
    #[error("the exchange has to be stopped for this")]
    Frame(FrameChange),
    /// The address of this line would change, and the line is in a call.
    #[error("line {0}: in a call")]
    InCall(LineNo),
    /// The place does not keep this line, and the line is in service.
    #[error("line {0}: in service")]
    InService(LineNo),
}

/// Enters a reload of this moment, which brings the next subscriptions, and puts these into force. It allocates nothing.
pub fn reload<A: Allocator + Copy>(
    alloc: A,
    subs: &mut SubsInForce,
    machine: &Machine<A>,
    journal: &mut Journal<A>,
    next: Subs,
    moment: u64,
) -> Result<Entry<A>, ReloadFault>
    requires force { force_of subs.old ≡ in_force subs.old.opening journal.old.history }
    requires some_line { 0 < length machine.now.lines }
    requires few { length journal.old.history < 2 ^ 60 }
    ensures may { MayFollow (force_of subs.old) machine.now next → length journal.old.history < subs.old.opening.journal → IsOk result }
    ensures ok { (relays : List (Option (Metered A))) → IfOk result (λ entry. Enters subs.old.opening machine.now relays journal.old.history journal.old.waiting (reload_at moment) machine.now relays journal.new.history journal.new.waiting entry) }
    ensures brought { IfOk result (λ entry. entry.tables.items ≡ next ∷ []) }
    ensures room { OnOk result (length journal.old.history < subs.old.opening.journal) }
    ensures quiet { IfOk result (λ entry. entry.outputs ≡ []) }
    ensures unrecorded { IfOk result (λ entry. entry.records.items ≡ []) }
    ensures refused { IfErr result (IsRefusal subs.old.opening.journal (length journal.old.history) (force_of subs.old) machine.now next) }
    ensures opening { subs.new.opening ≡ subs.old.opening }
    ensures in_force { OnOk result (force_of subs.new ≡ next) }
    ensures as_before { OnErr result (subs.new ≡ subs.old) }
    ensures history { OnErr result (journal.new.history ≡ journal.old.history) }
    ensures waiting { OnErr result (journal.new.waiting ≡ journal.old.waiting) }
    ensures given { journal.new.given ≡ journal.old.given }
    ensures stalls { journal.new.stalls ≡ journal.old.stalls }
{
    if journal.count() >= subs.opening.journal() {
        return Err(ReloadFault::JournalFull);
    }
    match may_follow(subs.in_force(), machine, &next) {
        Err(fault) => Err(fault),
        Ok(()) => {
            let entry = enter_reload(alloc, journal, &next, moment);
            subs.reloaded = Some(next);
            Ok(entry)
        }
    }
}

/// Returns why the next subscriptions cannot come into force now, or nothing if they can.
fn may_follow<A: Allocator>(
    force: &Subs,
    machine: &Machine<A>,
    next: &Subs,
) -> Result<(), ReloadFault>
    ensures ok { IsOk result → MayFollow force.now machine.now next.now }
    ensures err { (journal entries : ℕ) → IfErr result (IsRefusal journal entries force.now machine.now next.now) }
{
    may_replace(force, machine, next)?;
    match first_going(force, machine, next) {
        Some(line) => Err(ReloadFault::InService(line)),
        None => Ok(()),
    }
}

/// Returns why the next subscriptions cannot come into force, though the lines that must go were given up, or nothing if they can
/// then.
pub fn may_replace<A: Allocator>(
    force: &Subs,
    machine: &Machine<A>,
    next: &Subs,
) -> Result<(), ReloadFault>
    ensures ok { IsOk result → MayReplace force.now machine.now next.now }
    ensures err { IfErr result (IsLastingRefusal force.now machine.now next.now) }
{
    let _sound = next.counts();
    if let Some(change) = frame_change(force, next) {
        return Err(ReloadFault::Frame(change));
    }
    match line_moved_in_call(force, machine, next) {
        Some(line) => Err(ReloadFault::InCall(line)),
        None => Ok(()),
    }
}

/// Returns the first line that stays, is in a call, and would get another address.
fn line_moved_in_call<A: Allocator>(
    force: &Subs,
    machine: &Machine<A>,
    next: &Subs,
) -> Option<LineNo>
    requires { line_count next.now ≡ line_count force.now }
    ensures some { IfSome result (MovesInCall force.now machine.now next.now) }
    ensures none { result ≡ None → IsIdle force.now machine.now next.now (line_count force.now) }
{
    for number in 0..force.counts().lines {
        let line = number as LineNo;
        if moves_in_call(force, machine, next, line) {
            return Some(line);
        }
    }
    None
}

/// Returns whether a line stays, is in a call, and would get another address.
fn moves_in_call<A: Allocator>(
    force: &Subs,
    machine: &Machine<A>,
    next: &Subs,
    line: LineNo,
) -> bool
    requires known { line < line_count force.now }
    requires same { line_count next.now ≡ line_count force.now }
    ensures { result ≡ true ↔ MovesInCall force.now machine.now next.now line }
{
    machine.call_on(line).is_some()
        && keeps_line(force, next, line)
        && *next.address_of(line) != *force.address_of(line)
}

/// Returns the first line that must go.
fn first_going<A: Allocator>(force: &Subs, machine: &Machine<A>, next: &Subs) -> Option<LineNo>
    requires { line_count next.now ≡ line_count force.now }
    ensures some { IfSome result (MustGo force.now machine.now next.now) }
    ensures none { result ≡ None → NoneGoes force.now machine.now next.now (line_count force.now) }
{
    for number in 0..force.counts().lines {
        let line = number as LineNo;
        if must_go(force, machine, next, line) {
            return Some(line);
        }
    }
    None
}

/// Returns the lines that must go, the lowest first.
pub fn going<A: Allocator>(
    alloc: A,
    force: &Subs,
    machine: &Machine<A>,
    next: &Subs,
) -> Result<Vec<LineNo, A>, AllocError>
    requires { line_count next.now ≡ line_count force.now }
    ensures { IfOk result (λ lines. AreGoing force.now machine.now next.now lines.items) }
{
    let mut lines = Vec::new(alloc);
    for number in 0..force.counts().lines {
        let line = number as LineNo;
        if must_go(force, machine, next, line) {
            lines.push(line)?;
        }
    }
    Ok(lines)
}

/// Returns whether a line is in service, and its place does not keep it.
fn must_go<A: Allocator>(force: &Subs, machine: &Machine<A>, next: &Subs, line: LineNo) -> bool
    requires known { line < line_count force.now }
    requires same { line_count next.now ≡ line_count force.now }
    ensures { result ≡ true ↔ MustGo force.now machine.now next.now line }
{
    !is_off(machine.line(line).state) && !keeps_line(force, next, line)
}

/// Enters a reload of this moment, which brings these subscriptions.
fn enter_reload<A: Allocator + Copy>(
    alloc: A,
    journal: &mut Journal<A>,
    next: &Subs,
    moment: u64,
) -> Entry<A>
    requires places { journal.old.stalls ≤ journal.old.record_room }
    requires few { length journal.old.history < 2 ^ 60 }
    ensures entry { IsReloadEntry journal.old.history moment next.now result }
    ensures history { journal.new.history ≡ journal.old.history ++ result ∷ [] }
    ensures waiting { journal.new.waiting ≡ journal.old.waiting }
    ensures given { journal.new.given ≡ journal.old.given }
    ensures stalls { journal.new.stalls ≡ journal.old.stalls }
{
    let event = Event {
        line: 0,
        moment,
        what: What::Reload,
    };
    let work = PreparedEntry {
        outcome: Outcome::Plain,
        outputs: Outputs::new(alloc),
        records: Records::none(alloc),
    };
    journal.enter(event, work, next)
}
