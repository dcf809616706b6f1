//! The serial exchange. It takes one event after another, and enters each into the history. The history is a list that
//! proofs alone can read: it takes no memory, however long the exchange runs.

ghost use Rattle.std.specs.Prelude.{◌≡◌, ◌+◌, ◌<◌, ◌≤◌, ◌^◌, true, [], ◌∷◌, ◌++◌, All, IfOk, IfErr, IsOk, OnErr, OnOk, Err, length, vec_capacity, vec_len};
ghost use Rattle.xp_charge.specs.Lines.{HasLines as NamesLines};
ghost use Rattle.xp_subs.specs.Tables.{line_count};
ghost use Rattle.xp_machine.specs.Channel.{is_off as is_off_in};
ghost use Rattle.xp_step.specs.Exchange.{world_of};
ghost use Rattle.xp_step.specs.InForce.{MayFollow, brought_by, in_force};
ghost use Rattle.xp_core.specs.View.{call_seen_on, flow_at};
ghost use Rattle.xp_machine.specs.View.{view_of};
ghost use Rattle.xp_machine.specs.World.{line_at, state_at};

use crate::advance::advance;
use crate::call_view::{CallView, see_call};
use crate::fault::StepFault;
use crate::journal::Journal;
use crate::reload::{ReloadFault, going, may_replace, reload};
use crate::stalling::is_off;
use std::alloc::{AllocError, Allocator, Global};
use std::marker::Model;
use xp_charge::Record;
use xp_machine::{LineView, Machine, Relays};
use xp_relay::FlowState;
use xp_step::{Entry, Event, Outputs, SubsInForce, Workspace};
use xp_subs::{LineNo, Subs};

/// The exchange, which takes one event at a time.
pub struct Core<A: Allocator = Global> {
    subs: SubsInForce,
    machine: Machine<A>,
    relays: Relays<A>,
    journal: Journal<A>,
    workspace: Workspace<A>,
}

impl<A: Allocator> Drop for Core<A> {
    fn drop(self) {
        let Core {
            subs: _,
            machine: _,
            relays: _,
            journal: _,
            workspace: _,
        } = self;
    }
}

impl<A: Allocator> Model for Core<A> {
    ghost use Rattle.xp_step.specs.Exchange.{Exchange};

    ghost Value = { Exchange A };

    ghost use Rattle.std.specs.Prelude.{◌++◌};
    ghost use Rattle.xp_core.specs.steps.CoreInvariant.{IsKept};

    ghost view = { λ c. record { subs = c.subs.opening; history = c.journal.history; given = c.journal.given; waiting = c.journal.waiting; stalls = c.journal.stalls } };

    ghost invariant = { λ c. IsKept c.subs c.journal.history c.machine c.relays (c.journal.given ++ c.journal.waiting) };
}

impl<A: Allocator + Copy> Core<A> {
    ghost use Rattle.xp_core.specs.Reload.{AreGoingFrom, IsRefusedFor, reload_at};
    ghost use Rattle.xp_step.specs.Exchange.{Advances, IsReadable};
    ghost use Rattle.xp_core.specs.Lines.{HasLines};
    ghost use Rattle.xp_core.specs.OutputsPerLine.{AreFew};
    ghost use Rattle.xp_core.specs.Records.{records_of};
    ghost use Rattle.xp_step.specs.Stalls.{is_stall, left_after, places_for};
    ghost use Rattle.xp_core.specs.Writable.{AreWritable};

    /// Returns the exchange of these subscriptions. All lines are out of service, no call was made yet, the history is
    /// empty, and no stall is prepared.
    pub fn new(alloc: A, subs: Subs) -> Result<Core<A>, AllocError>
        ensures { IfOk result (λ core. core ≡ record { subs = subs; history = []; given = []; waiting = []; stalls = 0 }) }
    {
        let lines = subs.counts().lines;
        let machine = Machine::new(alloc, lines)?;
        let relays = Relays::new(alloc, lines)?;
        let subs = SubsInForce {
            opening: subs,
            reloaded: None,
        };
        Ok(Core {
            subs,
            machine,
            relays,
            journal: Journal::new(alloc),
            workspace: Workspace::new(alloc),
        })
    }

    /// Acts on one event, enters it into the history, and returns the new entry. The history keeps what the entry was, so
    /// the caller may move or drop all of it. The records of the entry wait until they are handed over.
    ///
    /// The condition is that the line is one of the subscriptions', and that a frame is one that can be read: its
    /// identifier is at most 4,095, and its packet can be encoded modulo 128. A prepared stall allocates nothing, and is
    /// then used up. A reload that comes as an event brings the subscriptions in force again.
    ///
    /// # Errors
    ///
    /// `JournalFull` if fewer than four places of the history are left, for a stall if none is left. Else `Memory` if
    /// memory is wanting. The event comes back, and nothing has changed.
    #[inline(always)]
    pub fn step(&mut self, event: Event<A>) -> Result<Entry<A>, StepFault<A>>
        requires line { event.line < line_count self.old.subs }
        requires readable { IsReadable event.what }
        ensures ok { IfOk result (λ entry. Advances self.old event self.new entry) }
        ensures brought { IfOk result (λ entry. entry.tables.items ≡ brought_by event.what (in_force self.old.subs self.old.history)) }
        ensures writable { IfOk result (λ entry. AreWritable self.old.subs entry.outputs) }
        ensures few { IfOk result (λ entry. AreFew entry.outputs) }
        ensures lines { IfOk result (HasLines (line_count self.old.subs)) }
        ensures full { self.old.subs.journal < length self.old.history + places_for event.what → result ≡ Err (StepFault.JournalFull event) }
        ensures room { length self.old.history + places_for event.what ≤ self.old.subs.journal → IfErr result (λ fault. fault ≡ StepFault.Memory event) }
        ensures stalls { OnOk result (self.new.stalls ≡ left_after event.what self.old.stalls) }
        ensures prepared { is_stall event.what ≡ true → 0 < self.old.stalls → length self.old.history < self.old.subs.journal → IsOk result }
        ensures err { OnErr result (self.new ≡ self.old) }
    {
        if self.journal.count() + event.what.places() > self.subs.opening.journal() {
            return refuse_for_places(event);
        }
        let Core {
            subs,
            machine,
            relays,
            journal,
            workspace,
        } = self;
        advance(subs, machine, relays, journal, workspace, event)
    }

    /// Puts other subscriptions into force at this moment, and returns the entry of that. From then on call requests are
    /// decided by them. Lines stay as they are, and live calls go on. It allocates nothing.
    ///
    /// # Errors
    ///
    /// `JournalFull` if no place of the history is left. `Frame` if the new subscriptions differ from those in force in what
    /// cannot change while the exchange serves. `InCall` if the address of a line that stays, and is in a call, would change.
    /// `InService` if a place does not keep its line, and the line is in service. Nothing has changed then.
    pub fn reload(&mut self, subs: Subs, moment: u64) -> Result<Entry<A>, ReloadFault>
        ensures may { MayFollow (in_force self.old.subs self.old.history) (world_of self.old) subs → length self.old.history < self.old.subs.journal → IsOk result }
        ensures ok { IfOk result (λ entry. Advances self.old (reload_at moment) self.new entry) }
        ensures brought { IfOk result (λ entry. entry.tables.items ≡ subs ∷ []) }
        ensures quiet { IfOk result (λ entry. entry.outputs ≡ []) }
        ensures unrecorded { IfOk result (λ entry. entry.records.items ≡ []) }
        ensures stalls { self.new.stalls ≡ self.old.stalls }
        ensures refused { IfErr result (IsRefusedFor self.old subs) }
        ensures err { OnErr result (self.new ≡ self.old) }
    {
        let Core {
            subs: in_force,
            machine,
            relays: _,
            journal,
            workspace,
        } = self;
        reload(workspace.alloc, in_force, machine, journal, subs, moment)
    }

    /// Hands over the charging records that wait: those of the calls that ended since the last time, in the order in which
    /// they ended. So each record of the history is handed over once, or waits.
    ///
    /// # Errors
    ///
    /// `AllocError` if an allocation fails. Then no record was handed over.
    pub fn take_records(&mut self) -> Result<Vec<Record, A>, AllocError>
        ensures taken { IfOk result (λ taken. taken.items ≡ self.old.waiting) }
        ensures ok { OnOk result (self.new ≡ record self.old { given = self.old.given ++ self.old.waiting; waiting = [] }) }
        ensures each { IfOk result (λ taken. self.old.given ++ taken.items ≡ records_of self.old.history) }
        ensures lines { IfOk result (λ taken. All (NamesLines (line_count self.old.subs)) taken.items) }
        ensures err { OnErr result (self.new ≡ self.old) }
    {
        let Core {
            journal,
            workspace,
            ..
        } = self;
        journal.take_records(workspace.alloc)
    }

    /// Hands over the charging records that wait, behind those that were taken. It allocates nothing.
    pub fn take_records_into(&mut self, taken: &mut Vec<Record, A>)
        requires room { vec_len taken.old + length self.old.waiting ≤ vec_capacity taken.old }
        ensures taken { taken.new.items ≡ taken.old.items ++ self.old.waiting }
        ensures is { self.new ≡ record self.old { given = self.old.given ++ self.old.waiting; waiting = [] } }
        ensures each { self.old.given ++ self.old.waiting ≡ records_of self.old.history }
        ensures lines { All (NamesLines (line_count self.old.subs)) self.old.waiting }
    {
        self.journal.take_records_into(taken);
    }

    /// Prepares so many stalls. Each of them then allocates nothing, whatever other events come before it. If memory is
    /// wanting, some of them may be prepared all the same.
    pub fn reserve_stalls(&mut self, count: usize) -> Result<(), AllocError>
        ensures ok { OnOk result (count ≤ self.new.stalls) }
        ensures more { self.old.stalls ≤ self.new.stalls }
        ensures rest { self.new ≡ record self.old { stalls = self.new.stalls } }
    {
        let Core {
            journal,
            workspace,
            ..
        } = self;
        journal.prepare_stalls(workspace.alloc, count)
    }

    /// Returns the allocator of what it gives and keeps.
    pub fn allocator(&self) -> A {
        self.workspace.alloc
    }

    /// Returns the lines that must be given up before these subscriptions can come into force, the lowest first: they are in
    /// service, and their places do not keep them.
    pub fn going(&self, next: &Subs) -> Result<Vec<LineNo, A>, AllocError>
        requires { line_count next.now ≡ line_count self.now.subs }
        ensures { IfOk result (λ lines. AreGoingFrom self.now next.now lines.items) }
    {
        going(self.workspace.alloc, self.in_force(), &self.machine, next)
    }
}

impl<A: Allocator> Core<A> {
    ghost use Rattle.xp_step.specs.Agreed.{AllHaveTerms};
    ghost use Rattle.xp_machine.specs.Coupling.{AreCoupled};
    ghost use Rattle.xp_core.specs.Delivered.{AreDelivered};
    ghost use Rattle.xp_core.specs.Joined.{AreJoined};
    ghost use Rattle.xp_core.specs.Lines.{HasLines};
    ghost use Rattle.xp_core.specs.Records.{OneRecordEach, records_of};
    ghost use Rattle.xp_core.specs.Reload.{IsLastingRefusal, MayReplaceIn};
    ghost use Rattle.xp_step.specs.Run.{Run};
    ghost use Rattle.xp_step.specs.Stalls.{stalls_in};
    ghost use Rattle.xp_core.specs.Writable.{AreWritable};

    /// Returns what can be seen of a line. A line in p2, p3 or p4 is one of the two lines of the live call that it
    /// shows. A line that does not exist shows as out of service.
    pub fn line(&self, line: LineNo) -> LineView
        ensures view { result ≡ view_of (line_at (world_of self.now) line) (flow_at self.now.subs self.now.history (world_of self.now) line) }
        ensures identifier { result.identifier < 4096 }
        ensures coupled { AreCoupled self.now.subs (world_of self.now) }
    {
        self.machine.line(line).view(self.flow(line))
    }

    /// Returns what can be seen of the live call that a line is in, if it is in one.
    pub fn call_on(&self, line: LineNo) -> Option<CallView>
        ensures { result ≡ call_seen_on self.now.subs self.now.history (world_of self.now) line }
    {
        let before = self.journal.history();
        see_call(
            &self.subs.opening,
            &self.machine,
            &self.relays,
            before,
            line,
        )
    }

    /// Returns whether a line is out of service, as `line` shows it. It looks at nothing else of the line.
    pub fn is_out_of_service(&self, line: LineNo) -> bool
        ensures { result ≡ is_off_in (state_at (world_of self.now) line) }
    {
        is_off(self.machine.line(line).state)
    }

    /// Returns the state of flow control of a line, if the line is in data transfer.
    fn flow(&self, line: LineNo) -> Option<FlowState>
        ensures { result ≡ flow_at self.now.subs self.now.history (world_of self.now) line }
    {
        let call = self.machine.call_on(line)?;
        let _agreement = call.agreed?;
        let metered = self.relays.under(call.caller)?;
        Some(metered.relay.state(call.end_of(line)))
    }

    /// Returns the charging records that wait: those that were not handed over yet, in the order in which the calls ended.
    /// With those that were handed over they are the records of the history: one for each ended call, and no other.
    pub fn records(&self) -> &[Record]
        ensures waiting { result.now ≡ self.now.waiting }
        ensures each { self.now.given ++ self.now.waiting ≡ records_of self.now.history }
        ensures one_each { OneRecordEach self.now.subs self.now.history (world_of self.now) }
        ensures lines { All (NamesLines (line_count self.now.subs)) result.now }
    {
        self.journal.records()
    }

    /// Returns how many charging records the history has: those that were handed over, and those that wait.
    pub fn record_count(&self) -> u64
        ensures { result ≡ length (records_of self.now.history) }
    {
        self.journal.record_count()
    }

    /// Returns how many entries the history has. They lead to the present state. Each packet that they put out can be
    /// encoded by the modulus of its line. Each line that they put something out to, and each line that they record, is one
    /// of the subscriptions'. Closed user groups let the stations of each call be joined, the sizes of each live call are in
    /// their ranges, and what a connected call accepts arrives.
    pub fn count(&self) -> u64
        ensures count { result ≡ length self.now.history }
        ensures within { result ≤ self.now.subs.journal }
        ensures few { result ≤ 2 ^ 59 }
        ensures run { Run self.now.subs self.now.history (world_of self.now) }
        ensures writable { All (λ entry. AreWritable self.now.subs entry.outputs) self.now.history }
        ensures lines { All (HasLines (line_count self.now.subs)) self.now.history }
        ensures joined { AreJoined self.now.subs self.now.history (world_of self.now) }
        ensures terms { AllHaveTerms self.now.subs (world_of self.now) }
        ensures delivered { AreDelivered self.now.subs self.now.history (world_of self.now) }
    {
        self.journal.count()
    }

    /// Returns how many entries of the history are stalls.
    pub fn stall_count(&self) -> u64
        ensures { result ≡ stalls_in self.now.history }
    {
        self.journal.stall_count()
    }

    /// Keeps the memory of outputs that are done with. The next step may use it, and then it allocates less.
    pub fn keep_memory(&mut self, outputs: Outputs<A>)
        ensures { self.new ≡ self.old }
    {
        self.workspace.keep_outputs(outputs);
    }

    /// Returns the subscriptions with which the exchange was opened.
    pub fn subs(&self) -> &Subs
        ensures { result.now ≡ self.now.subs }
    {
        &self.subs.opening
    }

    /// Returns why these subscriptions cannot come into force, or nothing if they can as soon as the lines that must go are out
    /// of service. It is never `JournalFull` or `InService`.
    pub fn may_reload(&self, next: &Subs) -> Result<(), ReloadFault>
        ensures ok { OnOk result (MayReplaceIn self.now next.now) }
        ensures err { IfErr result (IsLastingRefusal (in_force self.now.subs self.now.history) (world_of self.now) next.now) }
    {
        may_replace(self.in_force(), &self.machine, next)
    }

    /// Returns the subscriptions in force: those of the last reload, or those with which the exchange was opened.
    pub fn in_force(&self) -> &Subs
        ensures { result.now ≡ in_force self.now.subs self.now.history }
    {
        self.subs.in_force()
    }
}

/// Refuses an event for which the history has too few places. A function clears the room of its values as it begins, so this one is
/// kept out of its caller.
#[cold]
#[inline(never)]
fn refuse_for_places<A: Allocator>(event: Event<A>) -> Result<Entry<A>, StepFault<A>>
    ensures { result ≡ Err (StepFault.JournalFull event) }
{
    Err(StepFault::JournalFull(event))
}
