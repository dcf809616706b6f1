//! The book of a closed exchange.

ghost use Rattle.std.specs.Prelude.{◌≡◌, ◌≤◌, ◌++◌, All, length};
ghost use Rattle.xp_charge.specs.Lines.{HasLines as NamesLines};
ghost use Rattle.xp_reload.specs.Frame.{IsSameFrame};
ghost use Rattle.xp_subs.specs.Tables.{line_count};
ghost use Rattle.xp_step.specs.Agreed.{AllHaveTerms};
ghost use Rattle.xp_machine.specs.Coupling.{AreCoupled};
ghost use Rattle.xp_core.specs.Delivered.{AreDelivered};
ghost use Rattle.xp_core.specs.Joined.{AreJoined};
ghost use Rattle.xp_core.specs.Lines.{HasLines};
ghost use Rattle.xp_core.specs.Records.{OneRecordEach, records_of};
ghost use Rattle.xp_step.specs.InForce.{in_force};
ghost use Rattle.xp_step.specs.Run.{Run};
ghost use Rattle.xp_step.specs.Worlds.{world_after};
ghost use Rattle.xp_core.specs.View.{flow_at};
ghost use Rattle.xp_machine.specs.View.{view_of};
ghost use Rattle.xp_machine.specs.World.{line_at};
ghost use Rattle.xp_core.specs.Writable.{AreWritable};
ghost use Rattle.xp_lock.specs.Closing.{taken_by};
ghost use Rattle.xp_lock.specs.Histories.{AreForced};
ghost use Rattle.xp_lock.specs.steps.Closing.{AreWithin};
ghost use Rattle.xp_lock.specs.Outgoing.{put_out_to};

use std::alloc::{Allocator, Global};
use std::marker::Model;
use xp_charge::Record;
use xp_core::Core;
use xp_machine::LineView;
use xp_subs::{LineNo, Subs};

/// The book of a closed exchange: its history, and all that can be read from it.
#[derive(Drop)]
pub struct Book<A: Allocator = Global> {
    core: Core<A>,
    taken: Vec<u64, A>,
}

impl<A: Allocator> Model for Book<A> {
    ghost use Rattle.xp_lock.specs.Closing.{Closed};

    ghost Value = { Closed A };

    ghost use Rattle.xp_lock.specs.Histories.{AreForced};
    ghost use Rattle.xp_lock.specs.steps.Closing.{AreWithin};

    ghost view = { λ b. record { subs = b.core.subs; history = b.core.history; given = b.core.given; taken = b.taken.items } };

    ghost invariant = { λ b. AreWithin b.taken.items b.core.history × AreForced b.core.subs b.core.history };
}

impl<A: Allocator> Book<A> {
    /// The book of this core, with the counts of the outputs that the lines took, by line.
    pub(crate) fn new(core: Core<A>, taken: Vec<u64, A>) -> Book<A>
        requires within { AreWithin taken.items core.history }
        requires forced { AreForced core.subs core.history }
        ensures { result ≡ record { subs = core.subs; history = core.history; given = core.given; taken = taken.items } }
    {
        Book { core, taken }
    }

    /// Returns how many entries the history has. It is a run of the exchange machine that leads to the last state. Each packet
    /// that an entry puts out can be encoded by the modulus of its line, and each line that an entry names is one of the
    /// subscriptions. Closed user groups let the stations of each live call, and of each line that a call was ever put to,
    /// be joined. The sizes of each live call are in their ranges, and what a connected call accepts arrives. The history is one
    /// event after the other, each with the stalls that it forced: three at most, each at its moment and of a line in service
    /// that the event, or a stall before, put something out to. Only a reload has other stalls, before it: those of the lines that
    /// must go.
    pub fn count(&self) -> u64
        ensures count { result ≡ length self.now.history }
        ensures run { Run self.now.subs self.now.history (world_after self.now.subs self.now.history) }
        ensures writable { All (λ entry. AreWritable self.now.subs entry.outputs) self.now.history }
        ensures lines { All (HasLines (line_count self.now.subs)) self.now.history }
        ensures joined { AreJoined self.now.subs self.now.history (world_after self.now.subs self.now.history) }
        ensures terms { AllHaveTerms self.now.subs (world_after self.now.subs self.now.history) }
        ensures delivered { AreDelivered self.now.subs self.now.history (world_after self.now.subs self.now.history) }
        ensures forced { AreForced self.now.subs self.now.history }
    {
        self.core.count()
    }

    /// Returns the charging records that were not handed over before the close, in the order in which the calls ended. They
    /// follow those that were: together they are one for each call that ended, and no other. They name lines of the
    /// subscriptions.
    pub fn records(&self) -> &[Record]
        ensures each { self.now.given ++ result.now ≡ records_of self.now.history }
        ensures one_each { OneRecordEach self.now.subs self.now.history (world_after self.now.subs self.now.history) }
        ensures lines { All (NamesLines (line_count self.now.subs)) result.now }
    {
        self.core.records()
    }

    /// Returns how many charging records the history has.
    pub fn record_count(&self) -> u64
        ensures { result ≡ length (records_of self.now.history) }
    {
        self.core.record_count()
    }

    /// Returns the last state of a line.
    pub fn line(&self, line: LineNo) -> LineView
        ensures view { result ≡ view_of (line_at (world_after self.now.subs self.now.history) line) (flow_at self.now.subs self.now.history (world_after self.now.subs self.now.history) line) }
        ensures coupled { AreCoupled self.now.subs (world_after self.now.subs self.now.history) }
    {
        self.core.line(line)
    }

    /// Returns how many outputs the pass of a line took. These are the first of all outputs to the line. It returns 0 for a
    /// line that does not exist.
    pub fn taken(&self, line: LineNo) -> u64
        ensures count { result ≡ taken_by self.now.taken line }
        ensures within { result ≤ length (put_out_to line self.now.history) }
    {
        self.taken.get(line as usize).copied().unwrap_or(0)
    }

    /// Returns the subscriptions.
    pub fn subs(&self) -> &Subs
        ensures { result.now ≡ self.now.subs }
    {
        self.core.subs()
    }

    /// Returns the subscriptions in force at the close. They have the frame of those with which the exchange was opened.
    pub fn in_force(&self) -> &Subs
        ensures force { result.now ≡ in_force self.now.subs self.now.history }
        ensures frame { IsSameFrame self.now.subs result.now }
    {
        // The history says so.
        let _ = self.core.count();
        self.core.in_force()
    }
}
