//! The journal: the history, and the records of the ended calls.

ghost use Rattle.std.specs.Prelude.{◌≡◌, ◌+◌, ◌<◌, ◌≤◌, ◌^◌, [], ◌∷◌, ◌++◌, IfNone, IfOk, IfSome, OnErr, OnOk, length, vec_len, vec_capacity};
ghost use Rattle.xp_step.specs.InForce.{brought_by};
ghost use Rattle.xp_step.specs.Stalls.{is_stall, stalls_in};
ghost use Rattle.xp_core.specs.steps.Journal.{AreSame, HasHandedOver, IsSpent, next_entry};

use crate::advance::PreparedEntry;
use crate::stalling::Spare;
use std::alloc::{AllocError, Allocator};
use std::marker::Model;
use xp_charge::Record;
use xp_past::Past;
use xp_step::{Entry, Event, What};
use xp_subs::Subs;

/// The history and the records. The history takes no memory: it is counted. The records wait until they are handed over.
/// For each prepared stall there is a spare, and a place among the records that wait.
#[derive(Drop)]
pub struct Journal<A: Allocator> {
    /// How many entries the history has.
    count: u64,
    /// How many of them are stalls.
    stall_count: u64,
    history: Past<Entry<A>>,
    /// How many records were handed over.
    given_count: u64,
    given: Past<Record>,
    waiting: Vec<Record, A>,
    spares: Vec<Spare<A>, A>,
}

impl<A: Allocator> Model for Journal<A> {
    ghost use Rattle.std.specs.Prelude.{◌≡◌, ◌+◌, ◌-◌, ◌≤◌, length, vec_len, vec_capacity};
    ghost use Rattle.xp_step.specs.Stalls.{stalls_in};
    ghost use Rattle.xp_core.specs.steps.Journal.{Journaled};

    ghost Value = { Journaled A };

    ghost view = { λ j. record { history = j.history.items; given = j.given.items; waiting = j.waiting.items; stalls = vec_len j.spares; record_room = vec_capacity j.waiting - vec_len j.waiting } };

    ghost invariant = { λ j. (j.count ≡ length j.history.items) × (j.stall_count ≡ stalls_in j.history.items) × (j.given_count ≡ length j.given.items) × (vec_len j.waiting + vec_len j.spares ≤ vec_capacity j.waiting) };
}

impl<A: Allocator + Copy> Journal<A> {
    /// Returns an empty journal, with no stall prepared.
    pub fn new(alloc: A) -> Journal<A>
        ensures history { result.history ≡ [] }
        ensures given { result.given ≡ [] }
        ensures waiting { result.waiting ≡ [] }
        ensures stalls { result.stalls ≡ 0 }
    {
        Journal {
            count: 0,
            stall_count: 0,
            history: Past::new(),
            given_count: 0,
            given: Past::new(),
            waiting: Vec::new(alloc),
            spares: Vec::new(alloc),
        }
    }

    /// Prepares so many stalls. If memory is wanting, some of them may be prepared all the same.
    pub fn prepare_stalls(&mut self, alloc: A, count: usize) -> Result<(), AllocError>
        ensures ok { OnOk result (count ≤ self.new.stalls) }
        ensures more { self.old.stalls ≤ self.new.stalls }
        ensures history { self.new.history ≡ self.old.history }
        ensures given { self.new.given ≡ self.old.given }
        ensures waiting { self.new.waiting ≡ self.old.waiting }
    {
        self.waiting.reserve(count)?;
        while self.spares.len() < count {
            self.spares.push(Spare::new(alloc)?)?;
        }
        Ok(())
    }

    /// Hands over the records that wait. Those of later stalls keep their places.
    pub fn take_records(&mut self, alloc: A) -> Result<Vec<Record, A>, AllocError>
        requires few { length self.old.given + length self.old.waiting < 2 ^ 64 }
        ensures taken { IfOk result (λ taken. taken.items ≡ self.old.waiting) }
        ensures ok { OnOk result (HasHandedOver self.old self.new) }
        ensures err { OnErr result (self.new ≡ self.old) }
    {
        let mut taken = Vec::with_capacity(alloc, self.waiting.len())?;
        self.take_records_into(&mut taken);
        Ok(taken)
    }

    /// Hands over the records that wait, behind those that were taken. It allocates nothing.
    pub fn take_records_into(&mut self, taken: &mut Vec<Record, A>)
        requires room { vec_len taken.old + length self.old.waiting ≤ vec_capacity taken.old }
        requires few { length self.old.given + length self.old.waiting < 2 ^ 64 }
        ensures taken { taken.new.items ≡ taken.old.items ++ self.old.waiting }
        ensures is { HasHandedOver self.old self.new }
    {
        self.given.extend(self.waiting.as_slice());
        self.given_count += self.waiting.len() as u64;
        add_all(taken, self.waiting.as_slice());
        self.waiting.clear();
    }
}

impl<A: Allocator> Journal<A> {
    /// Returns how many entries the history has. There is a place for the record of each prepared stall.
    pub fn count(&self) -> u64
        ensures count { result ≡ length self.now.history }
        ensures places { self.now.stalls ≤ self.now.record_room }
    {
        self.count
    }

    /// Returns how many entries of the history are stalls.
    pub fn stall_count(&self) -> u64
        ensures { result ≡ stalls_in self.now.history }
    {
        self.stall_count
    }

    /// Returns the history, which proofs alone can read.
    pub fn history(&self) -> &Past<Entry<A>>
        ensures { result.now.items ≡ self.now.history }
    {
        &self.history
    }

    /// Returns the records that wait.
    pub fn records(&self) -> &[Record]
        ensures { result.now ≡ self.now.waiting }
    {
        self.waiting.as_slice()
    }

    /// Returns how many records there are: those that were handed over, and those that wait.
    pub fn record_count(&self) -> u64
        requires few { length self.now.given + length self.now.waiting < 2 ^ 64 }
        ensures { result ≡ length self.now.given + length self.now.waiting }
    {
        self.given_count + self.waiting.len() as u64
    }

    /// Makes room for these records, besides the places of the prepared stalls.
    pub fn reserve(&mut self, records: &[Record]) -> Result<(), AllocError>
        ensures same { AreSame self.old self.new }
        ensures records { OnOk result (self.new.stalls + length records.now ≤ self.new.record_room) }
    {
        let stalls = self.spares.len();
        self.waiting.reserve(stalls + records.len())?;
        Ok(())
    }

    /// Takes the spare of a stall, if one is prepared. The place of that stall is then free.
    pub fn take_spare(&mut self) -> Option<Spare<A>>
        ensures some { IfSome result (λ _. IsSpent self.old self.new) }
        ensures none { IfNone result ((self.old.stalls ≡ 0) × (self.new ≡ self.old)) }
    {
        self.spares.pop()
    }

    /// Enters an event that leads to this, and returns the new entry. A reload brings these subscriptions. It allocates
    /// nothing.
    #[inline(always)]
    pub fn enter(&mut self, event: Event<A>, work: PreparedEntry<A>, next: &Subs) -> Entry<A>
        requires records { self.old.stalls + length work.records.items ≤ self.old.record_room }
        requires few { length self.old.history < 2 ^ 60 }
        ensures entry { result ≡ next_entry self.old.history event work result.tables }
        ensures brought { result.tables.items ≡ brought_by event.what next.now }
        ensures history { self.new.history ≡ self.old.history ++ result ∷ [] }
        ensures given { self.new.given ≡ self.old.given }
        ensures waiting { self.new.waiting ≡ self.old.waiting ++ work.records.items }
        ensures stalls { self.new.stalls ≡ self.old.stalls }
    {
        let PreparedEntry {
            outcome,
            outputs,
            records,
        } = work;
        add_all(&mut self.waiting, records.as_slice());
        if is_stall(&event.what) {
            self.stall_count += 1;
        }
        let number = self.count + 1;
        let tables = brought_by(&event.what, next);
        let entry = Entry {
            number,
            event,
            outcome,
            outputs,
            records,
            tables,
        };
        self.count = number;
        self.history.push(&entry);
        entry
    }
}

/// Adds copies of these records.
fn add_all<A: Allocator>(records: &mut Vec<Record, A>, more: &[Record])
    requires { vec_len records.old + length more.now ≤ vec_capacity records.old }
    ensures items { records.new.items ≡ records.old.items ++ more.now }
    ensures capacity { vec_capacity records.new ≡ vec_capacity records.old }
{
    for record in more {
        records.push_reserved(record.copy());
    }
}

/// Returns the subscriptions that an event brings, where a reload brings these.
fn brought_by<A: Allocator>(what: &What<A>, next: &Subs) -> Past<Subs>
    ensures { result.items ≡ brought_by what.now next.now }
{
    match what {
        What::Reload => Past::new().and(next),
        What::Up
        | What::Down
        | What::Frame { .. }
        | What::WrongFrame(_)
        | What::Expire
        | What::Stall => Past::new(),
    }
}

/// Whether an event is a stall.
fn is_stall<A: Allocator>(what: &What<A>) -> bool
    ensures { result ≡ is_stall what.now }
{
    matches!(what, What::Stall)
}
