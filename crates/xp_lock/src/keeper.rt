//! What the lock protects.

ghost use Rattle.std.specs.Prelude.{◌≡◌, ◌<◌, ◌^◌, [], ◌∷◌, ◌++◌, false, true, IfErr, IfOk, None, OnErr, OnOk, Some, length, map, replicate, slice_set};
ghost use mathlib.Core.List.{IsPrefix};
ghost use Rattle.xp_subs.specs.Tables.{line_count};
ghost use Rattle.xp_step.specs.Exchange.{IsReadable};
ghost use Rattle.xp_step.specs.InForce.{in_force};
ghost use Rattle.xp_lock.specs.Closing.{AreCounted, NoneTwice, PassesMatch};
ghost use Rattle.xp_lock.specs.Faults.{event_in};
ghost use Rattle.xp_lock.specs.Locked.{Refuses, Takes};
ghost use Rattle.xp_lock.specs.Outboxes.{HaveCapacity, outbox_at};
ghost use Rattle.xp_lock.specs.Passes.{GainsEvent};
ghost use Rattle.xp_lock.specs.Reloading.{RefusesReload, Reloads};
ghost use Rattle.xp_lock.specs.steps.Outboxes.{OutboxesMatch};
ghost use Rattle.xp_seats.specs.Handed.{is_raised};
ghost use Rattle.xp_seats.specs.Recording.{Receives};
ghost use Rattle.xp_seats.specs.Views.{StartsWith, seen_by};
ghost use Rattle.xp_view.specs.Views.{Shows};

use crate::book::Book;
use crate::entering::enter;
use crate::fault::{OfferFault, ReloadRefusal};
use crate::giving_up::{bring_into_force, prepare_reload};
use crate::look::Look;
use crate::outboxes::{OutboxPutEnd, has_room, tell_put};
use crate::pass::LinePass;
use crate::receipt::Receipt;
use std::alloc::{AllocError, Allocator, Global};
use std::marker::{Model, PhantomData};
use std::sync::Wait;
use xp_charge::Record;
use xp_core::Core;
use xp_outbox::count_untaken;
use xp_seats::{Name, Recorder, SeatsForProofs};
use xp_step::{Event, MOST_STALLS};
use xp_subs::Subs;
use xp_view::ExchangeView;

/// How many places of the history must be left: one for the event, and three for the stalls that it may force.
const PLACES_FOR_AN_EVENT: u64 = 4;

/// What the lock protects: the exchange, the put ends of its lines' outboxes, whether it refuses every event, and, for proofs alone, who
/// has seen how much of the history.
#[derive(Drop)]
pub struct Keeper<N: Name, A: Allocator = Global> {
    core: Core<A>,
    outboxes: Vec<OutboxPutEnd<A>, A>,
    halted: bool,
    seats: SeatsForProofs<A>,
    name: PhantomData<N>,
}

impl<N: Name, A: Allocator> Model for Keeper<N, A> {
    ghost use Rattle.xp_lock.specs.Locked.{Locked};
    ghost use Rattle.xp_lock.specs.steps.Keeping.{IsKept};

    ghost Value = { Locked A };

    ghost view = { λ k. record { subs = k.core.subs; history = k.core.history; given = k.core.given; waiting = k.core.waiting; outboxes = k.outboxes.items; halted = k.halted } };

    ghost invariant = { λ k. IsKept N.subs N.queues N.seats k.core k.outboxes.items k.seats };
}

impl<N: Name, A: Allocator + Copy> Keeper<N, A> {
    /// The keeper of this exchange and these outboxes. It is not halted, no record was handed over, and the lines and the recorder have
    /// seen nothing yet.
    pub(crate) fn new(
        core: Core<A>,
        outboxes: Vec<OutboxPutEnd<A>, A>,
        seats: SeatsForProofs<A>,
    ) -> Keeper<N, A>
        requires subs { core.subs ≡ N.subs }
        requires history { core.history ≡ [] }
        requires given { core.given ≡ [] }
        requires queues { map (λ b. b.queue) outboxes.items ≡ N.queues }
        requires matches { OutboxesMatch core.subs [] outboxes.items }
        requires seats { seats ≡ record { table = N.seats; known = replicate (line_count N.subs) (Some []) ++ Some [] ∷ [] } }
    {
        Keeper {
            core,
            outboxes,
            halted: false,
            seats,
            name: PhantomData,
        }
    }

    /// Enters one event of the pass's line with the stalls that the event forces, and puts their outputs into the outboxes.
    /// The pass then has seen the whole history, and its outbox knows what was put into it. The outbox of each line has 64
    /// places.
    ///
    /// # Errors
    ///
    /// The first of these that applies:
    ///
    /// - `Halted`: the exchange was halted.
    /// - `JournalFull`: fewer than four places of the history are left.
    /// - `NoRoom`: the event is an Up, and the outbox of its line has fewer than 24 free places.
    /// - `Memory`: an allocation failed.
    ///
    /// The fault gives the event back. Nothing has changed, except that the exchange looked at the free places of the line
    /// where the event is an Up. The pass stays as it was.
    pub fn offer<R: Wait>(
        &mut self,
        rt: &R,
        pass: &mut LinePass<N, A>,
        event: Event<A>,
    ) -> Result<Receipt, OfferFault<A>>
        requires line { event.line ≡ pass.old.line }
        requires readable { IsReadable event.what }
        requires kind { is_raised event.what ≡ false }
        ensures takes { IfOk result (λ done. Takes self.old event done self.new) }
        ensures ok { IfOk result (λ done. GainsEvent N.subs pass.old event done pass.new) }
        ensures shown { OnOk result (pass.new.seen ≡ self.new.history) }
        ensures refuses { IfErr result (λ fault. Refuses self.old event fault self.new) }
        ensures err { IfErr result (λ fault. event_in fault ≡ event) }
        ensures pass { OnErr result (pass.new ≡ pass.old) }
        ensures capacities { HaveCapacity (line_count N.subs) self.new.outboxes }
    {
        let line = pass.line;
        if self.halted {
            return Err(OfferFault::Halted(event));
        }
        if self.core.count() + PLACES_FOR_AN_EVENT > self.core.subs().journal() {
            return Err(OfferFault::JournalFull(event));
        }
        if !has_room(rt, &mut self.outboxes, &event) {
            return Err(OfferFault::NoRoom(event));
        }
        if self.core.reserve_stalls(MOST_STALLS).is_err() {
            return Err(OfferFault::Memory(event));
        }
        let done = enter(rt, &mut self.core, &mut self.outboxes, event)?;
        let _legal = self.core.count();
        self.seats.show(&mut pass.seat, &self.core);
        tell_put(&mut self.outboxes, line, &mut pass.outbox);
        Ok(done)
    }

    /// Hands over the charging records that wait: those of the calls that ended since the recorder last took records, in the
    /// order in which they ended. So each record is handed over once. The recorder then has seen the whole history.
    ///
    /// # Errors
    ///
    /// `AllocError` if an allocation fails. Then no record was handed over, and the recorder stays as it was.
    pub fn take_records(
        &mut self,
        recorder: &mut Recorder<N, A>,
    ) -> Result<Vec<Record, A>, AllocError>
        ensures ok { OnOk result (self.new ≡ record self.old { given = self.old.given ++ self.old.waiting; waiting = [] }) }
        ensures waiting { IfOk result (λ taken. taken.items ≡ self.old.waiting) }
        ensures receives { IfOk result (λ taken. Receives N.subs recorder.old taken.items recorder.new) }
        ensures shown { OnOk result (recorder.new.seen ≡ self.old.history) }
        ensures unchanged { OnErr result (self.new ≡ self.old) }
        ensures err { OnErr result (recorder.new ≡ recorder.old) }
    {
        let taken = self.core.take_records()?;
        recorder.receive(&mut self.seats, &self.core, taken.as_slice());
        Ok(taken)
    }

    /// Hands over the charging records that wait, as `take_records` does, and shows the exchange as it is then: each line, and the
    /// call that it is in, in the state to which the history leads that the recorder now knows.
    ///
    /// # Errors
    ///
    /// `AllocError` if an allocation fails. Then no record was handed over, and the recorder stays as it was.
    pub fn look(&mut self, alloc: A, recorder: &mut Recorder<N, A>) -> Result<Look<A>, AllocError>
        ensures receives { IfOk result (λ look. Receives N.subs recorder.old look.records.items recorder.new) }
        ensures shows { IfOk result (λ look. Shows N.subs recorder.new.seen look.view) }
        ensures err { OnErr result (recorder.new ≡ recorder.old) }
    {
        let view = ExchangeView::of(alloc, &self.core)?;
        let records = self.take_records(recorder)?;
        Ok(Look { records, view })
    }

    /// Gives up the lines that must go before other subscriptions come into force, hands over the charging records that wait then, as
    /// `take_records` does, and puts the subscriptions into force, all at this moment. A line must go that is in service, and that its
    /// place does not keep: its call ends, its connection is closed, and its far end is told, as for every stall. The recorder knows a
    /// history in which these subscriptions are in force.
    ///
    /// # Errors
    ///
    /// `Halted`: the exchange was halted. `Refused`: the subscriptions cannot come into force now, or the history has fewer than four
    /// places for each line that must go, and one. `Memory`: an allocation failed. Nothing has changed, no record was handed over,
    /// and the recorder stays as it was.
    pub fn reload<R: Wait>(
        &mut self,
        rt: &R,
        recorder: &mut Recorder<N, A>,
        next: Subs,
        moment: u64,
    ) -> Result<Vec<Record, A>, ReloadRefusal>
        ensures ok { IfOk result (λ taken. Reloads self.old next moment taken.items self.new) }
        ensures receives { IfOk result (λ taken. Receives N.subs recorder.old taken.items recorder.new) }
        ensures shown { OnOk result (recorder.new.seen ≡ self.new.history) }
        ensures in_force { OnOk result (in_force N.subs recorder.new.seen ≡ next) }
        ensures refused { IfErr result (RefusesReload self.old.halted self.old.subs self.old.history next) }
        ensures unchanged { OnErr result (self.new ≡ self.old) }
        ensures err { OnErr result (recorder.new ≡ recorder.old) }
    {
        if self.halted {
            return Err(ReloadRefusal::Halted);
        }
        let prepared = prepare_reload(&mut self.core, &next)?;
        let taken = bring_into_force(
            rt,
            &mut self.core,
            &mut self.outboxes,
            prepared,
            next,
            moment,
        );
        recorder.receive(&mut self.seats, &self.core, taken.as_slice());
        Ok(taken)
    }

    /// Makes the exchange refuse every later event.
    pub fn halt(&mut self)
        ensures { self.new ≡ record self.old { halted = true } }
    {
        self.halted = true;
    }

    /// Compares what each pass has seen and taken with the history, counts what it took, and returns the book. No line has
    /// two passes here. What the recorder saw and received is compared too. The caller passes a zero for each line, as room for
    /// the counts.
    pub(crate) fn close<R: Wait>(
        self,
        rt: &R,
        passes: Vec<LinePass<N, A>, A>,
        recorder: Recorder<N, A>,
        zeros: Vec<u64, A>,
    ) -> Book<A>
        requires zeros { zeros.items ≡ replicate (line_count N.subs) 0 }
        ensures subs { result.subs ≡ N.subs }
        ensures history { result.history ≡ self.history }
        ensures told { PassesMatch result.history passes.items }
        ensures taken { AreCounted result passes.items }
        ensures once { NoneTwice passes.items }
        ensures recorded { StartsWith result.history recorder.seen }
        ensures given { result.given ≡ recorder.received }
    {
        let Keeper {
            core,
            outboxes,
            halted: _,
            seats,
            name: _,
        } = self;
        let mut seats = seats;
        recorder.give_back(&mut seats);
        let mut outboxes = outboxes;
        let mut taken = zeros;
        let _entries = core.count();
        for pass in passes {
            let at = pass.line as usize;
            taken[at] = take_back(rt, &mut seats, &mut outboxes, pass);
        }
        Book::new(core, taken)
    }
}

/// Takes a pass back. The keeper knew what it saw. Compares what it took with what was put into its outbox, and returns how many items
/// that are.
fn take_back<N: Name, A: Allocator, R: Wait>(
    rt: &R,
    seats: &mut SeatsForProofs<A>,
    outboxes: &mut Vec<OutboxPutEnd<A>, A>,
    pass: LinePass<N, A>,
) -> u64
    requires seats { seats.old.table ≡ N.seats }
    requires outboxes { map (λ b. b.queue) outboxes.old.items ≡ N.queues }
    ensures seats { seats.new ≡ record seats.old { known = slice_set seats.old.known pass.line None } }
    ensures agree { seen_by seats.old.known pass.line ≡ Some pass.seen }
    ensures outboxes { outboxes.new.items ≡ outboxes.old.items }
    ensures there { pass.line < length outboxes.old.items }
    ensures taken { IsPrefix pass.taken (outbox_at outboxes.old.items pass.line).put }
    ensures count { length pass.taken < 2 ^ 64 → result ≡ length pass.taken }
{
    let LinePass {
        line,
        modulus: _,
        seat,
        outbox,
        count,
        name: _,
    } = pass;
    seats.take_back(seat);
    let at = line as usize;
    let end = &mut outboxes[at];
    count_untaken(rt, end, outbox);
    count
}
