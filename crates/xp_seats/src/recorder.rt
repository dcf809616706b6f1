//! The recorder: the one that takes the charging records of an exchange as calls end.

ghost use Rattle.std.specs.Prelude.{◌≡◌, [], ◌++◌, All, List, None, Some, length, slice_set};
ghost use Rattle.xp_charge.specs.Lines.{HasLines as NamesLines};
ghost use Rattle.xp_core.specs.Records.{records_of};
ghost use Rattle.xp_seats.specs.Recording.{Receives};
ghost use Rattle.xp_seats.specs.Views.{StartsWith, seen_by};
ghost use Rattle.xp_step.specs.declared.entry.Entry.{Entry};
ghost use Rattle.xp_subs.specs.Tables.{line_count};

use crate::name::Name;
use crate::seats_for_proofs::{HistorySeat, SeatsForProofs};
use std::alloc::{Allocator, Global};
use std::marker::{Model, PhantomData};
use xp_charge::Record;
use xp_core::Core;
use xp_past::Past;

/// The recorder of an exchange, which takes its charging records as calls end. An exchange has one, which is made as it starts, of the
/// seat behind those of the lines. It knows the history as it was when it last took records, and which records it took.
#[derive(Drop)]
pub struct Recorder<N: Name, A: Allocator = Global> {
    seat: HistorySeat<A>,
    received: Past<Record>,
    /// How many records it took.
    count: u64,
    name: PhantomData<N>,
}

impl<N: Name, A: Allocator> Model for Recorder<N, A> {
    ghost use Rattle.std.specs.Prelude.{◌≡◌, length};
    ghost use Rattle.xp_core.specs.Records.{records_of};
    ghost use Rattle.xp_seats.specs.Recording.{Recording};
    ghost use Rattle.xp_subs.specs.Tables.{line_count};

    ghost Value = { Recording A };

    ghost view = { λ r. record { seen = r.seat.seen; received = r.received.items } };

    ghost invariant = { λ r. (r.seat.table ≡ N.seats) × (r.seat.holder ≡ line_count N.subs) × (r.received.items ≡ records_of r.seat.seen) × (r.count ≡ length r.received.items) };
}

impl<N: Name, A: Allocator> Recorder<N, A> {
    /// The recorder with this seat. It has seen and taken nothing yet.
    pub fn new(seat: HistorySeat<A>) -> Recorder<N, A>
        requires { seat ≡ record { table = N.seats; holder = line_count N.subs; seen = [] } }
        ensures { result ≡ record { seen = []; received = [] } }
    {
        Recorder {
            seat,
            received: Past::new(),
            count: 0,
            name: PhantomData,
        }
    }

    /// Returns how many records the recorder took. They are the records of the history as it last saw it, one for each call that
    /// had ended, in the order in which the calls ended.
    pub fn received_count(&self) -> u64
        ensures count { result ≡ length self.now.received }
        ensures each { self.now.received ≡ records_of self.now.seen }
    {
        self.count
    }

    /// Lets the recorder see the whole history, and receive these records: those of the calls that ended since it last took
    /// records, in the order in which they ended.
    pub fn receive(&mut self, seats: &mut SeatsForProofs<A>, core: &Core<A>, records: &[Record])
        requires seats { seats.old.table ≡ N.seats }
        requires subs { core.now.subs ≡ N.subs }
        requires since { (seen : List (Entry A)) → seen_by seats.old.known (line_count N.subs) ≡ Some seen → StartsWith core.now.history seen × (records_of seen ++ records.now ≡ records_of core.now.history) }
        requires lines { All (NamesLines (line_count N.subs)) records.now }
        ensures seats { seats.new ≡ record seats.old { known = slice_set seats.old.known (line_count N.subs) (Some core.now.history) } }
        ensures shown { self.new.seen ≡ core.now.history }
        ensures receives { Receives N.subs self.old records.now self.new }
    {
        let _legal = core.count();
        let _records = core.records();
        seats.show(&mut self.seat, core);
        self.received.extend(records);
        self.count = core.record_count();
    }

    /// Gives the recorder's seat back. The keeper knew what the recorder saw, and it received the records of that.
    pub fn give_back(self, seats: &mut SeatsForProofs<A>)
        requires { seats.old.table ≡ N.seats }
        ensures seats { seats.new ≡ record seats.old { known = slice_set seats.old.known (line_count N.subs) None } }
        ensures agree { seen_by seats.old.known (line_count N.subs) ≡ Some self.seen }
        ensures received { self.received ≡ records_of self.seen }
    {
        let Recorder {
            seat,
            received: _,
            count: _,
            name: _,
        } = self;
        seats.take_back(seat);
    }
}
