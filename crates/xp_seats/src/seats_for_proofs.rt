//! Who has seen how much of the history: each line, and the recorder. Proofs alone read it. No code decides anything by it, and
//! the one word that its steps are made on stays 0.

ghost use Rattle.std.specs.Prelude.{◌≡◌, [], ◌∷◌, ◌++◌, IfOk, None, Some, length, slice_set};
ghost use Rattle.xp_seats.specs.Views.{seen_by};

use atomic_table::{Join, Play, Seat, Split, Table, TableRule};
use std::alloc::{AllocError, Allocator};
use std::collections::LinkedList;
use std::marker::Model;
use xp_core::Core;
use xp_step::Entry;

/// What a seat knows. Contracts alone speak of it. The program makes no value of it.
pub struct View<A: Allocator> {
    /// Whether this is the keeper's seat.
    pub keeps: bool,
    /// Of the keeper's seat: what each holder last saw of the history, by its number, until the holder gave its part back.
    pub known: LinkedList<Option<LinkedList<Entry<A>>>>,
    /// Whether this seat has the part of a holder.
    pub holds: bool,
    /// The number of that holder.
    pub holder: u64,
    /// The history as that holder last saw it.
    pub seen: LinkedList<Entry<A>>,
}

/// The rule of the seats: the part of a holder is in one seat, and what it saw is what the keeper knows of it.
pub struct OneOfEach;

impl<A: Allocator> TableRule<Core<A>, View<A>, ()> for OneOfEach {
    ghost use Rattle.std.specs.Prelude.{[]};
    ghost use Rattle.xp_seats.specs.steps.Views.{IsShared, keeping};

    ghost holds = { λ _ s. IsShared s.views };

    ghost first = { λ _. keeping [] };
}

/// The step by which the keeper gives out the part of the next holder.
pub struct NextHolder;

impl<A: Allocator> Split<View<A>> for NextHolder {
    ghost use Rattle.xp_seats.specs.steps.Views.{first_part, one_further};

    ghost left = { one_further };

    ghost right = { first_part };
}

/// The step by which the part of a holder goes from one seat to another.
pub struct Part;

impl<A: Allocator> Split<View<A>> for Part {
    ghost use Rattle.xp_seats.specs.steps.Views.{part_of, without_part};

    ghost left = { without_part };

    ghost right = { part_of };
}

impl<A: Allocator> Join<View<A>> for Part {
    ghost use Rattle.xp_seats.specs.steps.Views.{nobody, with_part};

    ghost both = { with_part };

    ghost spent = { nobody };
}

/// The step by which the holder whose part the keeper has sees the whole history.
pub struct ShowHistory;

impl<A: Allocator> Play<Core<A>, View<A>> for ShowHistory {
    ghost use Rattle.std.specs.Prelude.{◌≡◌};
    ghost use Rattle.xp_seats.specs.steps.Views.{IsShownBy};

    ghost then = { λ step m _ w. IsShownBy step.said m.0 w.0 × (w.1 ≡ m.1) };
}

/// The step by which the keeper takes the part back that it has.
pub struct TakeBack;

impl<A: Allocator> Play<Core<A>, View<A>> for TakeBack {
    ghost use Rattle.std.specs.Prelude.{◌≡◌};
    ghost use Rattle.xp_seats.specs.steps.Views.{IsReturned};

    ghost then = { λ _ m _ w. IsReturned m.0 w.0 × (w.1 ≡ m.1) };
}

/// What the keeper knows of all holders, for proofs alone.
#[derive(Drop)]
pub struct SeatsForProofs<A: Allocator> {
    table: Table<Core<A>, View<A>, (), OneOfEach, A>,
    keeper: Seat<Core<A>, View<A>>,
}

impl<A: Allocator> Model for SeatsForProofs<A> {
    ghost use Rattle.std.specs.Prelude.{◌≡◌, []};
    ghost use Rattle.xp_seats.specs.Views.{Seats};
    ghost use Rattle.xp_seats.specs.steps.Views.{keeping};

    ghost Value = { Seats A };

    ghost view = { λ s. record { table = s.keeper.table_id; known = s.keeper.me.0.known } };

    ghost invariant = { λ s. (s.table.shared.table_id ≡ s.keeper.table_id) × (s.keeper.table_id.words ≡ 1) × (s.keeper.me.0 ≡ keeping s.keeper.me.0.known) × (s.keeper.me.1 ≡ []) };
}

/// The seat of one holder: a front of the history, as the holder last saw it. Proofs alone read it.
#[derive(Drop)]
pub struct HistorySeat<A: Allocator> {
    seat: Seat<Core<A>, View<A>>,
}

impl<A: Allocator> Model for HistorySeat<A> {
    ghost use Rattle.std.specs.Prelude.{◌≡◌, []};
    ghost use Rattle.xp_seats.specs.Views.{SeatState};
    ghost use Rattle.xp_seats.specs.steps.Views.{holding};

    ghost Value = { SeatState A };

    ghost view = { λ s. record { table = s.seat.table_id; holder = s.seat.me.0.holder; seen = s.seat.me.0.seen } };

    ghost invariant = { λ s. (s.seat.me.0 ≡ holding s.seat.me.0.holder s.seat.me.0.seen) × (s.seat.me.1 ≡ []) };
}

impl<A: Allocator + Copy> SeatsForProofs<A> {
    /// Allocates the word. No part was given out yet.
    ///
    /// # Errors
    ///
    /// `AllocError` if an allocation fails.
    pub fn new(alloc: A) -> Result<SeatsForProofs<A>, AllocError>
        ensures { IfOk result (λ seats. seats.known ≡ []) }
    {
        let (table, keeper) = Table::of_words(alloc, &[0], &())?;
        Ok(SeatsForProofs { table, keeper })
    }
}

impl<A: Allocator> SeatsForProofs<A> {
    /// Gives out the seat of the next holder, who has seen nothing yet.
    pub fn next(&mut self) -> HistorySeat<A>
        ensures seats { self.new ≡ record self.old { known = self.old.known ++ Some [] ∷ [] } }
        ensures seat { result ≡ record { table = self.old.table; holder = length self.old.known; seen = [] } }
    {
        let table = &self.table;
        let seat = table.shared.split_seat::<NextHolder>(&mut self.keeper);
        HistorySeat { seat }
    }

    /// Lets a holder see the whole history. Until then it had seen what the keeper knew of it.
    pub fn show(&mut self, seat: &mut HistorySeat<A>, core: &Core<A>)
        requires { seat.old.table ≡ self.old.table }
        ensures seats { self.new ≡ record self.old { known = slice_set self.old.known seat.old.holder (Some core.now.history) } }
        ensures seat { seat.new ≡ record seat.old { seen = core.now.history } }
        ensures agree { seen_by self.old.known seat.old.holder ≡ Some seat.old.seen }
    {
        let table = &self.table;
        let keeper = &mut self.keeper;
        let part = table.shared.split_seat::<Part>(&mut seat.seat);
        table.shared.join_seat::<Part>(keeper, part);
        table
            .shared
            .compare_exchange_with::<ShowHistory>(keeper, 0, 0, 0, core);
        seat.seat = table.shared.split_seat::<Part>(keeper);
    }

    /// Takes the seat of a holder back, who saw what the keeper knew of it. There is no other seat of this holder.
    pub fn take_back(&mut self, seat: HistorySeat<A>)
        requires { seat.table ≡ self.old.table }
        ensures seats { self.new ≡ record self.old { known = slice_set self.old.known seat.holder None } }
        ensures agree { seen_by self.old.known seat.holder ≡ Some seat.seen }
    {
        let HistorySeat { seat } = seat;
        let table = &self.table;
        let keeper = &mut self.keeper;
        table.shared.join_seat::<Part>(keeper, seat);
        table.shared.load::<TakeBack>(keeper, 0);
    }
}
