ghost use Rattle.std.specs.Prelude.{◌≡◌, [], ◌∷◌, ◌++◌, IfNone, IfSome};
ghost use Rattle.std.specs.Arc.{arc_value};
ghost use mathlib.Core.List.{IsPrefix};
ghost use Rattle.crossbeam_queue.specs.Passes.{view, IsPassOf, ruled_capacity};
ghost use Rattle.xp_outbox.specs.steps.Rule.{taker};

use crate::rule::{EndView, Queue, Takes};
use crossbeam_queue::Pass;
use std::alloc::Allocator;
use std::marker::Model;
use std::sync::{Arc, Wait};

/// The end of an outbox from which its line takes items.
#[derive(Drop)]
pub struct TakeEnd<T, A: Allocator> {
    queue: Arc<Queue<T, A>, A>,
    pub(crate) pass: Pass<T, EndView<T>>,
}

impl<T, A: Allocator> Model for TakeEnd<T, A> {
    ghost use Rattle.std.specs.Prelude.{◌≡◌};
    ghost use Rattle.std.specs.Arc.{arc_value};
    ghost use Rattle.crossbeam_queue.specs.Passes.{view as known, IsPassOf, ruled_capacity};
    ghost use Rattle.xp_outbox.specs.Ends.{Taking};

    ghost Value = { Taking T };

    ghost use Rattle.xp_outbox.specs.steps.Rule.{taker};

    ghost view = { λ e. record { queue = e.pass.table_id; capacity = ruled_capacity (arc_value e.queue); taken = (known e.pass).taken; owed = (known e.pass).owed } };

    ghost invariant = { λ e. IsPassOf (arc_value e.queue) e.pass × (known e.pass ≡ taker (known e.pass).taken (known e.pass).owed) };
}

impl<T, A: Allocator> TakeEnd<T, A> {
    pub(crate) fn new(queue: Arc<Queue<T, A>, A>, pass: Pass<T, EndView<T>>) -> TakeEnd<T, A>
        requires { IsPassOf (arc_value queue) pass × (view pass ≡ taker (view pass).taken (view pass).owed) }
        ensures { result ≡ record { queue = pass.table_id; capacity = ruled_capacity (arc_value queue); taken = (view pass).taken; owed = (view pass).owed } }
    {
        TakeEnd { queue, pass }
    }

    /// Takes the oldest item, or returns `None` where it finds none. Then this end has taken all items that were put before
    /// the put end last told it.
    pub fn take<R: Wait>(&mut self, rt: &R) -> Option<T>
        ensures item { IfSome result (λ item. self.new ≡ record self.old { taken = self.old.taken ++ item ∷ [] }) }
        ensures none { IfNone result (self.new ≡ self.old) }
        ensures all { IfNone result (IsPrefix self.old.owed self.old.taken) }
    {
        self.queue.pop_as::<Takes, R>(rt, &mut self.pass)
    }
}
