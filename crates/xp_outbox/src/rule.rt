//! The rule of an outbox: the items taken, followed by the items that it holds, are the items put.

use crossbeam_queue::RuledArrayQueue;
use crossbeam_queue::protocol::{Join, Lesson, Outcome, Protocol, Split};
use std::collections::LinkedList;

/// What an end of an outbox knows: whether it puts, whether it takes, all items that it put, all items that it took, and,
/// of the end that takes, the items of which it was told that they were put. Contracts alone speak of it. The program makes
/// no value of it.
pub struct EndView<T> {
    pub puts: bool,
    pub takes: bool,
    pub put: LinkedList<T>,
    pub taken: LinkedList<T>,
    pub owed: LinkedList<T>,
}

/// The rule of an outbox.
pub struct InOrder;

impl<T> Protocol<T, EndView<T>> for InOrder {
    ghost use Rattle.std.specs.Prelude.{[]};
    ghost use Rattle.xp_outbox.specs.steps.Rule.{IsInOrder, whole};

    ghost holds = { IsInOrder };

    ghost first = { whole [] [] };
}

/// The two ends of one outbox. They are split at first, joined at last, and joined and split as the take end is told what
/// was put.
pub struct Ends;

impl<T> Split<EndView<T>> for Ends {
    ghost use Rattle.xp_outbox.specs.steps.Rule.{putter, taker};

    ghost left = { λ v. putter v.put };

    ghost right = { λ v. taker v.taken v.put };
}

impl<T> Join<EndView<T>> for Ends {
    ghost use Rattle.xp_outbox.specs.steps.Rule.{spent, whole};

    ghost both = { λ v w. whole v.put w.taken };

    ghost spent = { spent };
}

/// The part of the take end goes to another pass.
pub struct TakingPart;

impl<T> Split<EndView<T>> for TakingPart {
    ghost use Rattle.xp_outbox.specs.steps.Rule.{spent, taker};

    ghost left = { λ _. spent };

    ghost right = { λ v. taker v.taken v.owed };
}

/// An item is put.
pub struct Puts;

impl<T> Outcome<T, EndView<T>> for Puts {
    ghost use Rattle.std.specs.Prelude.{◌≡◌, [], ◌∷◌, ◌++◌};
    ghost use Rattle.xp_outbox.specs.steps.Rule.{putter};

    ghost then = { λ v x w. w ≡ putter (v.put ++ x ∷ []) };
}

/// An item is taken.
pub struct Takes;

impl<T> Outcome<T, EndView<T>> for Takes {
    ghost use Rattle.std.specs.Prelude.{◌≡◌, [], ◌∷◌, ◌++◌};
    ghost use Rattle.xp_outbox.specs.steps.Rule.{taker};

    ghost then = { λ v x w. w ≡ taker (v.taken ++ x ∷ []) v.owed };
}

/// A look at how many items the outbox holds. The put end learns that it holds no more than were put.
pub struct Looks;

impl<T> Lesson<T, EndView<T>> for Looks {
    ghost use Rattle.std.specs.Prelude.{◌≤◌, length};

    ghost fact = { λ v items. length items ≤ length v.put };
}

impl<T> Lesson<T, EndView<T>> for Puts {
    ghost fact = { λ _ _. Unit {0} };
}

/// A take that finds no item. The take end then took all items of which it was told that they were put.
impl<T> Lesson<T, EndView<T>> for Takes {
    ghost use Rattle.std.specs.Prelude.{◌≡◌, length};
    ghost use mathlib.Core.List.{IsPrefix};

    ghost fact = { λ v items. length items ≡ 0 → IsPrefix v.owed v.taken };
}

/// A look at the items that an outbox holds once its ends are joined: those that were put and not taken.
pub struct Rest;

impl<T> Lesson<T, EndView<T>> for Rest {
    ghost use Rattle.std.specs.Prelude.{◌≡◌, ◌++◌};

    ghost fact = { λ v items. v.put ≡ v.taken ++ items };
}

pub type Queue<T, A> = RuledArrayQueue<T, EndView<T>, InOrder, A>;
