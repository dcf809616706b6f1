//! Copies of a direction.

ghost use Rattle.std.specs.Prelude.{◌≡◌, ◌≤◌, [], IfOk, OnOk, length};
ghost use Rattle.std.specs.VecDeque.{deque_capacity};

use crate::data::Data;
use crate::direction_state::DirectionState;
use std::alloc::{AllocError, Allocator};
use std::collections::VecDeque;

impl<A: Allocator + Copy> DirectionState<A> {
    /// Returns an equal copy, with the same room in its queue.
    pub(crate) fn copy(&self) -> Result<DirectionState<A>, AllocError>
        ensures { IfOk result (λ copied. copied ≡ self.now) }
    {
        let alloc = *self.held.allocator();
        let mut held = VecDeque::with_capacity(alloc, usize::from(self.terms.window))?;
        copy_held(&self.held, &mut held)?;
        let interrupt = self.interrupt.copy()?;
        Ok(DirectionState {
            terms: self.terms,
            pr: self.pr,
            oldest: self.oldest,
            out: self.out,
            held,
            interrupt,
            ready: self.ready,
            owes: self.owes,
        })
    }

    /// Copies this direction over another one. Where the other queue has room already, it allocates nothing for the
    /// queue.
    pub(crate) fn copy_over(&self, other: &mut DirectionState<A>) -> Result<(), AllocError>
        ensures { OnOk result (other.new ≡ self.now) }
    {
        other.held.clear();
        other.held.reserve(usize::from(self.terms.window))?;
        other.terms = self.terms;
        other.pr = self.pr;
        other.oldest = self.oldest;
        other.out = self.out;
        other.ready = self.ready;
        other.owes = self.owes;
        other.interrupt = self.interrupt.copy()?;
        copy_held(&self.held, &mut other.held)
    }
}

/// Copies the packets that wait into an empty queue, which has room for them.
fn copy_held<A: Allocator + Copy>(
    held: &VecDeque<Data<A>, A>,
    copied: &mut VecDeque<Data<A>, A>,
) -> Result<(), AllocError>
    requires empty { copied.old.items ≡ [] }
    requires space { length held.now.items ≤ deque_capacity copied.old }
    ensures items { OnOk result (copied.new.items ≡ held.now.items) }
    ensures few { length copied.new.items ≤ length held.now.items }
    ensures capacity { deque_capacity copied.old ≤ deque_capacity copied.new }
{
    for place in 0..held.len() {
        copied.push_back_reserved(held[place].copy()?);
    }
    Ok(())
}
