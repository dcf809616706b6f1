ghost use Rattle.std.specs.Prelude.{◌≡◌, ◌+◌, ◌-◌, ◌<◌, ◌≤◌, [], ◌∷◌, ◌++◌, IfOk, length};

use crate::rule::{EndView, Ends, Looks, Puts, Queue, TakingPart};
use crate::take::TakeEnd;
use crossbeam_queue::Pass;
use std::alloc::{AllocError, Allocator};
use std::marker::Model;
use std::sync::{Arc, Wait};
use std::thread;

/// The end of an outbox into which the exchange puts items.
#[derive(Drop)]
pub struct PutEnd<T, A: Allocator> {
    pub(crate) queue: Arc<Queue<T, A>, A>,
    pub(crate) pass: Pass<T, EndView<T>>,
    free: usize,
}

impl<T, A: Allocator> Model for PutEnd<T, A> {
    ghost use Rattle.std.specs.Prelude.{◌≡◌, ◌≤◌};
    ghost use Rattle.std.specs.Arc.{arc_value};
    ghost use Rattle.crossbeam_queue.specs.Passes.{view as known, IsPassOf, ruled_capacity};
    ghost use Rattle.xp_outbox.specs.Ends.{Putting};

    ghost Value = { Putting T };

    ghost use Rattle.xp_outbox.specs.steps.Rule.{putter};

    ghost view = { λ e. record { queue = e.pass.table_id; capacity = ruled_capacity (arc_value e.queue); put = (known e.pass).put; free = e.free } };

    ghost invariant = { λ e. IsPassOf (arc_value e.queue) e.pass × (known e.pass ≡ putter (known e.pass).put) × (e.free ≤ ruled_capacity (arc_value e.queue)) };
}

/// Allocates an outbox with room for `capacity` items, and returns its two ends.
///
/// # Errors
///
/// `AllocError` if an allocation fails.
pub fn outbox<T: Drop, A: Allocator + Copy>(
    alloc: A,
    capacity: usize,
) -> Result<(PutEnd<T, A>, TakeEnd<T, A>), AllocError>
    requires { 0 < capacity }
    ensures one { IfOk result (λ ends. (ends.0.queue ≡ ends.1.queue) × (ends.1.capacity ≡ capacity)) }
    ensures empty { IfOk result (λ ends. (ends.0.put ≡ []) × (ends.1.taken ≡ []) × (ends.1.owed ≡ [])) }
    ensures free { IfOk result (λ ends. (ends.0.capacity ≡ capacity) × (ends.0.free ≡ capacity)) }
{
    let (queue, mut pass) = Queue::ruled(alloc, capacity)?;
    let taking = queue.another::<Ends>(&mut pass);
    let queue = Arc::new(alloc, queue)?;
    let theirs = Arc::try_clone(&queue)?;
    let put = PutEnd {
        queue,
        pass,
        free: capacity,
    };
    Ok((put, TakeEnd::new(theirs, taking)))
}

impl<T: Drop, A: Allocator> PutEnd<T, A> {
    /// Looks at how many places are free, and returns their number. This end alone fills places. So at least as many stay
    /// free until it puts an item.
    pub fn room<R: Wait>(&mut self, rt: &R) -> usize
        ensures known { self.new ≡ record self.old { free = result } }
        ensures most { result ≤ self.old.capacity }
        ensures least { self.old.capacity ≤ result + length self.old.put }
    {
        let held = self.queue.len_as::<Looks, R>(rt, &mut self.pass);
        self.free = self.queue.capacity() - held;
        self.free
    }

    /// Returns how many places this end knows to be free: as many as the last look found, less the items put since. Before
    /// the first look all places were free.
    pub fn free(&self) -> usize
        ensures { result ≡ self.now.free }
    {
        self.free
    }

    /// Puts an item behind all others, into a place that this end knows to be free. While the queue refuses the item, it
    /// tries again.
    pub fn put<R: Wait>(&mut self, rt: &R, item: T)
        requires { 0 < self.old.free }
        ensures { self.new ≡ record self.old { put = self.old.put ++ item ∷ []; free = self.old.free - 1 } }
    {
        let mut item = item;
        for _ in rt.forever() {
            match self.queue.push_as::<Puts, R>(rt, &mut self.pass, item) {
                Ok(()) => break,
                Err(back) => item = back,
            }
            thread::yield_now();
        }
        self.free -= 1;
    }

    /// Tells the take end of the same outbox which items were put so far.
    pub fn tell(&mut self, end: &mut TakeEnd<T, A>)
        requires { self.old.queue ≡ end.old.queue }
        ensures same { self.new ≡ self.old }
        ensures told { end.new ≡ record end.old { owed = self.old.put } }
    {
        let taking = self.queue.another::<TakingPart>(&mut end.pass);
        self.queue.absorb::<Ends>(&mut self.pass, taking);
        end.pass = self.queue.another::<Ends>(&mut self.pass);
    }
}
