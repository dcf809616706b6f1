//! The charging records on their way to the thread that keeps them.

ghost use Rattle.std.specs.Prelude.{◌≡◌, ◌≤◌, ◌++◌, ◌∷◌, [], IfOk, OnErr, OnOk, length, true};
ghost use mathlib.Core.List.{IsPrefix};
ghost use Rattle.xp_keeping.specs.Queued.{IsLastOf};
ghost use Rattle.xp_keeping.specs.steps.Queue.{StaysWith};

use std::alloc::{AllocError, Global};
use std::collections::VecDeque;
use std::marker::Model;
use std::sync::Wait;
use xp_cdr::EndedCall;
use xp_outbox::{PutEnd, TakeEnd, count_untaken, outbox};
use xp_past::Past;

/// How many records the queue between the two threads has room for. Further ones wait before it.
const ROOM: usize = 1_024;

/// The records that were handed over and are not known to be kept. A copy of each goes through a queue to the thread that keeps
/// them. Contracts see the queue's name, all records that were handed over, those that were put into it, and those that are left
/// here.
#[derive(Drop)]
pub(crate) struct RecordQueue {
    put: PutEnd<EndedCall, Global>,
    /// The last of the records, in order: those that are not known to be kept.
    left: VecDeque<EndedCall>,
    /// How many of them were put into the queue.
    sent: usize,
    /// How many records before them are kept.
    kept: usize,
    gone: Past<EndedCall>,
}

impl Model for RecordQueue {
    ghost use Rattle.std.specs.Prelude.{◌≡◌, ◌≤◌, ◌++◌, length, take};
    ghost use Rattle.xp_keeping.specs.steps.Queue.{Handing};

    ghost Value = { Handing };

    ghost view = { λ q. record { queue = q.put.queue; all = q.gone.items ++ q.left.items; put = q.put.put; left = q.left.items } };

    ghost invariant = { λ q. (q.put.put ≡ q.gone.items ++ take q.sent q.left.items) × (q.sent ≤ length q.left.items) };
}

impl RecordQueue {
    /// A queue of no records, and the end from which the other thread takes them.
    ///
    /// # Errors
    ///
    /// `AllocError` if an allocation fails.
    pub(crate) fn new(
        alloc: Global,
    ) -> Result<(RecordQueue, TakeEnd<EndedCall, Global>), AllocError>
        ensures one { IfOk result (λ ends. ends.0.queue ≡ ends.1.queue) }
        ensures empty { IfOk result (λ ends. (ends.0.all ≡ []) × (ends.0.left ≡ []) × (ends.1.taken ≡ [])) }
    {
        let (put, taken) = outbox(alloc, ROOM)?;
        let queue = RecordQueue {
            put,
            left: VecDeque::new(alloc),
            sent: 0,
            kept: 0,
            gone: Past::new(),
        };
        Ok((queue, taken))
    }

    /// Adds a record behind the others. It goes into the queue with the next `send`.
    ///
    /// # Errors
    ///
    /// Memory is wanting. Then nothing has changed.
    pub(crate) fn add(&mut self, ended: EndedCall) -> Result<(), AllocError>
        ensures queue { self.new.queue ≡ self.old.queue }
        ensures ok { OnOk result (self.new.all ≡ self.old.all ++ ended ∷ []) }
        ensures err { OnErr result (self.new.all ≡ self.old.all) }
    {
        match self.left.push_back(ended) {
            Ok(()) => Ok(()),
            Err(_) => Err(AllocError),
        }
    }

    /// Puts those records into the queue that it has room for.
    pub(crate) fn send<R: Wait>(&mut self, rt: &R)
        ensures { StaysWith self.old self.new }
    {
        let room = self.put.room(rt);
        for _place in 0..room {
            if !self.send_one(rt) {
                return;
            }
        }
    }

    /// Puts the next record into the queue, if there is one and room for it.
    fn send_one<R: Wait>(&mut self, rt: &R) -> bool
        ensures { StaysWith self.old self.new }
    {
        if self.put.free() == 0 {
            return false;
        }
        match self.left.get(self.sent) {
            Some(ended) => {
                self.put.put(rt, ended.copy());
                self.sent += 1;
                true
            }
            None => false,
        }
    }

    /// Lets the first records go, so that those that are left begin behind the first `kept` of all.
    pub(crate) fn let_go(&mut self, kept: usize)
        ensures { StaysWith self.old self.new }
    {
        for _record in self.kept..kept {
            if !self.let_one_go() {
                return;
            }
        }
    }

    /// Lets the first record go, if it was put into the queue.
    fn let_one_go(&mut self) -> bool
        ensures { StaysWith self.old self.new }
    {
        if self.sent == 0 {
            return false;
        }
        match self.left.pop_front() {
            Some(ended) => {
                self.gone.push(&ended);
                self.sent -= 1;
                self.kept = self.kept.saturating_add(1);
                true
            }
            None => false,
        }
    }

    /// The records that are not known to be kept: the last of all.
    pub(crate) fn left(&self) -> &VecDeque<EndedCall>
        ensures left { result.now.items ≡ self.now.left }
        ensures last { IsLastOf self.now.left self.now.all }
    {
        &self.left
    }

    /// How many records are not known to be kept.
    pub(crate) fn count(&self) -> usize {
        self.left.len()
    }

    /// Whether all records were put into the queue.
    pub(crate) fn is_sent(&self) -> bool {
        self.sent == self.left.len()
    }

    /// Whether the other end has taken all records. It is then given back with the queue.
    pub(crate) fn has_all<R: Wait>(&mut self, rt: &R, taken: TakeEnd<EndedCall, Global>) -> bool
        requires { taken.queue ≡ self.old.queue }
        ensures stays { StaysWith self.old self.new }
        ensures all { result ≡ true → taken.taken ≡ self.old.all }
    {
        let untaken = count_untaken(rt, &mut self.put, taken);
        untaken == 0 && self.sent == self.left.len()
    }
}
