//! Memory that one event leaves for the next. With it, most events allocate only the octets that a call holds.

ghost use Rattle.std.specs.Prelude.{◌≡◌, [], IfOk};

use crate::output::{Buffer, Outputs};
use std::alloc::{AllocError, Allocator};
use std::marker::Model;
use std::mem;
use xp_machine::Workspace as RelayWorkspace;

/// The memory of relays that were replaced, and of outputs that were put out. What it holds does not matter.
#[derive(Drop)]
pub struct Workspace<A: Allocator> {
    /// The allocator of what an event needs.
    pub alloc: A,
    /// The memory of relays.
    pub relays: RelayWorkspace<A>,
    outputs: Outputs<A>,
}

impl<A: Allocator> Model for Workspace<A> {
    ghost Value = { Unit {0} };

    ghost view = { λ _. tt };
}

impl<A: Allocator + Copy> Workspace<A> {
    /// Returns a workspace that holds no memory yet.
    pub fn new(alloc: A) -> Workspace<A>
        ensures { result ≡ tt }
    {
        Workspace {
            alloc,
            relays: RelayWorkspace::new(),
            outputs: Outputs::new(alloc),
        }
    }
}

impl<A: Allocator> Workspace<A> {
    /// Keeps the memory of outputs, unless it has more already.
    pub fn keep_outputs(&mut self, outputs: Outputs<A>)
        ensures { self.new ≡ self.old }
    {
        if self.outputs.room() < outputs.room() {
            self.outputs = outputs;
        }
    }
}

impl<A: Allocator + Copy> Workspace<A> {
    /// Returns no outputs, with room for this many.
    #[inline(always)]
    pub(crate) fn buffer(&mut self, room: usize) -> Result<Buffer<A>, AllocError>
        ensures { IfOk result (λ buffer. buffer ≡ record { outputs = []; room = room }) }
    {
        mem::replace(&mut self.outputs, Outputs::new(self.alloc)).emptied(room)
    }
}
