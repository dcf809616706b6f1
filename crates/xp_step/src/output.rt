ghost use Rattle.std.specs.Prelude.{◌≡◌, ◌+◌, ◌-◌, ◌<◌, ◌≤◌, [], ◌∷◌, ◌++◌, IfNone, IfOk, IfSome, length, option_to_list};

use std::alloc::{AllocError, Allocator, Global};
use std::marker::Model;
use xp_packets::Packet;
use xp_subs::LineNo;

/// What is put out to a line: a packet over its connection, or the end of the connection.
#[derive(Drop)]
pub enum Put<A: Allocator = Global> {
    /// A packet, under this logical channel identifier, 0 to 4,095 (X.25 clauses 5.1.2 and 5.1.3).
    Send { identifier: u16, packet: Packet<A> },
    /// The connection is to be closed: its line was given up as too slow.
    Close,
}

/// Something that is put out to one connection of a line.
pub struct Outgoing<A: Allocator = Global> {
    /// The number of the connection. It is how often the line has come into service: 1 for its first connection.
    pub connection: u64,
    /// What is put out.
    pub put: Put<A>,
}

impl<A: Allocator> Drop for Outgoing<A> {
    fn drop(self) {
        let Outgoing {
            connection: _,
            put: _,
        } = self;
    }
}

/// Something that is put out to a line.
#[derive(Drop)]
pub struct Output<A: Allocator = Global> {
    /// The line, one of the subscriptions'.
    pub line: LineNo,
    /// What is put out to the line, and to which connection of it.
    pub outgoing: Outgoing<A>,
}

/// What one event puts out, in order.
#[derive(Drop)]
pub struct Outputs<A: Allocator = Global> {
    outputs: Vec<Output<A>, A>,
}

impl<A: Allocator> Model for Outputs<A> {
    ghost use Rattle.std.specs.Prelude.{List};
    ghost use Rattle.xp_step.specs.declared.output.Output.{Output};

    ghost Value = { List (Output A) };

    ghost view = { λ o. o.outputs.items };
}

impl<A: Allocator> Outputs<A> {
    /// Returns no outputs.
    pub fn new(alloc: A) -> Outputs<A>
        ensures { result ≡ [] }
    {
        Outputs {
            outputs: Vec::new(alloc),
        }
    }

    /// Returns the outputs in order.
    pub fn as_slice(&self) -> &[Output<A>]
        ensures { result.now ≡ self.now }
    {
        self.outputs.as_slice()
    }

    /// Removes the first output and returns it, if there is one. The list keeps its memory.
    pub fn take_first(&mut self) -> Option<Output<A>>
        ensures some { IfSome result (λ first. self.old ≡ first ∷ self.new) }
        ensures none { IfNone result (self.old ≡ []) }
    {
        if self.outputs.is_empty() {
            return None;
        }
        Some(self.outputs.remove(0))
    }

    /// Returns how many outputs the memory of the list has room for.
    pub(crate) fn room(&self) -> usize {
        self.outputs.capacity()
    }

    /// Returns no outputs, with room for this many, in the memory of the list if it is enough.
    pub(crate) fn emptied(self, room: usize) -> Result<Buffer<A>, AllocError>
        ensures { IfOk result (λ buffer. buffer ≡ record { outputs = []; room = room }) }
    {
        let Outputs { mut outputs } = self;
        outputs.clear();
        outputs.reserve(room)?;
        Ok(Buffer { outputs, room })
    }
}

/// Outputs that are being collected, with room for more. To add one within this room allocates nothing.
#[derive(Drop)]
pub struct Buffer<A: Allocator = Global> {
    outputs: Vec<Output<A>, A>,
    room: usize,
}

impl<A: Allocator> Model for Buffer<A> {
    ghost use Rattle.std.specs.Prelude.{◌+◌, ◌≤◌, vec_len, vec_capacity};
    ghost use Rattle.xp_step.specs.Buffered.{Buffered};

    ghost Value = { Buffered A };

    ghost view = { λ b. record { outputs = b.outputs.items; room = b.room } };

    ghost invariant = { λ b. vec_len b.outputs + b.room ≤ vec_capacity b.outputs };
}

impl<A: Allocator> Buffer<A> {
    /// Returns no outputs, and no room for any.
    pub(crate) fn none(alloc: A) -> Buffer<A>
        ensures { result ≡ record { outputs = []; room = 0 } }
    {
        Buffer {
            outputs: Vec::new(alloc),
            room: 0,
        }
    }

    /// Returns no outputs, with room for this many.
    pub fn with_room(alloc: A, room: usize) -> Result<Buffer<A>, AllocError>
        ensures { IfOk result (λ buffer. buffer ≡ record { outputs = []; room = room }) }
    {
        let outputs = Vec::with_capacity(alloc, room)?;
        Ok(Buffer { outputs, room })
    }

    /// Returns the buffer with one more output.
    pub fn with(mut self, output: Output<A>) -> Buffer<A>
        requires { 0 < self.room }
        ensures { result ≡ record { outputs = self.outputs ++ output ∷ []; room = self.room - 1 } }
    {
        self.outputs.push_reserved(output);
        self.room -= 1;
        self
    }

    /// Returns the buffer with this output added, if there is one.
    pub fn with_some(self, output: Option<Output<A>>) -> Buffer<A>
        requires { length (option_to_list output) ≤ self.room }
        ensures outputs { result.outputs ≡ self.outputs ++ option_to_list output }
        ensures room { self.room ≡ result.room + length (option_to_list output) }
    {
        match output {
            None => self,
            Some(output) => self.with(output),
        }
    }

    /// Returns the outputs that were added.
    pub fn into_outputs(self) -> Outputs<A>
        ensures { result ≡ self.outputs }
    {
        let Buffer { outputs, room: _ } = self;
        Outputs { outputs }
    }
}
