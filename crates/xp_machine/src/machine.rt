ghost use Rattle.std.specs.Prelude.{ℕ, ◌≡◌, ◌+◌, ◌<◌, ◌≤◌, ◌^◌, None, Some, IfOk, OnOk, OnErr, option_map};
ghost use Rattle.std.specs.Option.{option_copied};
ghost use Rattle.xp_machine.specs.World.{line_states, state_at, opening, line_at, call_on, call_numbered};
ghost use Rattle.xp_machine.specs.StoredState.{entry_of, line_of, state_of};
ghost use Rattle.xp_machine.specs.Changes.{GoesOut};
ghost use Rattle.xp_machine.specs.AppliedChange.{applied_if_any, freed_if_any, left};

mod calls;
mod changes;
mod lines;

use self::changes::{free_if_any, leave, make_if_any, places};
use self::lines::channel;
use crate::call::LiveCall;
use crate::change::{Change, NoCallState};
use crate::channel::LogicalChannel;
use slab::Slab;
use std::alloc::{AllocError, Allocator, Global};
use std::marker::Model;
use xp_hunt::{LineState, Lines};
use xp_subs::LineNo;

/// The state of the exchange: its lines and its live calls.
pub struct Machine<A: Allocator = Global> {
    lines: Vec<LogicalChannel, A>,
    calls: Slab<LiveCall, A>,
    next: u64,
}

impl<A: Allocator> Drop for Machine<A> {
    fn drop(self) {
        let Machine {
            lines: _,
            calls: _,
            next: _,
        } = self;
    }
}

impl<A: Allocator> Model for Machine<A> {
    ghost use Rattle.std.specs.Coded.{codes};
    ghost use Rattle.xp_machine.specs.World.{World};
    ghost use Rattle.xp_machine.specs.steps.World.{calls_code};

    ghost Value = { World };

    ghost coded = { Prim.hlevel (codes, calls_code) };

    ghost use Rattle.xp_machine.specs.steps.StoredState.{AreKeyed};
    ghost use Rattle.xp_machine.specs.StoredState.{stored_world};

    ghost view = { λ m. stored_world m.lines.items m.calls m.next };

    ghost invariant = { λ m. AreKeyed m.lines.items m.calls };
}

impl<A: Allocator + Copy> Machine<A> {
    /// Returns the state in which all lines are out of service and no call was made yet.
    pub fn new(alloc: A, lines: usize) -> Result<Machine<A>, AllocError>
        ensures { IfOk result (λ machine. machine ≡ opening lines) }
    {
        let lines = vec![in alloc; LogicalChannel::OFF; lines]?;
        Ok(Machine {
            lines,
            calls: Slab::new(alloc),
            next: 1,
        })
    }
}

impl<A: Allocator> Lines for Machine<A> {
    ghost states = { line_states };

    fn state(&self, line: LineNo) -> LineState {
        self.line(line).state.seen()
    }
}

impl<A: Allocator> Machine<A> {
    /// Returns what the machine keeps of a line. A line that does not exist is out of service.
    pub fn line(&self, line: LineNo) -> LogicalChannel
        ensures line { line_of result ≡ line_at self.now line }
        ensures state { state_of result.state ≡ state_at self.now line }
    {
        channel(&self.lines, line)
    }

    /// Returns the number that the next call gets.
    pub fn next(&self) -> u64
        ensures { result ≡ self.now.next }
    {
        self.next
    }

    /// Returns the call that a line is in, if it is in one.
    pub fn call_on(&self, line: LineNo) -> Option<&LiveCall>
        ensures { option_map entry_of (option_copied result) ≡ call_on self.now line }
    {
        let call = channel(&self.lines, line).state.key()?;
        self.calls.get(call.key)
    }

    /// Cancels the call that was put to the line `cancelled`, if a line is given, and then makes the change, if one is
    /// given. It allocates first: if memory is wanting, nothing has changed.
    #[inline(always)]
    pub fn apply(
        &mut self,
        cancelled: Option<LineNo>,
        change: Option<Change>,
    ) -> Result<(), AllocError>
        requires fresh { call_numbered self.old self.old.next ≡ None }
        requires next { self.old.next + 1 < 2 ^ 64 }
        requires connection { (line : ℕ) → (line_at self.old line).connection + 1 < 2 ^ 64 }
        ensures ok { OnOk result (self.new ≡ applied_if_any change (freed_if_any cancelled self.old)) }
        ensures err { OnErr result (self.new ≡ self.old) }
    {
        self.calls.reserve(places(&change))?;
        free_if_any(&mut self.lines, &mut self.calls, cancelled);
        make_if_any(&mut self.lines, &mut self.calls, &mut self.next, change);
        Ok(())
    }

    /// Takes a line out of service. If the line is in a call, the call ends. It allocates nothing.
    pub fn go_out(&mut self, line: LineNo)
        ensures { self.new ≡ left line GoesOut (call_on self.old line) self.old }
    {
        leave(&mut self.lines, &mut self.calls, line, NoCallState::GoesOut);
    }
}
