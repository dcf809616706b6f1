ghost use Rattle.xp_core.specs.Determined.{IsDeterminedButLine};
ghost use Rattle.xp_core.specs.Existence.{EveryEventHasStep};
ghost use Rattle.xp_core.specs.GivenUp.{StallsGiveUp};
ghost use Rattle.xp_core.specs.States.{OtherLinesFollow, StateFollowsTable};

use std::alloc::Allocator;

/// Law: the machine chooses nothing but which idle line of its target a new call is put to. All other lines are told the
/// same, whichever it takes, and come to the same state.
pub fn step_is_determined_but_the_line<A: Allocator>()
    ensures { IsDeterminedButLine A }
{}

/// Law: every event has a step from every state that a history leads to. So want of memory hides no case.
pub fn every_event_has_a_step<A: Allocator>()
    ensures { EveryEventHasStep A }
{}

/// Law: after a step the line of its event is in the state that the table of actions has, or, where the exchange clears it
/// at once, has a clear indication to confirm.
pub fn state_follows_the_table<A: Allocator>()
    ensures { StateFollowsTable A }
{}

/// Law: after a step every other line is as it was, but for the line that a new call is put to and the far end of the
/// line's call; and as that call ends, its far end has a clear indication to confirm.
pub fn other_lines_follow<A: Allocator>()
    ensures { OtherLinesFollow A }
{}

/// Law: after a stall its line is out of service. No line has come into service, and none into a call.
pub fn stalls_give_lines_up<A: Allocator>()
    ensures { StallsGiveUp A }
{}
