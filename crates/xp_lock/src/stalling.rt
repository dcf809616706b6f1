//! Which line an event forces to be stalled: one in service that takes its outputs too slowly goes out of service.

ghost use Rattle.std.specs.Prelude.{◌≡◌, ◌+◌, ◌<◌, length, slice_set, true};
ghost use Rattle.xp_subs.specs.Tables.{line_count};
ghost use Rattle.xp_machine.specs.Channel.{is_off};
ghost use Rattle.xp_step.specs.Exchange.{Advances, world_of};
ghost use Rattle.xp_step.specs.Run.{Run};
ghost use Rattle.xp_core.specs.steps.Stalls.{stall_of};
ghost use Rattle.xp_machine.specs.World.{state_at};
ghost use Rattle.xp_lock.specs.Outboxes.{outbox_at};
ghost use Rattle.xp_lock.specs.steps.Outboxes.{IsAlike};
ghost use Rattle.xp_lock.specs.steps.Stalling.{IsSearched, is_short, lowest_short};

use crate::given::GivenLines;
use crate::outboxes::{LEAST_PLACES, OutboxPutEnd, look};
use std::alloc::Allocator;
use std::sync::Wait;
use xp_core::Core;
use xp_step::{Entry, Event, What};
use xp_subs::LineNo;

/// Returns the lowest of these lines that is due to be stalled: it is in service, and has fewer than 24 free places. It looks at
/// the free places of a line before it says so. Nearly always each of the lines is known to have its 24 free places.
pub fn due_line<A: Allocator, R: Wait>(
    rt: &R,
    core: &Core<A>,
    outboxes: &mut Vec<OutboxPutEnd<A>, A>,
    given: &GivenLines,
) -> Option<LineNo>
    ensures searched { IsSearched core.now outboxes.old.items outboxes.new.items }
    ensures due { result ≡ lowest_short core.now outboxes.new.items given.now.items }
{
    for line in given.as_slice() {
        look_if_short(rt, core, outboxes, *line);
    }
    lowest_of(core, outboxes.as_slice(), given.as_slice())
}

/// The lowest of these lines that is short of places.
fn lowest_of<A: Allocator>(
    core: &Core<A>,
    outboxes: &[OutboxPutEnd<A>],
    lines: &[LineNo],
) -> Option<LineNo>
    ensures { result ≡ lowest_short core.now outboxes.now lines.now }
{
    lines
        .iter()
        .copied()
        .filter(|line| lacks_places(core, outboxes, *line))
        .min()
}

/// Looks at the free places of a line that is short of places.
fn look_if_short<A: Allocator, R: Wait>(
    rt: &R,
    core: &Core<A>,
    outboxes: &mut Vec<OutboxPutEnd<A>, A>,
    line: LineNo,
)
    ensures outboxes { outboxes.new.items ≡ slice_set outboxes.old.items line (outbox_at outboxes.new.items line) }
    ensures alike { IsAlike (outbox_at outboxes.old.items line) (outbox_at outboxes.new.items line) }
    ensures still { is_off (state_at (world_of core.now) line) ≡ true → outbox_at outboxes.new.items line ≡ outbox_at outboxes.old.items line }
{
    if lacks_places(core, outboxes.as_slice(), line) {
        look(rt, outboxes, line);
    }
}

/// Whether a line is short of places: it is in service, and fewer than 24 places of its outbox are known to be free.
fn lacks_places<A: Allocator>(core: &Core<A>, outboxes: &[OutboxPutEnd<A>], line: LineNo) -> bool
    ensures { result ≡ is_short core.now outboxes.now line }
{
    let Some(end) = outboxes.get(usize::from(line)) else {
        return false;
    };
    end.free() < LEAST_PLACES && !core.is_out_of_service(line)
}

/// Stalls a line at this moment. The stall was prepared, and has its place in the history.
pub fn stall<A: Allocator + Copy>(core: &mut Core<A>, line: LineNo, moment: u64) -> Entry<A>
    requires line { line < line_count core.old.subs }
    requires prepared { 0 < core.old.stalls }
    requires place { length core.old.history < core.old.subs.journal }
    ensures run { Run core.old.subs core.old.history (world_of core.old) }
    ensures advances { Advances core.old (stall_of line moment) core.new result }
    ensures stalls { core.new.stalls + 1 ≡ core.old.stalls }
{
    let _legal = core.count();
    match core.step(Event {
        line,
        moment,
        what: What::Stall,
    }) {
        Ok(entry) => entry,
        Err(_) => unreachable!(),
    }
}
