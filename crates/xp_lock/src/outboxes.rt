//! The put ends of the lines' outboxes: what puts outputs into them, and what looks at their free places.

ghost use Rattle.std.specs.Prelude.{◌≡◌, ◌<◌, ◌≤◌, true, false, [], ◌∷◌, Some, length, map, slice_get, slice_set};
ghost use Rattle.xp_lock.specs.Locked.{is_up};
ghost use Rattle.xp_lock.specs.steps.Given.{with_lines};
ghost use Rattle.xp_lock.specs.Outboxes.{IsLookedAt, LooksIf, PLACES_KEPT, outbox_at};
ghost use Rattle.xp_lock.specs.steps.Outboxes.{HasRoomFor, IsPut, with_items};

use crate::given::{GivenLines, add_lines};
use std::alloc::Allocator;
use std::sync::Wait;
use std::thread;
use xp_core::Core;
use xp_outbox::{PutEnd, TakeEnd};
use xp_step::{Event, Outgoing, Output, Outputs, What};
use xp_subs::LineNo;

/// How many free places the outbox of a line in service has to have.
pub const LEAST_PLACES: usize = 24;

/// The end of a line's outbox into which the exchange puts outputs.
pub type OutboxPutEnd<A> = PutEnd<Outgoing<A>, A>;

/// The end of a line's outbox from which the line takes outputs.
pub type OutboxTakeEnd<A> = TakeEnd<Outgoing<A>, A>;

/// Puts an output into the outbox of its line.
fn put_one<A: Allocator, R: Wait>(rt: &R, outboxes: &mut Vec<OutboxPutEnd<A>, A>, output: Output<A>)
    requires { 0 < (outbox_at outboxes.old.items output.line).free }
    ensures { outboxes.new.items ≡ slice_set outboxes.old.items output.line (with_items (outbox_at outboxes.old.items output.line) (output.outgoing ∷ [])) }
{
    let at = output.line as usize;
    if at >= outboxes.len() {
        unreachable!();
    }
    outboxes[at].put(rt, output.outgoing);
}

/// Puts each output into the outbox of its line, in order. Returns the list without them, which keeps its memory.
fn put_all<A: Allocator, R: Wait>(
    rt: &R,
    outboxes: &mut Vec<OutboxPutEnd<A>, A>,
    outputs: Outputs<A>,
) -> Outputs<A>
    requires { HasRoomFor outputs outboxes.old.items }
    ensures { IsPut outputs outboxes.old.items outboxes.new.items }
{
    let mut left = outputs;
    while let Some(output) = left.take_first() {
        put_one(rt, outboxes, output);
    }
    left
}

/// Puts the outputs of an entry into the outboxes, and adds their lines to those that were given something. The exchange
/// gets the memory of the outputs back.
pub fn put_out<A: Allocator + Copy, R: Wait>(
    rt: &R,
    core: &mut Core<A>,
    outboxes: &mut Vec<OutboxPutEnd<A>, A>,
    given: &mut GivenLines,
    outputs: Outputs<A>,
)
    requires room { HasRoomFor outputs outboxes.old.items }
    requires few { length (with_lines given.old.items outputs) ≤ 3 }
    ensures core { core.new ≡ core.old }
    ensures outboxes { IsPut outputs outboxes.old.items outboxes.new.items }
    ensures given { given.new.items ≡ with_lines given.old.items outputs }
{
    add_lines(given, outputs.as_slice());
    core.keep_memory(put_all(rt, outboxes, outputs));
}

/// Tells the take end of a line's outbox what was put into the outbox.
pub fn tell_put<A: Allocator>(
    outboxes: &mut Vec<OutboxPutEnd<A>, A>,
    line: LineNo,
    taken: &mut OutboxTakeEnd<A>,
)
    requires queue { slice_get (map (λ b. b.queue) outboxes.old.items) line ≡ Some taken.old.queue }
    ensures outboxes { outboxes.new.items ≡ outboxes.old.items }
    ensures there { line < length outboxes.old.items }
    ensures told { taken.new ≡ record taken.old { owed = (outbox_at outboxes.old.items line).put } }
{
    let at = line as usize;
    let end = &mut outboxes[at];
    end.tell(taken);
}

/// Whether an event may be entered. One that is no Up always may. For an Up it looks at the free places of the line, and at
/// least 24 must be free.
pub fn has_room<A: Allocator, R: Wait>(
    rt: &R,
    outboxes: &mut Vec<OutboxPutEnd<A>, A>,
    event: &Event<A>,
) -> bool
    requires { event.now.line < length outboxes.old.items }
    ensures looks { LooksIf (is_up event.now.what) event.now.line outboxes.old.items outboxes.new.items }
    ensures room { is_up event.now.what ≡ true → result ≡ true → PLACES_KEPT ≤ (outbox_at outboxes.new.items event.now.line).free }
    ensures none { result ≡ false → (is_up event.now.what ≡ true) × ((outbox_at outboxes.new.items event.now.line).free < PLACES_KEPT) }
{
    if !comes_up(&event.what) {
        return true;
    }
    look(rt, outboxes, event.line) >= LEAST_PLACES
}

/// Whether an event is an Up.
fn comes_up<A: Allocator>(what: &What<A>) -> bool
    ensures { result ≡ is_up what.now }
{
    matches!(what, What::Up)
}

/// Looks at the free places of a line's outbox, and returns how many there are.
pub fn look<A: Allocator, R: Wait>(
    rt: &R,
    outboxes: &mut Vec<OutboxPutEnd<A>, A>,
    line: LineNo,
) -> usize
    requires { line < length outboxes.old.items }
    ensures outboxes { outboxes.new.items ≡ slice_set outboxes.old.items line (record (outbox_at outboxes.old.items line) { free = result }) }
    ensures looked { IsLookedAt (outbox_at outboxes.old.items line) (record (outbox_at outboxes.old.items line) { free = result }) }
{
    let at = line as usize;
    look_at(rt, &mut outboxes[at])
}

/// Looks at the free places of an outbox, and returns how many there are. It looks again while it finds fewer than this end
/// knows of. That does not happen, since this end alone fills places.
fn look_at<A: Allocator, R: Wait>(rt: &R, end: &mut OutboxPutEnd<A>) -> usize
    ensures end { end.new ≡ record end.old { free = result } }
    ensures looked { IsLookedAt end.old (record end.old { free = result }) }
{
    let known = end.free();
    for _ in rt.forever() {
        if end.room(rt) >= known {
            break;
        }
        thread::yield_now();
    }
    end.free()
}
