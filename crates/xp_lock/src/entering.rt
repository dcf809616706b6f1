//! How an event is entered, with all that follows from it.

ghost use Rattle.std.specs.Prelude.{◌≡◌, ◌+◌, ◌<◌, ◌≤◌, true, IfOk, IfErr, IsOk, OnErr, OnOk};
ghost use Rattle.xp_subs.specs.Tables.{line_count};
ghost use Rattle.xp_step.specs.Exchange.{IsReadable};
ghost use Rattle.xp_step.specs.Stalls.{is_stall, left_after};
ghost use Rattle.xp_lock.specs.steps.Outboxes.{OutboxesMatch};
ghost use Rattle.xp_lock.specs.steps.Stalling.{CanEnter, HasTaken, with_outboxes};

use crate::fault::OfferFault;
use crate::given::GivenLines;
use crate::outboxes::{OutboxPutEnd, put_out};
use crate::receipt::Receipt;
use crate::stalling::{due_line, stall};
use std::alloc::Allocator;
use std::sync::Wait;
use xp_core::{Core, StepFault};
use xp_step::{Entry, Event};

/// Enters an event, puts its outputs into the outboxes, and stalls the lines that are then due, the lowest first, at its moment,
/// until none is due. Three stalls are prepared besides the event's own, so that nothing can fail once the event is entered. The event
/// may be a stall, and then nothing fails at all.
pub fn enter<A: Allocator + Copy, R: Wait>(
    rt: &R,
    core: &mut Core<A>,
    outboxes: &mut Vec<OutboxPutEnd<A>, A>,
    event: Event<A>,
) -> Result<Receipt, OfferFault<A>>
    requires line { event.line < line_count core.old.subs }
    requires readable { IsReadable event.what }
    requires can { CanEnter (with_outboxes core.old outboxes.old.items) event }
    requires prepared { 3 ≤ left_after event.what core.old.stalls }
    ensures ok { IfOk result (λ done. HasTaken core.old outboxes.old.items event done core.new outboxes.new.items) }
    ensures kept { OnOk result (OutboxesMatch core.new.subs core.new.history outboxes.new.items) }
    ensures stalls { core.old.stalls ≤ core.new.stalls + 4 }
    ensures stall { is_stall event.what ≡ true → IsOk result }
    ensures err { IfErr result (λ fault. fault ≡ OfferFault.Memory event) }
    ensures core { OnErr result (core.new ≡ core.old) }
    ensures outboxes { OnErr result (outboxes.new.items ≡ outboxes.old.items) }
{
    let line = event.line;
    let moment = event.moment;
    let _legal = core.count();
    let Entry {
        number,
        outputs,
        ..
    } = match core.step(event) {
        Ok(entry) => entry,
        Err(StepFault::Memory(event) | StepFault::JournalFull(event)) => return Err(
            OfferFault::Memory(event),
        ),
    };
    let mut given = GivenLines::new();
    put_out(rt, core, outboxes, &mut given, outputs);
    while let Some(slow) = due_line(rt, core, outboxes, &given) {
        let Entry { outputs, .. } = stall(core, slow, moment);
        put_out(rt, core, outboxes, &mut given, outputs);
    }
    Ok(Receipt::new(number, core, line, given))
}
