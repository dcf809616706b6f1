//! Acts on events, and writes the text of each entry.

ghost use Rattle.std.specs.Prelude.{◌≡◌, ◌+◌, ◌<◌, ◌≤◌, ℕ, List, [], ◌∷◌, All, IfErr, IfOk, OnErr, OnOk, length};
ghost use Rattle.std.specs.Io.KnownBytes.{Appends};
ghost use Rattle.xp_core.specs.Writable.{AreWritable};
ghost use Rattle.xp_exchange.specs.steps.Acting.{Acted, Tells, reason};
ghost use Rattle.xp_exchange.specs.FrameEvents.{CanCome, Fits};
ghost use Rattle.xp_exchange.specs.Play.{Enters, RefusesEvent};
ghost use Rattle.xp_exchange.specs.declared.fault.ReplayFault.TheVariants.{Journal};
ghost use Rattle.xp_script.specs.Lines.{HasLines};
ghost use Rattle.xp_script.specs.Text.{entry_text};
ghost use Rattle.xp_step.specs.Exchange.{Advances};
ghost use Rattle.xp_subs.specs.Tables.{line_count};

use crate::fault::ReplayFault;
use crate::reloading::in_force;
use crate::writing::write_out;
use std::alloc::Allocator;
use std::collections::VecDeque;
use std::io::Write;
use xp_core::{Core, StepFault};
use xp_script::write_entry;
use xp_step::{Entry, Event, Outputs};
use xp_subs::Subs;

/// How many places of the history must be left for an event.
pub const PLACES: u64 = 4;

/// How many charging records wait before they are dropped.
const MOST_WAITING: usize = 1_000;

/// Takes the events off the queue and acts on them in turn. Writes the text of each entry before it acts on the next
/// event. `memory` is for the octets of a frame, and `text` for the text of an entry. What they held is lost.
pub fn act_on_all<A: Allocator + Copy, W: Write>(
    core: &mut Core<A>,
    events: &mut VecDeque<Event<A>, A>,
    memory: &mut Vec<u8, A>,
    text: &mut Vec<u8, A>,
    writer: &mut W,
) -> Result<(), ReplayFault>
    requires { All (λ event. (event.line < line_count core.old.subs) × CanCome event.what) events.old.items }
    ensures acted { (text : List ℕ) × Appends (W.contents writer.old) (W.contents writer.new) text × Acted core.old events.old.items result core.new text }
    ensures subs { core.new.subs ≡ core.old.subs }
{
    while let Some(event) = events.pop_front() {
        act_on(core, event, memory, text, writer)?;
    }
    Ok(())
}

/// Acts on one event, and writes the text of its entry.
fn act_on<A: Allocator + Copy, W: Write>(
    core: &mut Core<A>,
    event: Event<A>,
    memory: &mut Vec<u8, A>,
    text: &mut Vec<u8, A>,
    writer: &mut W,
) -> Result<(), ReplayFault>
    requires line { event.line < line_count core.old.subs }
    requires comes { CanCome event.what }
    ensures acted { (text : List ℕ) × Appends (W.contents writer.old) (W.contents writer.new) text × Acted core.old (event ∷ []) result core.new text }
    ensures subs { core.new.subs ≡ core.old.subs }
{
    if core.count() + PLACES > core.subs().journal() {
        return Err(ReplayFault::Journal);
    }
    // The entry is large: it is told where the step puts it, and not moved.
    match core.step(event) {
        Ok(entry) => {
            let told = tell(in_force(core), &entry, memory, text, writer);
            core.keep_memory(outputs_of(entry));
            drop_records(core);
            told
        }
        Err(fault) => Err(reason_of(&fault)),
    }
}

/// Drops the records that wait, where they are many: their text was made with their entries. Without memory they wait on.
#[inline(always)]
fn drop_records<A: Allocator + Copy>(core: &mut Core<A>)
    ensures { core.new ≡ record core.old { given = core.new.given; waiting = core.new.waiting } }
{
    if core.records().len() >= MOST_WAITING {
        let _dropped = core.take_records();
    }
}

/// Acts on one event, and returns its entry. The history has four places left for it, also where it is a stall.
pub fn enter<A: Allocator + Copy>(
    core: &mut Core<A>,
    event: Event<A>,
) -> Result<Entry<A>, ReplayFault>
    requires { Fits core.old.subs event }
    ensures ok { IfOk result (Enters core.old event core.new) }
    ensures lines { IfOk result (HasLines (line_count core.old.subs)) }
    ensures plain { IfOk result (λ entry. entry.tables.items ≡ []) }
    ensures refused { IfErr result (RefusesEvent core.old) }
    ensures same { OnErr result (core.new ≡ core.old) }
    ensures subs { core.new.subs ≡ core.old.subs }
{
    if core.count() + PLACES > core.subs().journal() {
        return Err(ReplayFault::Journal);
    }
    match core.step(event) {
        Ok(entry) => {
            drop_records(core);
            Ok(entry)
        }
        Err(fault) => Err(reason_of(&fault)),
    }
}

/// Returns the outputs of an entry, and drops the rest.
fn outputs_of<A: Allocator>(entry: Entry<A>) -> Outputs<A> {
    entry.outputs
}

/// Returns why a step was refused, without the event.
fn reason_of<A: Allocator>(fault: &StepFault<A>) -> ReplayFault
    ensures { result ≡ reason fault.now }
{
    match fault {
        StepFault::JournalFull(_) => ReplayFault::Journal,
        StepFault::Memory(_) => ReplayFault::Memory,
    }
}

/// Makes the text of an entry in these vectors, and writes it.
fn tell<A: Allocator, W: Write>(
    subs: &Subs,
    entry: &Entry<A>,
    memory: &mut Vec<u8, A>,
    text: &mut Vec<u8, A>,
    writer: &mut W,
) -> Result<(), ReplayFault>
    requires writable { AreWritable subs.now entry.now.outputs }
    requires lines { HasLines (line_count subs.now) entry.now }
    ensures { Tells (W.contents writer.old) (W.contents writer.new) (entry_text subs.now entry.now) result }
{
    text.clear();
    write_entry(subs, entry, memory, text)?;
    write_out(writer, text)
}
