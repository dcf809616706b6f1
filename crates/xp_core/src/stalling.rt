//! A stall: a line takes its packets too slowly, and is given up. What that needs is allocated beforehand, so that the
//! stall itself allocates nothing.

ghost use Rattle.std.specs.Prelude.{◌≡◌, ◌<◌, ◌≤◌, [], ◌∷◌, List, length};
ghost use Rattle.xp_causes.specs.declared.clearing_cause.TheConstants.{OUT_OF_ORDER as GONE_OUT};
ghost use Rattle.xp_causes.specs.declared.diagnostic.TheConstants.{NO_ADDITIONAL_INFORMATION as NO_INFORMATION};
ghost use Rattle.xp_machine.specs.Changes.{GoesOut};
ghost use Rattle.xp_machine.specs.Channel.{is_off as is_off_at};
ghost use Rattle.xp_step.specs.declared.entry.Entry.{Entry as Entered};
ghost use Rattle.xp_step.specs.Effects.{leaves};
ghost use Rattle.xp_step.specs.EventLine.{IsEventLine, IsShort, event_line_context};
ghost use Rattle.xp_machine.specs.StoredState.{state_of};
ghost use Rattle.xp_step.specs.Plan.{recorded_at};
ghost use Rattle.xp_step.specs.Relays.{RelaysRepresentCalls};
ghost use Rattle.xp_step.specs.StepContext.{step_context};
ghost use Rattle.xp_core.specs.steps.Stalling.{IsFallen, MakesStall, outputs_of_stall};
ghost use Rattle.xp_step.specs.EventOutputs.{outputs_of};
ghost use Rattle.xp_machine.specs.World.{call_on};
ghost use Rattle.xp_subs.specs.Sound.{IsSound};

use crate::advance::PreparedEntry;
use std::alloc::{AllocError, Allocator};
use std::marker::Model;
use xp_causes::clearing_cause::OUT_OF_ORDER;
use xp_causes::diagnostic::NO_ADDITIONAL_INFORMATION;
use xp_machine::{ChannelState, Machine, NoCallState, Relays};
use xp_past::Past;
use xp_step::{
    Buffer, Entry, Event, EventLine, Outcome, Outputs, Records, SubsInForce, charged_on, close,
};

/// How many outputs a stall has at most: one closes the line's connection, and one clears the far end of its call.
const MOST_OUTPUTS: usize = 2;

/// Room for what one stall puts out, and for the record of the call that ends.
#[derive(Drop)]
pub struct Spare<A: Allocator> {
    alloc: A,
    outputs: Buffer<A>,
    records: Records<A>,
}

impl<A: Allocator> Model for Spare<A> {
    ghost use Rattle.std.specs.Prelude.{◌≡◌, ◌<◌, []};

    ghost Value = { Unit {0} };

    ghost view = { λ _. tt };

    ghost invariant = { λ s. (s.outputs ≡ record { outputs = []; room = 2 }) × (s.records.items ≡ []) × (0 < s.records.room) };
}

impl<A: Allocator + Copy> Spare<A> {
    pub fn new(alloc: A) -> Result<Spare<A>, AllocError> {
        Ok(Spare {
            alloc,
            outputs: Buffer::with_room(alloc, MOST_OUTPUTS)?,
            records: Records::with_room(alloc, 1)?,
        })
    }
}

/// Gives the line of a stall up at its moment. If the line is out of service already, it stays so, and nothing is put out.
#[cold]
#[inline(never)]
pub fn give_up<A: Allocator + Copy>(
    subs: &SubsInForce,
    machine: &mut Machine<A>,
    relays: &Relays<A>,
    before: &Past<Entry<A>>,
    spare: Spare<A>,
    event: &Event<A>,
) -> PreparedEntry<A>
    requires sound { IsSound subs.now.opening }
    requires carried { RelaysRepresentCalls subs.now.opening before.now.items machine.old relays.now }
    ensures makes { MakesStall (step_context subs.now.opening before.now.items machine.old event.now.line event.now.moment) result machine.new }
    ensures one { length result.records.items ≤ 1 }
{
    if is_off(machine.line(event.line).state) {
        return unused(spare);
    }
    let work = fall(subs, machine, relays, before, spare, event);
    machine.go_out(event.line);
    work
}

/// Returns whether a line in this state is out of service.
pub fn is_off(state: ChannelState) -> bool
    ensures { result ≡ is_off_at (state_of state) }
{
    matches!(state, ChannelState::Off)
}

/// Prepares an entry that puts nothing out.
fn unused<A: Allocator>(spare: Spare<A>) -> PreparedEntry<A>
    ensures outcome { result.outcome ≡ Outcome.Plain }
    ensures outputs { result.outputs ≡ [] }
    ensures records { result.records.items ≡ [] }
{
    let Spare {
        alloc: _,
        outputs,
        records,
    } = spare;
    PreparedEntry {
        outcome: Outcome::Plain,
        outputs: outputs.into_outputs(),
        records,
    }
}

/// Prepares the entry of a line in service that goes out of it.
fn fall<A: Allocator + Copy>(
    subs: &SubsInForce,
    machine: &Machine<A>,
    relays: &Relays<A>,
    before: &Past<Entry<A>>,
    spare: Spare<A>,
    event: &Event<A>,
) -> PreparedEntry<A>
    requires sound { IsSound subs.now.opening }
    requires carried { RelaysRepresentCalls subs.now.opening before.now.items machine.now relays.now }
    ensures fallen { IsFallen (step_context subs.now.opening before.now.items machine.now event.now.line event.now.moment) result }
    ensures one { length result.records.items ≤ 1 }
{
    let (opening, line) = (&subs.opening, event.line);
    let found = EventLine {
        subs: opening,
        in_force: subs.in_force(),
        machine,
        line,
        moment: event.moment,
        charged: charged_on(opening, machine, relays, before, line),
    };
    let Spare {
        alloc,
        outputs,
        records,
    } = spare;
    let outputs = tell(alloc, outputs, &found);
    let records = charge(records, &found);
    PreparedEntry {
        outcome: Outcome::Plain,
        outputs,
        records,
    }
}

/// Puts out that the line's connection is closed, and that the far end of its call, if it is in one, is cleared.
fn tell<A: Allocator + Copy>(alloc: A, buffer: Buffer<A>, found: &EventLine<'_, A>) -> Outputs<A>
    requires short { IsShort found.now.charged }
    requires buffer { buffer ≡ record { outputs = []; room = 2 } }
    ensures { (before : List (Entered A)) → IsEventLine found.now before → result ≡ outputs_of (outputs_of_stall (event_line_context found.now before)) }
{
    let far = found.clear_far(alloc, OUT_OF_ORDER, NO_ADDITIONAL_INFORMATION);
    buffer
        .with(close(found.machine, found.line))
        .with_some(far)
        .into_outputs()
}

/// Returns the record of the call that the line is in, if it is in one.
fn charge<A: Allocator>(room: Records<A>, found: &EventLine<'_, A>) -> Records<A>
    requires none { room.items ≡ [] }
    requires room { 0 < room.room }
    ensures records { (before : List (Entered A)) → IsEventLine found.now before → result.items ≡ recorded_at (event_line_context found.now before) (leaves found.now.line GoesOut GONE_OUT NO_INFORMATION (call_on found.now.machine.now found.now.line) ∷ []) }
    ensures one { length result.items ≤ 1 }
{
    let withdrawal = found.withdraw(
        NoCallState::GoesOut,
        OUT_OF_ORDER,
        NO_ADDITIONAL_INFORMATION,
    );
    room.with_some(withdrawal.charged)
}
