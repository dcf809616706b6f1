//! Plans a packet that a line sends in its connected call: data, flow control, an interrupt or a reset.

ghost use Rattle.std.specs.Prelude.{◌≡◌, IfOk, map, List};
ghost use Rattle.std.specs.Option.{option_copied};
ghost use Rattle.xp_step.specs.declared.entry.Entry.{Entry as Entered};
ghost use Rattle.xp_step.specs.EventLine.{IsEventLine, IsShort, event_line_context};
ghost use Rattle.xp_machine.specs.StoredState.{call_of_stored};
ghost use Rattle.xp_step.specs.steps.Branches.{PlansRelayed};
ghost use Rattle.xp_step.specs.Relays.{RelaysRepresentCalls};
ghost use Rattle.xp_step.specs.Table.{packet_in as packet_of};
ghost use Rattle.xp_step.specs.EventOutputs.{send_on};

use super::Plan;
use super::clearing::exceed;
use super::event_line::{EventLine, MeteredCall};
use super::send::send;
use crate::event::What;
use crate::output::Buffer;
use crate::records::Records;
use crate::workspace::Workspace;
use std::alloc::{AllocError, Allocator};
use xp_machine::{LiveCall, Machine, RelayUpdate, Relays};
use xp_packets::Packet;
use xp_relay::Moves;

/// For how many moves a relay needs room.
const MOST_MOVES: usize = 17;

/// Plans a packet of a connected call. The packet goes through a copy of the call's relay, which the call has from then
/// on (X.25 clauses 4.3 and 4.4). Data that would go past the segment limit clears the call.
#[inline(never)]
pub fn carry<A: Allocator + Copy>(
    found: &EventLine<'_, A>,
    relays: &Relays<A>,
    what: &What<A>,
    workspace: &mut Workspace<A>,
) -> Result<Plan<A>, AllocError>
    requires { IsShort found.now.charged }
    ensures { (before : List (Entered A)) → IsEventLine found.now before → RelaysRepresentCalls found.now.subs.now before found.now.machine.now relays.now → IfOk result (PlansRelayed (event_line_context found.now before) what.now) }
{
    let alloc = workspace.alloc;
    let Some(MeteredCall { call, meter: _ }) = found.charged else {
        return Ok(Plan::none(alloc));
    };
    let Some(packet) = packet_in(what) else {
        return Ok(Plan::none(alloc));
    };
    if call.agreed.is_none() {
        return Ok(Plan::none(alloc));
    }
    let Some(metered) = relays.under(call.caller) else {
        return Ok(Plan::none(alloc));
    };
    let here = call.end_of(found.line);
    let Ok(meter) = metered.count(here, packet) else {
        return exceed(alloc, found);
    };
    let room = workspace.relays.moves(alloc, MOST_MOVES)?;
    let mut metered = workspace.relays.copy_of(alloc, metered)?;
    let mut moves = metered.take(here, packet, room)?;
    let outputs = send_all(found.machine, call, &mut moves, workspace)?;
    workspace.relays.keep_moves(moves);
    metered.set_meter(meter);
    let caller = call.caller;
    Ok(Plan::of(outputs, Records::none(alloc)).carrying(RelayUpdate { caller, metered }))
}

/// Returns the packet in an event, if the event is one.
fn packet_in<'a, A: Allocator>(what: &'a What<A>) -> Option<&'a Packet<A>>
    ensures { option_copied result ≡ packet_of what.now }
{
    match what {
        What::Frame { packet, .. } => Some(packet),
        What::Up | What::Down | What::WrongFrame(_) | What::Expire | What::Stall | What::Reload =>
            None,
    }
}

/// Takes out each move, and sends its packet to the call's line at the move's end.
fn send_all<A: Allocator + Copy>(
    machine: &Machine<A>,
    call: &LiveCall,
    moves: &mut Moves<A>,
    workspace: &mut Workspace<A>,
) -> Result<Buffer<A>, AllocError>
    ensures { IfOk result (λ buffer. buffer.outputs ≡ map (send_on machine.now (call_of_stored call.now)) moves.old.moves) }
{
    let mut outputs = workspace.buffer(moves.as_slice().len())?;
    while let Some(carried) = moves.take_first() {
        let line = call.line_at(carried.side);
        outputs = outputs.with(send(machine, line, carried.packet));
    }
    Ok(outputs)
}
