//! Plans a call request: the call is put to a line as an incoming call, or refused.

ghost use Rattle.std.specs.Prelude.{◌≡◌, ◌<◌, ◌≤◌, [], ◌∷◌, ◌++◌, List, None, IfOk, length, option_to_list};
ghost use Rattle.xp_step.specs.Acts.{outputs_of_cancel};
ghost use Rattle.xp_step.specs.steps.ReceivedPackets.{request_of};
ghost use Rattle.xp_machine.specs.Changes.{Change as Changing, Begins, IsRefused};
ghost use Rattle.xp_step.specs.declared.entry.Entry.{Entry as Entered};
ghost use Rattle.xp_step.specs.steps.HasTables.{HasTables};
ghost use Rattle.xp_step.specs.EventLine.{IsEventLine, event_line_context};
ghost use Rattle.xp_step.specs.Plan.{IsPlan};
ghost use Rattle.xp_step.specs.steps.Branches.{IsCancelled, PlansRequest};
ghost use Rattle.xp_step.specs.Effects.{cancels};
ghost use Rattle.xp_step.specs.StepContext.{StepContext};
ghost use Rattle.xp_step.specs.EventOutputs.{outputs_of_refusal, outputs_of_incoming_call};
ghost use Rattle.xp_machine.specs.World.{call_on};
ghost use Rattle.xp_step.specs.declared.output.Output.{Output as Sent};
ghost use Rattle.xp_answer.specs.Setup.{setup_of};
ghost use Rattle.xp_subs.specs.Tables.{line_count};

use super::Plan;
use super::event_line::{EventLine, MeteredCall};
use super::received_packets::CallRequest;
use super::send::{clear_indication, send_as, send_far};
use crate::outcome::Outcome;
use crate::output::{Buffer, Output};
use crate::records::Records;
use crate::workspace::Workspace;
use std::alloc::{AllocError, Allocator};
use xp_answer::{Setup, incoming_call};
use xp_causes::Refusal;
use xp_causes::clearing_cause::NUMBER_BUSY;
use xp_causes::diagnostic::CALL_COLLISION;
use xp_charge::Record;
use xp_decide::{Verdict, decide};
use xp_machine::{Change, LogicalChannel};
use xp_packets::{End, Packet};
use xp_subs::LineNo;

/// The incoming call that a call request from its line cancels (X.25 clause 4.1.6), if there is one.
pub struct Cancelled<A: Allocator> {
    /// The line that the incoming call was put to.
    pub line: Option<LineNo>,
    pub charged: Option<Record>,
    /// What its caller is told.
    pub told: Option<Output<A>>,
}

impl<A: Allocator> Drop for Cancelled<A> {
    fn drop(self) {
        let Cancelled {
            line: _,
            charged: _,
            told: _,
        } = self;
    }
}

impl<A: Allocator> Cancelled<A> {
    /// Takes it apart.
    fn into_parts(self) -> (Option<LineNo>, Option<Record>, Option<Output<A>>)
        ensures line { result.0 ≡ self.line }
        ensures charged { result.1 ≡ self.charged }
        ensures told { result.2 ≡ self.told }
    {
        let Cancelled {
            line,
            charged,
            told,
        } = self;
        (line, charged, told)
    }

    /// Returns that no call is cancelled.
    pub fn none() -> Cancelled<A>
        ensures { (at : StepContext A) → IsCancelled result at [] [] }
    {
        Cancelled {
            line: None,
            charged: None,
            told: None,
        }
    }

    /// Returns that the call that was put to the line is cancelled.
    pub fn by(found: &EventLine<'_, A>) -> Cancelled<A>
        ensures { (before : List (Entered A)) → IsEventLine found.now before → IsCancelled result (event_line_context found.now before) (cancels found.now.line (call_on found.now.machine.now found.now.line)) (outputs_of_cancel found.now.machine.now found.now.line) }
    {
        let (cause, diagnostic) = (NUMBER_BUSY, CALL_COLLISION);
        match found.charged {
            None => Cancelled::none(),
            Some(MeteredCall { call, meter }) => Cancelled {
                line: Some(found.line),
                charged: Some(call.record(meter, found.moment, cause, diagnostic)),
                told: send_far(
                    found.machine,
                    found.line,
                    clear_indication(cause, diagnostic),
                ),
            },
        }
    }
}

/// The incoming call that is put to a line.
#[derive(Drop)]
struct Incoming<A: Allocator> {
    line: LineNo,
    setup: Setup,
    packet: Packet<A>,
}

/// Room for what a plan puts out, and for its records.
#[derive(Drop)]
struct Room<A: Allocator> {
    outputs: Buffer<A>,
    records: Records<A>,
}

/// Decides a call request. The call is put to the line that is taken, or it is refused.
pub fn request<A: Allocator + Copy>(
    found: &EventLine<'_, A>,
    request: &CallRequest<'_, A>,
    cancelled: Cancelled<A>,
    workspace: &mut Workspace<A>,
) -> Result<Plan<A>, AllocError>
    requires { found.now.line < line_count found.now.in_force.now }
    ensures { (before : List (Entered A)) (ended : List Changing) (far : List (Sent A)) → HasTables found.now before → IsCancelled cancelled (event_line_context found.now before) ended far
        → IfOk result (PlansRequest (event_line_context found.now before) (request_of request.now) ended far) }
{
    let alloc = workspace.alloc;
    let (subs, caller) = (found.in_force, found.line);
    let outputs = workspace.buffer(count(&cancelled.told) + 1)?;
    match decide(alloc, subs, found.machine, caller, request.block)? {
        Verdict::Refuse(why) => {
            let records = Records::with_room(alloc, count(&cancelled.charged) + 1)?;
            let room = Room { outputs, records };
            Ok(refused(found, request, why, cancelled, room))
        }
        Verdict::Take(ring) => {
            let records = Records::with_room(alloc, count(&cancelled.charged))?;
            let (called, calling) = (subs.address_of(ring.line), subs.address_of(caller));
            let setup = Setup::of(&ring);
            let line = ring.line;
            let packet = incoming_call(alloc, &ring, called, calling, request.d, request.block)?;
            let incoming = Incoming {
                line,
                setup,
                packet,
            };
            let room = Room { outputs, records };
            Ok(put(found, request, incoming, cancelled, room))
        }
    }
}

/// Returns 1 if there is a value, and 0 if there is none.
fn count<T>(some: &Option<T>) -> usize
    ensures { result ≡ length (option_to_list some.now) }
{
    match some {
        None => 0,
        Some(_) => 1,
    }
}

/// Plans that the call is put to a line.
#[inline(always)]
fn put<A: Allocator>(
    found: &EventLine<'_, A>,
    request: &CallRequest<'_, A>,
    incoming: Incoming<A>,
    cancelled: Cancelled<A>,
    room: Room<A>,
) -> Plan<A>
    requires empty { room.outputs.outputs ≡ [] }
    requires room { length (option_to_list cancelled.told) < room.outputs.room }
    requires none { room.records.items ≡ [] }
    requires records { length (option_to_list cancelled.charged) ≤ room.records.room }
    ensures outcome { result.outcome ≡ Outcome.Put incoming.line incoming.setup }
    ensures quiet { result.relay_update ≡ None }
    ensures planned { (before : List (Entered A)) (ended : List Changing) (far : List (Sent A)) → IsCancelled cancelled (event_line_context found.now before) ended far
        → IsPlan result (event_line_context found.now before) (outputs_of_incoming_call found.now.machine.now far incoming.line incoming.packet)
        (ended ++ Begins found.now.line request.now.identifier incoming.line request.now.block.now.called incoming.setup found.now.moment ∷ []) }
{
    let Incoming {
        line: called,
        setup,
        packet,
    } = incoming;
    let Room { outputs, records } = room;
    let begins = Change::Begin {
        caller: found.line,
        identifier: request.identifier,
        called,
        dialled: request.block.called.copy(),
        setup,
        requested: found.moment,
    };
    let identifier = LogicalChannel::INITIAL_IDENTIFIER;
    let ring = send_as(found.machine, called, identifier, packet);
    let (line, charged, told) = cancelled.into_parts();
    Plan::of(
        outputs.with_some(told).with(ring),
        records.with_some(charged),
    )
    .settling(Outcome::Put {
        line: called,
        setup,
    })
    .cancelling(line)
    .changing(begins)
}

/// Plans that the call is refused: its line is cleared at once.
fn refused<A: Allocator>(
    found: &EventLine<'_, A>,
    request: &CallRequest<'_, A>,
    why: Refusal,
    cancelled: Cancelled<A>,
    room: Room<A>,
) -> Plan<A>
    requires empty { room.outputs.outputs ≡ [] }
    requires room { length (option_to_list cancelled.told) < room.outputs.room }
    requires none { room.records.items ≡ [] }
    requires records { length (option_to_list cancelled.charged) < room.records.room }
    ensures outcome { result.outcome ≡ Outcome.Refused why }
    ensures quiet { result.relay_update ≡ None }
    ensures planned { (before : List (Entered A)) (ended : List Changing) (far : List (Sent A)) → IsCancelled cancelled (event_line_context found.now before) ended far
        → IsPlan result (event_line_context found.now before) (outputs_of_refusal found.now.machine.now far found.now.line request.now.identifier why)
        (ended ++ IsRefused found.now.line request.now.identifier request.now.block.now.called why ∷ []) }
{
    let Room { outputs, records } = room;
    let (caller, identifier) = (found.line, request.identifier);
    let indication = clear_indication(why.cause, why.diagnostic);
    let own = send_as(found.machine, caller, identifier, indication);
    let record = Record {
        number: found.machine.next(),
        caller,
        called: None,
        dialled: request.block.called.copy(),
        payer: End::Caller,
        from_caller: 0,
        from_called: 0,
        cause: why.cause,
        diagnostic: why.diagnostic,
        requested: found.moment,
        connected: None,
        ended: found.moment,
    };
    let (line, charged, told) = cancelled.into_parts();
    let records = records.with_some(charged).with(record);
    Plan::of(outputs.with(own).with_some(told), records)
        .settling(Outcome::Refused(why))
        .cancelling(line)
        .changing(Change::Refuse {
            line: caller,
            identifier,
        })
}
