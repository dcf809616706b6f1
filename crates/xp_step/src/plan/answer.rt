//! Plans the answer to an incoming call.

ghost use Rattle.std.specs.Prelude.{◌≡◌, ◌<◌, [], ◌∷◌, None, Some, IfOk, List};
ghost use Rattle.xp_channel.specs.declared.action.Action.TheVariants.{Answer as Answers};
ghost use Rattle.xp_step.specs.Acts.{agreement_of as agreed_by, outputs_of_answer};
ghost use Rattle.xp_step.specs.Agreed.{AllHaveTerms};
ghost use Rattle.xp_step.specs.declared.entry.Entry.{Entry as Entered};
ghost use Rattle.xp_step.specs.steps.HasTables.{HasTables};
ghost use Rattle.xp_step.specs.EventLine.{IsEventLine, IsShort, event_line_context};
ghost use Rattle.xp_machine.specs.StoredState.{call_of_stored, entry_of};
ghost use Rattle.xp_machine.specs.Changes.{Connects};
ghost use Rattle.xp_machine.specs.Coupling.{AreCoupled};
ghost use Rattle.xp_step.specs.Plan.{IsPlan, Plans};
ghost use Rattle.xp_step.specs.RelayedPackets.{relay_terms};
ghost use Rattle.xp_machine.specs.World.{call_on};
ghost use Rattle.xp_subs.specs.Tables.{line_count};

use super::Plan;
use super::clearing::{fail, nothing};
use super::event_line::EventLine;
use super::received_packets::accepted_in;
use super::send::send;
use crate::event::What;
use crate::outcome::Outcome;
use crate::output::Buffer;
use crate::records::Records;
use crate::workspace::Workspace;
use std::alloc::{AllocError, Allocator};
use xp_answer::{Answer, Connection, examine};
use xp_charge::Meter;
use xp_machine::{Agreement, Change, LiveCall, RelayUpdate};
use xp_relay::Terms;
use xp_subs::Subs;

/// Plans an answer. It connects the call, and the caller is told so (X.25 clause 4.1.5). A fault in it is a procedure
/// error.
#[inline(never)]
pub fn answer<A: Allocator + Copy>(
    found: &EventLine<'_, A>,
    what: &What<A>,
    workspace: &mut Workspace<A>,
) -> Result<Plan<A>, AllocError>
    requires line { found.now.line < line_count found.now.in_force.now }
    requires terms { AllHaveTerms found.now.subs.now found.now.machine.now }
    requires coupled { AreCoupled found.now.subs.now found.now.machine.now }
    requires short { IsShort found.now.charged }
    ensures { (before : List (Entered A)) → HasTables found.now before → IsEventLine found.now before → IfOk result (Plans (event_line_context found.now before) what.now Answers) }
{
    let alloc = workspace.alloc;
    let Some(accepted) = accepted_in(what) else {
        return nothing(alloc, found);
    };
    let Some(call) = found.machine.call_on(found.line) else {
        return Ok(Plan::none(alloc));
    };
    let address = found.in_force.address_of(found.line);
    let outputs = workspace.buffer(1)?;
    match examine(alloc, &call.setup, address, &call.dialled, &accepted)? {
        Answer::Connected(connection) => {
            let agreement = agreement_of(found.moment, &connection);
            let meter = Meter::new(found.subs.segment_limit());
            let metered = workspace
                .relays
                .opened(alloc, terms_on(found.subs, call, agreement), meter)?;
            let plan = connect(alloc, found, call, connection, outputs);
            let caller = call.caller;
            Ok(plan.carrying(RelayUpdate { caller, metered }))
        }
        Answer::Refused(diagnostic) => {
            let plan = fail(alloc, found, diagnostic)?;
            Ok(plan.settling(Outcome::Declined(diagnostic)))
        }
    }
}

/// Returns what the call is connected on, at this moment.
fn agreement_of<A: Allocator>(moment: u64, connection: &Connection<A>) -> Agreement
    ensures { result ≡ agreed_by moment connection.now }
{
    Agreement {
        terms: connection.terms,
        charging: connection.charging,
        connected: moment,
    }
}

/// Returns what was agreed for the data of a call, with the numbering of both its lines.
fn terms_on(subs: &Subs, call: &LiveCall, agreement: Agreement) -> Terms
    requires caller { call.now.caller < line_count subs.now }
    requires called { call.now.called < line_count subs.now }
    ensures { result ≡ relay_terms subs.now (call_of_stored call.now) agreement }
{
    agreement.relay_terms(subs.modulus_of(call.caller), subs.modulus_of(call.called))
}

/// Plans that the call is connected: both its lines come to data transfer.
fn connect<A: Allocator>(
    alloc: A,
    found: &EventLine<'_, A>,
    call: &LiveCall,
    connection: Connection<A>,
    outputs: Buffer<A>,
) -> Plan<A>
    requires empty { outputs.outputs ≡ [] }
    requires room { 0 < outputs.room }
    ensures outcome { result.outcome ≡ Outcome.Connected (agreed_by found.now.moment connection) }
    ensures quiet { result.relay_update ≡ None }
    ensures planned { (before : List (Entered A)) → call_on found.now.machine.now found.now.line ≡ Some (entry_of call.now)
        → IsPlan result (event_line_context found.now before) (outputs_of_answer found.now.machine.now call.now.caller connection.packet) (Connects call.now.number (call_of_stored call.now) (agreed_by found.now.moment connection) ∷ []) }
{
    let agreement = agreement_of(found.moment, &connection);
    let change = Change::Connect {
        line: found.line,
        agreement,
    };
    let outputs = outputs.with(send(found.machine, call.caller, connection.packet));
    Plan::of(outputs, Records::none(alloc))
        .settling(Outcome::Connected(agreement))
        .changing(change)
}
