//! How lines are given up, and other subscriptions come into force.

ghost use Rattle.std.specs.Prelude.{◌≡◌, ◌+◌, ◌<◌, ◌≤◌, ◌++◌, [], false, All, IfErr, IfOk, length, vec_capacity};
ghost use Rattle.xp_charge.specs.Lines.{HasLines as NamesLines};
ghost use Rattle.xp_core.specs.Records.{records_of};
ghost use Rattle.xp_step.specs.Exchange.{world_of};
ghost use Rattle.xp_step.specs.Run.{Run};
ghost use Rattle.xp_core.specs.steps.Stalls.{stall_of};
ghost use Rattle.xp_subs.specs.Tables.{line_count};
ghost use Rattle.xp_lock.specs.Histories.{AreForced};
ghost use Rattle.xp_lock.specs.Reloading.{RefusesReload, Reloads};
ghost use Rattle.xp_lock.specs.steps.GivingUp.{GivesLineUp, IsPreparedFor};
ghost use Rattle.xp_lock.specs.steps.Outboxes.{OutboxesMatch};
ghost use Rattle.xp_lock.specs.steps.Stalling.{CanEnter, with_outboxes};

use crate::entering::enter;
use crate::fault::ReloadRefusal;
use crate::outboxes::OutboxPutEnd;
use std::alloc::{AllocError, Allocator};
use std::sync::Wait;
use xp_charge::Record;
use xp_core::{Core, ReloadFault};
use xp_step::{Event, MOST_STALLS, What};
use xp_subs::{LineNo, Subs};

/// How many stalls there are at most as one line is given up: its own, and those that it forces.
const STALLS_OF_A_LINE: usize = 1 + MOST_STALLS;

/// What is made before a reload, so that nothing can fail in it.
#[derive(Drop)]
pub struct PreparedReload<A: Allocator> {
    /// The lines that must go.
    pub going: Vec<LineNo, A>,
    /// Room for the charging records that wait, and for those of the calls that end as these lines are given up.
    pub room: Vec<Record, A>,
}

/// Sees whether these subscriptions can come into force once the lines that must go are given up, and makes all that this needs.
///
/// # Errors
///
/// `Refused`: they cannot, or the history has too few places. `Memory`: an allocation failed.
pub fn prepare_reload<A: Allocator + Copy>(
    core: &mut Core<A>,
    next: &Subs,
) -> Result<PreparedReload<A>, ReloadRefusal>
    ensures ok { IfOk result (λ prepared. IsPreparedFor core.new next.now prepared) }
    ensures refused { IfErr result (RefusesReload false core.old.subs core.old.history next.now) }
    ensures rest { core.new ≡ record core.old { stalls = core.new.stalls } }
{
    let entries = core.count();
    if let Err(fault) = core.may_reload(next) {
        return Err(ReloadRefusal::Refused(fault));
    }
    let Ok(going) = core.going(next) else {
        return Err(ReloadRefusal::Memory);
    };
    let stalls = going.len().saturating_mul(STALLS_OF_A_LINE);
    if entries.saturating_add(stalls as u64) >= core.subs().journal() {
        return Err(ReloadRefusal::Refused(ReloadFault::JournalFull));
    }
    if core.reserve_stalls(stalls).is_err() {
        return Err(ReloadRefusal::Memory);
    }
    match room_for(core, stalls) {
        Ok(room) => Ok(PreparedReload { going, room }),
        Err(_) => Err(ReloadRefusal::Memory),
    }
}

/// Makes room for the charging records that wait, and for so many more.
fn room_for<A: Allocator + Copy>(core: &Core<A>, more: usize) -> Result<Vec<Record, A>, AllocError>
    ensures empty { IfOk result (λ room. room.items ≡ []) }
    ensures places { IfOk result (λ room. length core.now.waiting + more ≤ vec_capacity room) }
{
    let places = core.records().len().checked_add(more).ok_or(AllocError)?;
    Vec::with_capacity(core.allocator(), places)
}

/// Gives up the lines that must go, hands over the charging records that wait then, and puts these subscriptions into force, all at
/// this moment. Everything that it needs is there, so it allocates nothing and cannot fail.
pub fn bring_into_force<A: Allocator + Copy, R: Wait>(
    rt: &R,
    core: &mut Core<A>,
    outboxes: &mut Vec<OutboxPutEnd<A>, A>,
    prepared: PreparedReload<A>,
    next: Subs,
    moment: u64,
) -> Vec<Record, A>
    requires prepared { IsPreparedFor core.old next prepared }
    requires kept { OutboxesMatch core.old.subs core.old.history outboxes.old.items }
    ensures reloads { Reloads (with_outboxes core.old outboxes.old.items) next moment result.items (with_outboxes core.new outboxes.new.items) }
    ensures kept { OutboxesMatch core.new.subs core.new.history outboxes.new.items }
    ensures forced { AreForced core.old.subs core.old.history → AreForced core.new.subs core.new.history }
    ensures each { core.old.given ++ result.items ≡ records_of core.new.history }
    ensures lines { All (NamesLines (line_count core.old.subs)) result.items }
{
    let PreparedReload { going, room } = prepared;
    let mut taken = room;
    let _legal = core.count();
    for line in going.as_slice() {
        if !core.is_out_of_service(*line) {
            give_up(rt, core, outboxes, *line, moment);
        }
    }
    let _run = core.count();
    core.take_records_into(&mut taken);
    match core.reload(next, moment) {
        Ok(_) => {
            let _within = core.count();
            taken
        }
        Err(_) => unreachable!(),
    }
}

/// Gives up a line in service at this moment, and stalls the lines that this forces. The stalls were prepared.
fn give_up<A: Allocator + Copy, R: Wait>(
    rt: &R,
    core: &mut Core<A>,
    outboxes: &mut Vec<OutboxPutEnd<A>, A>,
    line: LineNo,
    moment: u64,
)
    requires line { line < line_count core.old.subs }
    requires can { CanEnter (with_outboxes core.old outboxes.old.items) (stall_of line moment) }
    requires prepared { 4 ≤ core.old.stalls }
    ensures done { GivesLineUp (with_outboxes core.old outboxes.old.items) (stall_of line moment) (with_outboxes core.new outboxes.new.items) }
    ensures kept { OutboxesMatch core.new.subs core.new.history outboxes.new.items }
    ensures run { Run core.old.subs core.old.history (world_of core.old) }
    ensures stalls { core.old.stalls ≤ core.new.stalls + 4 }
{
    let _legal = core.count();
    match enter(
        rt,
        core,
        outboxes,
        Event {
            line,
            moment,
            what: What::Stall,
        },
    ) {
        Ok(_) => {}
        Err(_) => unreachable!(),
    }
}
