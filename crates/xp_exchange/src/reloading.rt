//! Brings other subscriptions into force.

ghost use Rattle.std.specs.Prelude.{◌≡◌, ◌<◌, All, IfErr, IfOk, IfSome, OnOk, Some, length};
ghost use Rattle.xp_core.specs.Reload.{MayReplaceIn};
ghost use Rattle.xp_exchange.specs.FrameEvents.{Fits};
ghost use Rattle.xp_exchange.specs.Play.{ComesIntoForce, MayCome, force_in, stalls_at};
ghost use Rattle.xp_exchange.specs.declared.next_tables.NextTables.{NextTables};
ghost use Rattle.xp_exchange.specs.steps.Acting.{IsNext, IsPrepared, RefusesAsked, RefusesReload};
ghost use Rattle.xp_reload.specs.Frame.{IsSameFrame};
ghost use Rattle.xp_script.specs.NamedText.{LaysOver, text_at};

use crate::acting::PLACES;
use crate::fault::ReplayFault;
use crate::next_tables::{AskedTables, NextTables};
use std::alloc::{AllocError, Allocator};
use std::collections::VecDeque;
use xp_core::Core;
use xp_script::NamedTables;
use xp_step::{Event, What};
use xp_subs::{LayFault, LineNo, Subs};

/// Reads the subscriptions that a line asks for. Fills the queue with the stalls by which the lines that go are given up at this moment.
pub fn read_next<A: Allocator + Copy>(
    core: &Core<A>,
    named: &[NamedTables<'_>],
    asked: AskedTables,
    moment: u64,
    events: &mut VecDeque<Event<A>, A>,
) -> Result<NextTables, ReplayFault>
    requires { asked.tables < length named.now }
    ensures ok { IfOk result (IsNext core.now named.now asked.tables moment events.new.items) }
    ensures fit { OnOk result (All (Fits core.now.subs) events.new.items) }
    ensures refused { IfErr result (RefusesReload core.now named.now asked.tables asked.line) }
{
    let entries = core.count();
    let subs = lay(core, named, asked.tables, asked.line)?;
    let going = core.going(&subs)?;
    if entries + going.len() as u64 + PLACES > core.subs().journal() {
        return Err(ReplayFault::Journal);
    }
    put_stalls(&going, moment, events)?;
    Ok(NextTables {
        number: asked.tables,
        subs,
    })
}

/// Reads the subscriptions that a line asks for, if it does, as `read_next` does, and puts them there.
#[inline(always)]
pub fn prepare<A: Allocator + Copy>(
    core: &Core<A>,
    named: &[NamedTables<'_>],
    asked: Option<AskedTables>,
    moment: u64,
    events: &mut VecDeque<Event<A>, A>,
    next: &mut Option<NextTables>,
) -> Result<(), ReplayFault>
    requires { IfSome asked (λ asked. asked.tables < length named.now) }
    ensures ok { OnOk result (IsPrepared core.now named.now asked moment events.old.items events.new.items next.new) }
    ensures refused { IfErr result (RefusesAsked core.now named.now asked) }
{
    match asked {
        None => Ok(()),
        Some(asked) => keep_next(core, named, asked, moment, events, next),
    }
}

/// Reads the subscriptions that a line asks for, and puts them there. It stands apart, so that no other line pays for the room of
/// subscriptions.
#[cold]
#[inline(never)]
fn keep_next<A: Allocator + Copy>(
    core: &Core<A>,
    named: &[NamedTables<'_>],
    asked: AskedTables,
    moment: u64,
    events: &mut VecDeque<Event<A>, A>,
    next: &mut Option<NextTables>,
) -> Result<(), ReplayFault>
    requires { asked.tables < length named.now }
    ensures ok { OnOk result (IsPrepared core.now named.now (Some asked) moment events.old.items events.new.items next.new) }
    ensures refused { IfErr result (RefusesReload core.now named.now asked.tables asked.line) }
{
    let read = read_next(core, named, asked, moment, events)?;
    *next = Some(read);
    Ok(())
}

/// Brings the subscriptions that stand there into force at this moment.
#[cold]
#[inline(never)]
pub fn bring_next<A: Allocator + Copy>(
    core: &mut Core<A>,
    next: &mut Option<NextTables>,
    moment: u64,
)
    requires { (one : NextTables) × (next.old ≡ Some one) × MayCome core.old one.subs }
    ensures brought { (one : NextTables) → next.old ≡ Some one → ComesIntoForce core.old one.subs moment core.new }
    ensures subs { core.new.subs ≡ core.old.subs }
{
    if let Some(one) = next.take() {
        bring(core, one.subs, moment);
    }
}

/// The subscriptions of this number with their lines at the places of the exchange, if they may come into force once the lines that
/// go are given up.
fn lay<A: Allocator + Copy>(
    core: &Core<A>,
    named: &[NamedTables<'_>],
    tables: usize,
    number: u64,
) -> Result<Subs, ReplayFault>
    requires { tables < length named.now }
    ensures over { IfOk result (LaysOver (text_at named.now tables) (force_in core.now)) }
    ensures may { IfOk result (MayReplaceIn core.now) }
    ensures refused { IfErr result (RefusesReload core.now named.now tables number) }
{
    match named[tables].laid_over(core.in_force()) {
        Ok(next) => match core.may_reload(&next) {
            Ok(()) => Ok(next),
            Err(fault) => Err(ReplayFault::Reload(number, tables, fault)),
        },
        Err(LayFault::Memory) => Err(ReplayFault::Memory),
        Err(LayFault::Modulus(_)) => Err(ReplayFault::Lay(number, tables)),
        Err(LayFault::Place(_)) => Err(ReplayFault::Lay(number, tables)),
    }
}

/// Fills the queue with a stall of each of these lines at this moment.
fn put_stalls<A: Allocator>(
    lines: &[LineNo],
    moment: u64,
    events: &mut VecDeque<Event<A>, A>,
) -> Result<(), AllocError>
    ensures { OnOk result (events.new.items ≡ stalls_at moment lines.now) }
{
    events.clear();
    for line in lines {
        let what = What::Stall;
        events.push_back(Event {
            line: *line,
            moment,
            what,
        })?;
    }
    Ok(())
}

/// Brings subscriptions into force at this moment.
pub fn bring<A: Allocator + Copy>(core: &mut Core<A>, next: Subs, moment: u64)
    requires { MayCome core.old next }
    ensures { ComesIntoForce core.old next moment core.new }
{
    match core.reload(next, moment) {
        Ok(entry) => drop(entry),
        Err(_) => {}
    }
}

/// The subscriptions in force. They have the frame of those with which the exchange was opened.
pub fn in_force<A: Allocator>(core: &Core<A>) -> &Subs
    ensures force { result.now ≡ force_in core.now }
    ensures frame { IsSameFrame core.now.subs result.now }
{
    // The history says so.
    let _ = core.count();
    core.in_force()
}
