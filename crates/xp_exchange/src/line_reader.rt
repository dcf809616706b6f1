//! Reads the lines of a script into events.

ghost use Rattle.std.specs.Prelude.{◌≡◌, ◌<◌, [], ◌∷◌, All, IfErr, IfOk, None, OnOk, Some, length};
ghost use Rattle.xp_step.specs.Exchange.{world_of};
ghost use Rattle.xp_exchange.specs.FrameEvents.{CanCome};
ghost use Rattle.xp_exchange.specs.Play.{Plays, RefusesLine, event_of, is_off_at, moment_after, risen};
ghost use Rattle.xp_exchange.specs.steps.Playing.{IsRead, RefusesCommand};
ghost use Rattle.xp_script.specs.Command.{HasLine, HasTables, reload_of, said};
ghost use Rattle.xp_script.specs.declared.command.Command.TheVariants.{In};
ghost use Rattle.xp_subs.specs.Tables.{line_count};

use crate::fault::ReplayFault;
use crate::frames::Arrival;
use crate::next_tables::AskedTables;
use crate::reloading::in_force;
use crate::streams::Streams;
use std::alloc::{AllocError, Allocator, Global};
use std::collections::VecDeque;
use std::mem;
use xp_core::Core;
use xp_script::{Command, InputOctets, LineFault, NamedTables};
use xp_step::{Event, What};
use xp_subs::{LineNo, Subs};

/// A line of a script, and its number.
#[derive(Clone, Copy)]
pub(crate) struct ScriptLine<'l> {
    pub(crate) number: u64,
    pub(crate) text: &'l [u8],
}

/// What the lines of a script have left so far.
#[derive(Drop)]
pub(crate) struct LineReader<A: Allocator = Global> {
    alloc: A,
    /// The octets of unfinished frames.
    pub(crate) streams: Streams<A>,
    /// The moment of the events that follow, in seconds.
    pub(crate) moment: u64,
    /// The octets that come in on a line, and later those of a frame that is sent. This vector is kept for its memory alone:
    /// no line uses what the line before left in it.
    pub(crate) octets: Vec<u8, A>,
}

impl<A: Allocator + Copy> LineReader<A> {
    /// No line was read yet. No octets came in on these streams.
    pub(crate) fn new(alloc: A, streams: Streams<A>) -> LineReader<A>
        ensures streams { result.streams ≡ streams }
        ensures moment { result.moment ≡ 0 }
    {
        LineReader {
            alloc,
            streams,
            moment: 0,
            octets: Vec::new(alloc),
        }
    }

    /// Reads a line, and fills the queue with its events. Where it asks for subscriptions, that is returned, and nothing is
    /// done yet. What the queue held is lost.
    #[inline(always)]
    pub(crate) fn read(
        &mut self,
        core: &Core<A>,
        named: &[NamedTables<'_>],
        line: ScriptLine<'_>,
        events: &mut VecDeque<Event<A>, A>,
    ) -> Result<Option<AskedTables>, ReplayFault>
        requires lines { length self.old.streams ≡ line_count core.now.subs }
        ensures read { IfOk result (IsRead (record { exchange = core.now; unfinished = self.old.streams; moment = self.old.moment; named = named.now }) line.entry.number line.entry.text.now events.new.items (record { exchange = core.now; unfinished = self.new.streams; moment = self.new.moment; named = named.now })) }
        ensures refused { IfErr result (RefusesLine (record { exchange = core.now; unfinished = self.old.streams; moment = self.old.moment; named = named.now }) line.entry.number line.entry.text.now) }
        ensures lines { length self.new.streams ≡ length self.old.streams }
    {
        let command = self.read_command(in_force(core), named, line)?;
        if let Some(tables) = command.reload() {
            return Ok(Some(AskedTables {
                line: line.number,
                tables,
            }));
        }
        let next = moment_after(self.moment, &command);
        self.read_events(core, command, events)?;
        self.moment = next;
        Ok(None)
    }

    /// Reads what a line says. The octets that come in stand in the vector that is kept.
    #[inline(always)]
    fn read_command(
        &mut self,
        subs: &Subs,
        named: &[NamedTables<'_>],
        line: ScriptLine<'_>,
    ) -> Result<Command<A>, ReplayFault>
        ensures said { IfOk result (λ command. said subs.now named.now line.entry.text.now ≡ Some command) }
        ensures line { IfOk result (HasLine (line_count subs.now)) }
        ensures tables { IfOk result (HasTables (length named.now)) }
        ensures refused { IfErr result (RefusesCommand A subs.now named.now line.entry.number line.entry.text.now) }
        ensures streams { self.new.streams ≡ self.old.streams }
        ensures moment { self.new.moment ≡ self.old.moment }
    {
        let octets = mem::replace(&mut self.octets, Vec::new(self.alloc));
        match Command::read(subs, named, line.text, octets) {
            Ok(command) => Ok(command),
            Err(LineFault::Faulty) => Err(ReplayFault::Script(line.number)),
            Err(LineFault::Memory) => Err(ReplayFault::Memory),
        }
    }

    /// Fills the queue with the events of a command, which brings no subscriptions into force, and keeps the vector of its
    /// octets.
    #[inline(always)]
    fn read_events(
        &mut self,
        core: &Core<A>,
        command: Command<A>,
        events: &mut VecDeque<Event<A>, A>,
    ) -> Result<(), AllocError>
        requires line { HasLine (line_count core.now.subs) command }
        requires brings_none { reload_of command ≡ None }
        requires lines { length self.old.streams ≡ line_count core.now.subs }
        ensures plays { OnOk result (Plays (record { exchange = core.now; unfinished = self.old.streams; moment = self.old.moment; named = [] }) command events.new.items self.new.streams None) }
        ensures fit { OnOk result (All (λ event. (event.line < line_count core.now.subs) × CanCome event.what) events.new.items) }
        ensures lines { length self.new.streams ≡ length self.old.streams }
        ensures moment { self.new.moment ≡ self.old.moment }
    {
        let moment = self.moment;
        match command {
            Command::Nothing | Command::At(_) => {
                events.clear();
                Ok(())
            }
            // Such a command has no events.
            Command::Reload(_) => Err(AllocError),
            Command::Up(line) => {
                self.rise(core, line);
                put(line, moment, What::Up, events)
            }
            Command::Down(line) => put(line, moment, What::Down, events),
            Command::Expire(line) => put(line, moment, What::Expire, events),
            Command::In(line, octets) => self.read_octets(core, line, octets, events),
        }
    }

    /// Begins the stream of a line anew, if it is out of service.
    #[inline(always)]
    fn rise(&mut self, core: &Core<A>, line: LineNo)
        requires { line < length self.old.streams }
        ensures streams { self.new.streams ≡ risen (is_off_at (world_of core.now) line) line self.old.streams }
        ensures moment { self.new.moment ≡ self.old.moment }
    {
        if is_off(core, line) {
            self.streams.begin(line);
        }
    }

    /// Fills the queue with the events of octets that come in on a line, and keeps their vector. On a line out of service they are
    /// no event.
    #[inline(always)]
    fn read_octets(
        &mut self,
        core: &Core<A>,
        line: LineNo,
        octets: InputOctets<A>,
        events: &mut VecDeque<Event<A>, A>,
    ) -> Result<(), AllocError>
        requires line { line < line_count core.now.subs }
        requires lines { length self.old.streams ≡ line_count core.now.subs }
        ensures plays { OnOk result (Plays (record { exchange = core.now; unfinished = self.old.streams; moment = self.old.moment; named = [] }) (In line octets) events.new.items self.new.streams None) }
        ensures fit { OnOk result (All (λ event. (event.line < line_count core.now.subs) × CanCome event.what) events.new.items) }
        ensures lines { length self.new.streams ≡ length self.old.streams }
        ensures moment { self.new.moment ≡ self.old.moment }
    {
        if is_off(core, line) {
            events.clear();
            return Ok(());
        }
        let arrival = Arrival {
            line,
            modulus: core.subs().modulus_of(line),
            moment: self.moment,
        };
        self.streams
            .read_events(arrival, octets.as_slice(), events)?;
        self.octets = octets.into_vec();
        Ok(())
    }
}

/// Returns the moment of the events that follow a command.
fn moment_after<A: Allocator>(before: u64, command: &Command<A>) -> u64
    ensures { result ≡ moment_after before command.now }
{
    match command {
        Command::At(moment) => *moment,
        _ => before,
    }
}

/// Returns whether a line is out of service.
fn is_off<A: Allocator>(core: &Core<A>, line: LineNo) -> bool
    ensures { result ≡ is_off_at (world_of core.now) line }
{
    core.is_out_of_service(line)
}

/// Fills the queue with one event.
fn put<A: Allocator>(
    line: LineNo,
    moment: u64,
    what: What<A>,
    events: &mut VecDeque<Event<A>, A>,
) -> Result<(), AllocError>
    ensures { OnOk result (events.new.items ≡ event_of line moment what ∷ []) }
{
    events.clear();
    events.push_back(Event { line, moment, what })?;
    Ok(())
}
