//! Plays the lines of a script.

ghost use Rattle.std.specs.Prelude.{◌≡◌, ℕ, List, [], ◌∷◌, IfErr, IfOk, OnErr, length};
ghost use Rattle.std.specs.Prelude.{◌<◌};
ghost use Rattle.std.specs.Io.KnownBytes.{Appends};
ghost use Rattle.xp_reload.specs.Frame.{IsSameFrame};
ghost use Rattle.xp_exchange.specs.FrameEvents.{Fits};
ghost use Rattle.xp_exchange.specs.Play.{ComesIntoForce, Enters, LineRead, MayCome, RefusesEvent, RefusesLine, force_in};
ghost use Rattle.xp_exchange.specs.steps.Playing.{Played};
ghost use Rattle.xp_script.specs.Lines.{HasLines};
ghost use Rattle.xp_script.specs.NamedText.{name_at};
ghost use Rattle.xp_subs.specs.Tables.{line_count};

use crate::acting::{act_on_all, enter};
use crate::fault::ReplayFault;
use crate::line_reader::{LineReader, ScriptLine};
use crate::next_tables::NextTables;
use crate::reloading::{bring, bring_next, in_force, prepare, read_next};
use crate::streams::Streams;
use std::alloc::{Allocator, Global};
use std::collections::VecDeque;
use std::io::Write;
use std::marker::Model;
use xp_core::Core;
use xp_script::NamedTables;
use xp_step::{Entry, Event};
use xp_subs::Subs;

/// An exchange to which the lines of a script are played.
#[derive(Drop)]
pub struct ScriptPlayer<'s, 'n, A: Allocator = Global> {
    core: Core<A>,
    reader: LineReader<A>,
    /// The subscriptions that lines may bring into force.
    named: &'s [NamedTables<'n>],
    /// The events of a line. This queue and the text are kept for their memory alone: no line uses what the line before left
    /// in them.
    events: VecDeque<Event<A>, A>,
    /// The text of an entry.
    text: Vec<u8, A>,
    /// The subscriptions that the line asks for which is played, until they come into force.
    next: Option<NextTables>,
}

impl<'s, 'n, A: Allocator> Model for ScriptPlayer<'s, 'n, A> {
    ghost use Rattle.std.specs.Prelude.{◌≡◌, length};
    ghost use Rattle.xp_exchange.specs.Play.{PlayState};
    ghost use Rattle.xp_subs.specs.Tables.{line_count};

    ghost Value = { PlayState A };

    ghost view = { λ p. record { exchange = p.core; unfinished = p.reader.streams; moment = p.reader.moment; named = p.named.now } };

    ghost invariant = { λ p. length p.reader.streams ≡ line_count p.core.subs };
}

impl<'s, 'n, A: Allocator + Copy> ScriptPlayer<'s, 'n, A> {
    ghost use Rattle.xp_exchange.specs.Play.{start};

    /// Begins to play a script to an exchange. Its lines may bring these subscriptions into force. Returns the exchange if
    /// there is no memory.
    pub fn new(
        alloc: A,
        core: Core<A>,
        named: &'s [NamedTables<'n>],
    ) -> Result<ScriptPlayer<'s, 'n, A>, Core<A>>
        ensures ok { IfOk result (λ playing. playing ≡ start core named.now) }
        ensures err { IfErr result (λ back. back ≡ core) }
    {
        match Streams::new(alloc, core.subs().counts().lines) {
            Ok(streams) => Ok(ScriptPlayer {
                core,
                reader: LineReader::new(alloc, streams),
                named,
                events: VecDeque::new(alloc),
                text: Vec::new(alloc),
                next: None,
            }),
            Err(_) => Err(core),
        }
    }

    /// The subscriptions in force. They have the frame of those with which the exchange was opened.
    pub fn in_force(&self) -> &Subs
        ensures force { result.now ≡ force_in self.now.exchange }
        ensures frame { IsSameFrame self.now.exchange.subs result.now }
    {
        in_force(&self.core)
    }

    /// The moment of the events that follow, in seconds.
    pub fn moment(&self) -> u64
        ensures { result ≡ self.now.moment }
    {
        self.reader.moment
    }

    /// The name of the subscriptions with this number, among those that lines may bring into force.
    pub fn name_of_tables(&self, number: usize) -> &str
        requires { number < length self.now.named }
        ensures { result.now ≡ name_at self.now.named number }
    {
        name_in(self.named, number)
    }

    /// Returns the exchange.
    pub fn into_core(self) -> Core<A>
        ensures { result ≡ self.entry.exchange }
    {
        self.core
    }

    /// Reads the line of this number, and fills the queue with its events. The exchange acts on none of them yet; it is to
    /// act on all before the next line is read. What the queue held is lost. Where the line brings subscriptions into force,
    /// they are returned: they are to come into force behind the events, by which the lines that go are given up.
    ///
    /// # Errors
    ///
    /// `Script`, with the number, if it is not a line of a script; `Lay` or `Reload`, with it, if the subscriptions that it
    /// brings cannot come into force; `Journal` if too few places of the history are left for that; `Memory` if no memory
    /// was left. The exchange is as it was.
    pub fn read_line(
        &mut self,
        number: u64,
        line: &[u8],
        events: &mut VecDeque<Event<A>, A>,
    ) -> Result<Option<NextTables>, ReplayFault>
        ensures read { IfOk result (LineRead self.old line.now events.new.items self.new) }
        ensures refused { IfErr result (RefusesLine self.old number line.now) }
        ensures same { self.new.exchange ≡ self.old.exchange }
    {
        let ScriptPlayer {
            core,
            reader,
            named,
            ..
        } = self;
        let asked = reader.read(core, named, ScriptLine { number, text: line }, events)?;
        let Some(asked) = asked else {
            return Ok(None);
        };
        let next = read_next(core, named, asked, reader.moment, events)?;
        Ok(Some(next))
    }

    /// Brings subscriptions into force, once the lines that go are given up.
    pub fn bring(&mut self, next: NextTables)
        requires { MayCome self.old.exchange next.subs }
        ensures brought { ComesIntoForce self.old.exchange next.subs self.old.moment self.new.exchange }
        ensures kept { self.new ≡ record self.old { exchange = self.new.exchange } }
    {
        bring(&mut self.core, next.subs, self.reader.moment);
    }

    /// Acts on an event, and returns its entry.
    ///
    /// # Errors
    ///
    /// `Journal` if fewer than four places of the history are left, else `Memory` if no memory was left. Nothing has
    /// changed.
    pub fn act_on(&mut self, event: Event<A>) -> Result<Entry<A>, ReplayFault>
        requires { Fits self.old.exchange.subs event }
        ensures ok { IfOk result (Enters self.old.exchange event self.new.exchange) }
        ensures lines { IfOk result (HasLines (line_count self.old.exchange.subs)) }
        ensures plain { IfOk result (λ entry. entry.tables.items ≡ []) }
        ensures refused { IfErr result (RefusesEvent self.old.exchange) }
        ensures same { OnErr result (self.new ≡ self.old) }
        ensures kept { self.new ≡ record self.old { exchange = self.new.exchange } }
    {
        enter(&mut self.core, event)
    }

    /// Plays the line of this number, and writes the text of what the exchange sends and records.
    pub(crate) fn play<W: Write>(
        &mut self,
        number: u64,
        line: &[u8],
        writer: &mut W,
    ) -> Result<(), ReplayFault>
        ensures { (text : List ℕ) × Appends (W.contents writer.old) (W.contents writer.new) text × Played self.old number line.now result self.new text }
    {
        let ScriptPlayer {
            core,
            reader,
            named,
            events,
            text,
            next,
        } = self;
        let asked = reader.read(core, named, ScriptLine { number, text: line }, events)?;
        prepare(core, named, asked, reader.moment, events, next)?;
        act_on_all(core, events, &mut reader.octets, text, writer)?;
        let Some(_) = asked else {
            return Ok(());
        };
        bring_next(core, next, reader.moment);
        Ok(())
    }
}

/// The name of the subscriptions with this number.
fn name_in<'a>(named: &'a [NamedTables<'_>], number: usize) -> &'a str
    requires { number < length named.now }
    ensures { result.now ≡ name_at named.now number }
{
    named[number].name()
}
