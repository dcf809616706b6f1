//! The lines of a script, played and told one after the other.

ghost use Rattle.std.specs.Prelude.{◌≡◌, ◌<◌, ℕ, List, [], ◌∷◌, All, length};
ghost use Rattle.std.specs.Io.KnownBytes.{Appends};
ghost use Rattle.xp_exchange.specs.FrameEvents.{Fits};
ghost use Rattle.xp_exchange.specs.Play.{MayCome};
ghost use Rattle.xp_script.specs.NamedText.{name_at};
ghost use Rattle.xp_subs.specs.Tables.{line_count};
ghost use Rattle.xp_transcript.specs.Telling.{TellsScript};
ghost use Rattle.xp_transcript.specs.steps.Telling.{IsFor, TellsEvents, TellsLine, TellsNext};

use crate::lines::cut_line;
use crate::reload::Reload;
use crate::teller::Teller;
use std::alloc::Global;
use std::collections::VecDeque;
use std::io::Write;
use std::marker::Model;
use std::mem;
use xp_exchange::{NextTables, ReplayFault, ScriptPlayer, write_out};
use xp_step::Event;

/// An exchange to which the lines of a script are played, and the telling of what comes of them.
#[derive(Drop)]
pub(crate) struct Transcript<'s, 'n> {
    alloc: Global,
    player: ScriptPlayer<'s, 'n>,
    teller: Teller,
    /// The events of a line.
    events: VecDeque<Event>,
    /// What is told of an entry. It is kept for its memory alone.
    text: Vec<u8>,
}

impl<'s, 'n> Model for Transcript<'s, 'n> {
    ghost use Rattle.std.specs.declared.alloc.Global.{Global as Alloc};
    ghost use Rattle.xp_subs.specs.Tables.{line_count};
    ghost use Rattle.xp_transcript.specs.Telling.{TellState};
    ghost use Rattle.xp_transcript.specs.steps.Telling.{IsFor};

    ghost Value = { TellState Alloc };

    ghost view = { λ t. record { play = t.player; teller = t.teller } };

    ghost invariant = { λ t. IsFor (line_count t.player.exchange.subs) t.teller };
}

impl<'s, 'n> Transcript<'s, 'n> {
    /// The state before the first line of a script.
    pub(crate) fn new(
        alloc: Global,
        player: ScriptPlayer<'s, 'n>,
        teller: Teller,
    ) -> Transcript<'s, 'n>
        requires { IsFor (line_count player.exchange.subs) teller }
        ensures { result ≡ record { play = player.entry; teller = teller } }
    {
        Transcript {
            alloc,
            player,
            teller,
            events: VecDeque::new(alloc),
            text: Vec::new(alloc),
        }
    }

    /// Plays the lines of a script, and tells what comes of each before the next.
    pub(crate) fn tell_script<W: Write>(
        &mut self,
        script: &[u8],
        writer: &mut W,
    ) -> Result<(), ReplayFault>
        ensures { (text : List ℕ) × Appends (W.contents writer.old) (W.contents writer.new) text × TellsScript self.old script.now result text }
    {
        let mut rest = script;
        let mut number = 1;
        while let Some((line, behind)) = cut_line(rest) {
            self.tell_line(number, line, writer)?;
            rest = behind;
            number += 1;
        }
        self.tell_line(number, rest, writer)
    }

    /// Plays the line of this number, and tells what comes of it.
    fn tell_line<W: Write>(
        &mut self,
        number: u64,
        line: &[u8],
        writer: &mut W,
    ) -> Result<(), ReplayFault>
        ensures { (text : List ℕ) × Appends (W.contents writer.old) (W.contents writer.new) text × TellsLine self.old number line.now result self.new text }
    {
        let mut events = mem::replace(&mut self.events, VecDeque::new(self.alloc));
        let next = self.player.read_line(number, line, &mut events)?;
        self.tell_events(&mut events, writer)?;
        self.events = events;
        let Some(next) = next else {
            return Ok(());
        };
        self.tell_next(next, writer)
    }

    /// Takes the events off the queue, acts on them in turn, and tells the entry of each before the next.
    fn tell_events<W: Write>(
        &mut self,
        events: &mut VecDeque<Event>,
        writer: &mut W,
    ) -> Result<(), ReplayFault>
        requires { All (Fits self.old.play.exchange.subs) events.old.items }
        ensures { (text : List ℕ) × Appends (W.contents writer.old) (W.contents writer.new) text × TellsEvents self.old events.old.items result self.new text }
    {
        while let Some(event) = events.pop_front() {
            self.tell_event(event, writer)?;
        }
        Ok(())
    }

    /// Acts on an event, and tells its entry.
    fn tell_event<W: Write>(&mut self, event: Event, writer: &mut W) -> Result<(), ReplayFault>
        requires { Fits self.old.play.exchange.subs event }
        ensures { (text : List ℕ) × Appends (W.contents writer.old) (W.contents writer.new) text × TellsEvents self.old (event ∷ []) result self.new text }
    {
        let entry = self.player.act_on(event)?;
        self.text.clear();
        let subs = self.player.in_force();
        self.teller
            .push_entry(self.alloc, subs, &entry, &mut self.text)?;
        write_out(writer, &self.text)
    }

    /// Brings subscriptions into force, and tells that.
    fn tell_next<W: Write>(&mut self, next: NextTables, writer: &mut W) -> Result<(), ReplayFault>
        requires known { next.number < length self.old.play.named }
        requires may { MayCome self.old.play.exchange next.subs }
        ensures { (text : List ℕ) × Appends (W.contents writer.old) (W.contents writer.new) text × TellsNext self.old next (name_at self.old.play.named next.number) result self.new text }
    {
        self.text.clear();
        let reload = Reload {
            moment: self.player.moment(),
            name: self.player.name_of_tables(next.number),
            old: self.player.in_force(),
            next: &next.subs,
        };
        self.teller.push_reload(self.alloc, reload, &mut self.text)?;
        self.player.bring(next);
        write_out(writer, &self.text)
    }
}
