//! Entries of the history as rows of a ladder diagram.

ghost use Rattle.std.specs.Prelude.{◌≡◌, ◌++◌, IfOk, OnOk, option_map, replicate, Some, string_bytes};
ghost use Rattle.xp_subs.specs.Tables.{line_count};
ghost use Rattle.xp_transcript.specs.Changed.{gone_lines, new_lines};
ghost use Rattle.xp_transcript.specs.Places.{alone, pair_of, renewed_pair};
ghost use Rattle.xp_transcript.specs.Rows.{after_entry, after_message, after_outputs, entry_rows, heading_rows, message_rows, name_at, named_heading, output_rows, reload_row, renewed_ladder};

use crate::changed::Change;
use crate::names::name_of;
use crate::place::Pair;
use crate::places::Places;
use crate::reload::{Reload, reload_row};
use crate::short_words::{few_put_words, few_words};
use std::alloc::{AllocError, Global};
use xp_ladder::{Heading, Rung};
use xp_step::{Entry, Output};
use xp_subs::{LineNo, Subs};
use xp_words::Direction;

/// A ladder diagram so far.
#[derive(Drop)]
pub(crate) struct Ladder {
    pub(crate) places: Places,
    /// The lines that the last heading names.
    pub(crate) headed: Option<Pair>,
}

/// A message of a line, or to it.
#[derive(Clone, Copy)]
struct Message {
    moment: u64,
    line: LineNo,
    direction: Direction,
}

impl Ladder {
    /// The diagram of so many lines, before its first row.
    pub(crate) fn new(alloc: Global, lines: usize) -> Result<Ladder, AllocError>
        ensures { IfOk result (λ ladder. ladder ≡ record { places = replicate lines alone; headed = None }) }
    {
        Ok(Ladder {
            places: Places::new(alloc, lines)?,
            headed: None,
        })
    }

    /// Adds the rows of an entry that brings no subscriptions: its event, then the packets that it puts out.
    pub(crate) fn push_entry(
        &mut self,
        alloc: Global,
        subs: &Subs,
        entry: &Entry,
        text: &mut Vec<u8>,
    ) -> Result<(), AllocError>
        ensures rows { OnOk result (text.new.items ≡ text.old.items ++ entry_rows subs.now self.old entry.now) }
        ensures after { OnOk result (self.new ≡ after_entry self.old entry.now) }
    {
        self.places.place(entry);
        let moment = entry.event.moment;
        let message = Message {
            moment,
            line: entry.event.line,
            direction: Direction::FromDte,
        };
        let words = few_words(alloc, &entry.event.what)?;
        self.push_message(alloc, subs, message, words, text)?;
        self.push_outputs(alloc, subs, moment, entry.outputs.as_slice(), text)
    }

    /// Adds the row of a reload. Then no line stands where another one stood.
    pub(crate) fn push_reload(
        &mut self,
        alloc: Global,
        reload: Reload<'_>,
        text: &mut Vec<u8>,
    ) -> Result<(), AllocError>
        requires { line_count reload.next.now ≡ line_count reload.old.now }
        ensures row { OnOk result (text.new.items ≡ text.old.items ++ reload_row reload.entry.moment reload.entry.name.now (new_lines reload.entry.old.now reload.entry.next.now) (gone_lines reload.entry.old.now reload.entry.next.now)) }
        ensures after { OnOk result (self.new ≡ renewed_ladder reload.entry.old.now reload.entry.next.now self.old) }
    {
        let Reload {
            moment,
            name,
            old,
            next,
        } = reload;
        let row = reload_row(alloc, moment, name, Change::between(old, next))?;
        text.extend_from_slice(row.as_bytes())?;
        self.places.renew(old, next);
        self.headed = renewed_heading(old, next, self.headed);
        Ok(())
    }

    /// Adds the rows of what is put out at this moment.
    fn push_outputs(
        &mut self,
        alloc: Global,
        subs: &Subs,
        moment: u64,
        outputs: &[Output],
        text: &mut Vec<u8>,
    ) -> Result<(), AllocError>
        ensures rows { OnOk result (text.new.items ≡ text.old.items ++ output_rows subs.now moment self.old outputs.now) }
        ensures after { OnOk result (self.new ≡ after_outputs self.old outputs.now) }
    {
        for output in outputs {
            let message = Message {
                moment,
                line: output.line,
                direction: Direction::FromDce,
            };
            let words = few_put_words(alloc, &output.outgoing.put)?;
            self.push_message(alloc, subs, message, words, text)?;
        }
        Ok(())
    }

    /// Adds the row of a message, if it has words, below a heading where the last one names other lines.
    fn push_message(
        &mut self,
        alloc: Global,
        subs: &Subs,
        message: Message,
        words: Option<String>,
        text: &mut Vec<u8>,
    ) -> Result<(), AllocError>
        ensures rows { OnOk result (text.new.items ≡ text.old.items ++ message_rows subs.now message.moment self.old message.line message.direction (option_map string_bytes words)) }
        ensures after { OnOk result (self.new ≡ after_message self.old message.line (option_map string_bytes words)) }
    {
        let Some(words) = words else {
            return Ok(());
        };
        let place = self.places.of(message.line);
        let pair = place.pair(message.line);
        push_heading(alloc, subs, self.headed, pair, text)?;
        self.headed = Some(pair);
        let rung = Rung {
            moment: message.moment,
            side: place.side,
            direction: message.direction,
            words: words.as_str(),
        };
        let row = rung.text(alloc)?;
        text.extend_from_slice(row.as_bytes())?;
        text.push(b'\n')?;
        Ok(())
    }
}

/// The lines of a heading that stay.
fn renewed_heading(old: &Subs, next: &Subs, headed: Option<Pair>) -> Option<Pair>
    ensures { result ≡ option_map (renewed_pair old.now next.now) headed }
{
    match headed {
        Some(pair) => Some(pair.renewed(old, next)),
        None => None,
    }
}

/// Adds a heading with these lines, where the last one names others. An empty row parts it from the rows before.
fn push_heading(
    alloc: Global,
    subs: &Subs,
    last: Option<Pair>,
    pair: Pair,
    text: &mut Vec<u8>,
) -> Result<(), AllocError>
    ensures { OnOk result (text.new.items ≡ text.old.items ++ heading_rows subs.now last pair) }
{
    if let Some(last) = last {
        if last.is(pair) {
            return Ok(());
        }
        text.push(b'\n')?;
    }
    let row = named_heading(alloc, subs, pair)?;
    text.extend_from_slice(row.as_bytes())
}

/// The heading with these lines.
fn named_heading(alloc: Global, subs: &Subs, pair: Pair) -> Result<String, AllocError>
    ensures { IfOk result (λ row. string_bytes row ≡ named_heading subs.now pair) }
{
    let heading = Heading {
        left: name_at(subs, pair.left),
        right: name_at(subs, pair.right),
    };
    let mut row = heading.text(alloc)?;
    row.push_str("\n")?;
    Ok(row)
}

/// The name of a line, if there is one.
fn name_at(subs: &Subs, line: Option<LineNo>) -> &str
    ensures { result.now ≡ name_at subs.now line }
{
    match line {
        Some(line) => name_of(subs, line),
        None => "",
    }
}
