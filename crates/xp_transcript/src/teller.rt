//! How entries are told, one after the other.

ghost use Rattle.std.specs.Prelude.{◌≡◌, ◌<◌, ◌≤◌, ◌++◌, ℕ, IfOk, OnErr, OnOk};
ghost use Rattle.xp_capture.specs.FileHeader.{file_header};
ghost use Rattle.xp_core.specs.Lines.{HasLines};
ghost use Rattle.xp_subs.specs.Tables.{line_count};
ghost use Rattle.xp_transcript.specs.Changed.{gone_lines, new_lines};
ghost use Rattle.xp_transcript.specs.Words.{reload_words};
ghost use Rattle.xp_transcript.specs.steps.Telling.{IsFor};
ghost use Rattle.xp_transcript.specs.Transcript.{first_teller, front_of, plain_told, reload_told, teller_on, teller_renewed};

use crate::changed::Change;
use crate::entry_words::push_entry_words;
use crate::form::Form;
use crate::ladder::Ladder;
use crate::reload::{Reload, reload_words};
use crate::segments::push_entry_segments;
use std::alloc::{AllocError, Global};
use xp_capture::{Capture, write_file_header};
use xp_step::Entry;
use xp_subs::Subs;

/// How the next entry is told.
#[derive(Drop)]
pub(crate) enum Teller {
    Words,
    Ladder(Ladder),
    Capture(Capture),
}

impl Teller {
    /// How the first entry is told of an exchange of so many lines.
    #[tactic(auto, unfolding(crate::specs::Transcript::first_teller))]
    pub(crate) fn new(alloc: Global, form: Form, lines: u16) -> Result<Teller, AllocError>
        ensures first { IfOk result (λ teller. teller ≡ first_teller form lines) }
        ensures lines { IfOk result (IsFor lines) }
    {
        Ok(match form {
            Form::Words => Teller::Words,
            Form::Ladder => Teller::Ladder(Ladder::new(alloc, usize::from(lines))?),
            Form::Capture => Teller::Capture(Capture::new(alloc, lines)?),
        })
    }

    /// Adds what is told of an entry that brings no subscriptions.
    #[tactic(auto, unfolding(crate::specs::Transcript::plain_told, crate::specs::Transcript::teller_on))]
    pub(crate) fn push_entry(
        &mut self,
        alloc: Global,
        subs: &Subs,
        entry: &Entry,
        text: &mut Vec<u8>,
    ) -> Result<(), AllocError>
        requires teller { IsFor (line_count subs.now) self.old }
        requires line { entry.now.event.line < line_count subs.now }
        requires lines { HasLines (line_count subs.now) entry.now }
        ensures told { OnOk result (text.new.items ≡ text.old.items ++ plain_told subs.now self.old entry.now) }
        ensures after { OnOk result (self.new ≡ teller_on subs.now self.old entry.now) }
        ensures teller { IsFor (line_count subs.now) self.new }
    {
        match self {
            Teller::Words => push_entry_words(alloc, subs, entry, text),
            Teller::Ladder(ladder) => ladder.push_entry(alloc, subs, entry, text),
            Teller::Capture(capture) => push_entry_segments(alloc, subs, capture, entry, text),
        }
    }

    /// Adds what is told of a reload.
    #[tactic(auto, unfolding(crate::specs::Transcript::reload_told, crate::specs::Transcript::teller_renewed))]
    pub(crate) fn push_reload(
        &mut self,
        alloc: Global,
        reload: Reload<'_>,
        text: &mut Vec<u8>,
    ) -> Result<(), AllocError>
        requires { line_count reload.next.now ≡ line_count reload.old.now }
        ensures told { OnOk result (text.new.items ≡ text.old.items ++ reload_told reload.entry.moment reload.entry.name.now reload.entry.old.now reload.entry.next.now self.old) }
        ensures after { OnOk result (self.new ≡ teller_renewed reload.entry.old.now reload.entry.next.now self.old) }
        ensures teller { (count : ℕ) → IsFor count self.old → IsFor count self.new }
    {
        match self {
            Teller::Words => push_reload_words(alloc, reload, text),
            Teller::Ladder(ladder) => ladder.push_reload(alloc, reload, text),
            Teller::Capture(_) => Ok(()),
        }
    }
}

/// Adds the words of a reload.
fn push_reload_words(
    alloc: Global,
    reload: Reload<'_>,
    text: &mut Vec<u8>,
) -> Result<(), AllocError>
    requires { line_count reload.next.now ≡ line_count reload.old.now }
    ensures { OnOk result (text.new.items ≡ text.old.items ++ reload_words reload.entry.moment reload.entry.name.now (new_lines reload.entry.old.now reload.entry.next.now) (gone_lines reload.entry.old.now reload.entry.next.now)) }
{
    let Reload {
        moment,
        name,
        old,
        next,
    } = reload;
    let words = reload_words(alloc, moment, name, Change::between(old, next))?;
    text.extend_from_slice(words.as_bytes())
}

/// Adds what stands in front of all entries.
pub(crate) fn push_front(form: Form, text: &mut Vec<u8>) -> Result<(), AllocError>
    ensures front { OnOk result (text.new.items ≡ text.old.items ++ front_of form) }
{
    match form {
        Form::Words | Form::Ladder => Ok(()),
        Form::Capture => write_file_header(text),
    }
}
