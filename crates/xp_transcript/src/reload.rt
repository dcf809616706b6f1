//! Subscriptions that come into force, in words.

ghost use Rattle.std.specs.Prelude.{◌≡◌, IfOk, string_bytes};
ghost use Rattle.xp_transcript.specs.Rows.{reload_row};
ghost use Rattle.xp_transcript.specs.Words.{change_words, counted_lines, reload_words};

use crate::changed::Change;
use std::alloc::{AllocError, Global};
use std::fmt;
use xp_subs::Subs;

/// Subscriptions that come into force after others.
#[derive(Clone, Copy)]
pub(crate) struct Reload<'a> {
    pub(crate) moment: u64,
    /// The name of the next ones.
    pub(crate) name: &'a str,
    pub(crate) old: &'a Subs,
    pub(crate) next: &'a Subs,
}

/// A number of lines, and what they do: `2 lines new`.
#[derive(Clone, Copy)]
struct CountedLines<'a> {
    count: usize,
    what: &'a str,
}

impl fmt::Display for CountedLines<'_> {
    ghost use Rattle.std.specs.Prelude.{Some};

    ghost output = { λ words. Some (counted_lines words.count words.what.now) };

    fn fmt<W: fmt::Write>(&self, f: &mut fmt::Formatter<W>) -> fmt::Result {
        let count = self.count;
        let what = self.what;
        if count == 1 {
            write!(f, "{count} line {what}")
        } else {
            write!(f, "{count} lines {what}")
        }
    }
}

/// What comes and goes, behind a colon: `: 2 lines new, 1 line gone`.
#[derive(Clone, Copy)]
struct ChangeWords(Change);

impl fmt::Display for ChangeWords {
    ghost use Rattle.std.specs.Prelude.{Some};

    ghost output = { λ words. Some (change_words words.0.new words.0.gone) };

    fn fmt<W: fmt::Write>(&self, f: &mut fmt::Formatter<W>) -> fmt::Result {
        let Change { new, gone } = self.0;
        let new_lines = CountedLines {
            count: new,
            what: "new",
        };
        let gone_lines = CountedLines {
            count: gone,
            what: "gone",
        };
        match (new, gone) {
            (0, 0) => Ok(()),
            (0, _) => write!(f, ": {gone_lines}"),
            (_, 0) => write!(f, ": {new_lines}"),
            (_, _) => write!(f, ": {new_lines}, {gone_lines}"),
        }
    }
}

/// That subscriptions are in force, as a line of words.
#[derive(Clone, Copy)]
struct ReloadWords<'a> {
    moment: u64,
    name: &'a str,
    change: Change,
}

impl fmt::Display for ReloadWords<'_> {
    ghost use Rattle.std.specs.Prelude.{Some};

    ghost output = { λ words. Some (reload_words words.moment words.name.now words.change.new words.change.gone) };

    fn fmt<W: fmt::Write>(&self, f: &mut fmt::Formatter<W>) -> fmt::Result {
        let moment = self.moment;
        let name = self.name;
        let change = ChangeWords(self.change);
        write!(f, "{moment}  tables {name} are in force{change}\n")
    }
}

/// That subscriptions are in force, as a row of a diagram.
#[derive(Clone, Copy)]
struct ReloadRow<'a> {
    moment: u64,
    name: &'a str,
    change: Change,
}

impl fmt::Display for ReloadRow<'_> {
    ghost use Rattle.std.specs.Prelude.{Some};

    ghost output = { λ row. Some (reload_row row.moment row.name.now row.change.new row.change.gone) };

    fn fmt<W: fmt::Write>(&self, f: &mut fmt::Formatter<W>) -> fmt::Result {
        let moment = self.moment;
        let name = self.name;
        let change = ChangeWords(self.change);
        write!(f, "{moment:>10}  tables {name} are in force{change}\n")
    }
}

/// The line of words of a reload.
pub(crate) fn reload_words(
    alloc: Global,
    moment: u64,
    name: &str,
    change: Change,
) -> Result<String, AllocError>
    ensures { IfOk result (λ text. string_bytes text ≡ reload_words moment name.now change.new change.gone) }
{
    ReloadWords {
        moment,
        name,
        change,
    }
    .to_string(alloc)
}

/// The row of a reload.
pub(crate) fn reload_row(
    alloc: Global,
    moment: u64,
    name: &str,
    change: Change,
) -> Result<String, AllocError>
    ensures { IfOk result (λ text. string_bytes text ≡ reload_row moment name.now change.new change.gone) }
{
    ReloadRow {
        moment,
        name,
        change,
    }
    .to_string(alloc)
}
