//! Which lines are traced.

ghost use Rattle.std.specs.Prelude.{◌≡◌, ◌++◌, ◌∷◌, [], ℕ, IfErr, IfOk, OnOk, Some, option_map};
ghost use Rattle.xp_subs.specs.Tables.{line_named_of};
ghost use Rattle.xp_trace.specs.Names.{AreLinesOf, IsFaultOf, is_traced};
ghost use Rattle.xp_trace.specs.steps.Naming.{IsNoLine, IsParted};
ghost use Rattle.xp_trace.specs.declared.names.NamesFault.TheVariants.{Memory as OutOfMemory};

use std::alloc::{AllocError, Global};
use thiserror::Error;
use xp_subs::{LineNo, Subs};

/// Why it is not known which lines to trace.
#[derive(Debug, Drop, Error)]
pub enum NamesFault {
    /// No line has this name.
    #[error("xp: trace-lines {0}")]
    Unknown(String),
    #[error("xp: memory")]
    Memory,
}

impl From<AllocError> for NamesFault {
    ghost from_gives = { λ _ fault. fault ≡ OutOfMemory };

    fn from(_refused: AllocError) -> NamesFault {
        NamesFault::Memory
    }
}

/// Which lines are traced.
#[derive(Drop)]
pub enum TracedLines {
    All,
    Named(Vec<LineNo>),
}

impl TracedLines {
    /// The lines with these names, between which commas stand.
    ///
    /// # Errors
    ///
    /// `Unknown` with the first name that no line has, `Memory`.
    pub fn named(alloc: Global, subs: &Subs, names: &str) -> Result<TracedLines, NamesFault>
        ensures lines { IfOk result (AreLinesOf subs.now names.now) }
        ensures unknown { IfErr result (IsFaultOf subs.now names.now) }
    {
        let mut lines = Vec::new(alloc);
        let mut rest = names;
        while let Some((name, behind)) = parted_at_comma(rest) {
            push_line(alloc, subs, name, &mut lines)?;
            rest = behind;
        }
        push_line(alloc, subs, rest, &mut lines)?;
        Ok(TracedLines::Named(lines))
    }

    /// Whether a line is traced.
    pub fn includes(&self, line: LineNo) -> bool
        ensures { result ≡ is_traced self.now line }
    {
        match self {
            TracedLines::All => true,
            TracedLines::Named(lines) => lines.contains(&line),
        }
    }
}

/// Adds the line of a name.
fn push_line(
    alloc: Global,
    subs: &Subs,
    name: &str,
    lines: &mut Vec<LineNo>,
) -> Result<(), NamesFault>
    ensures line { OnOk result ((line : ℕ) × (line_named_of subs.now name.now ≡ Some line) × (lines.new.items ≡ lines.old.items ++ line ∷ [])) }
    ensures unknown { IfErr result (IsNoLine subs.now name.now) }
{
    match subs.line_named(name) {
        Some(line) => {
            lines.reserve(1)?;
            lines.push_reserved(line);
            Ok(())
        }
        None => Err(NamesFault::Unknown(String::from_str(alloc, name)?)),
    }
}

/// The texts before and behind the first comma.
fn parted_at_comma(text: &str) -> Option<(&str, &str)>
    ensures { IsParted text.now (option_map (λ parts. (parts.0.now, parts.1.now)) result) }
{
    text.split_once(',')
}
