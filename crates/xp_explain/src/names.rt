//! Lines by their names, as an operator writes them.

ghost use Rattle.std.specs.Prelude.{◌≡◌, ◌++◌, ◌∷◌, [], ℕ, IfErr, IfOk, OnOk, Some, map};
ghost use Rattle.std.specs.Str.{trim};
ghost use Rattle.xp_explain.specs.Names.{AreLines, IsFaultOf, names_in};
ghost use Rattle.xp_explain.specs.steps.Names.{IsNoLine};
ghost use Rattle.xp_explain.specs.declared.names.NamesFault.TheVariants.{Memory as OutOfMemory};
ghost use Rattle.xp_subs.specs.Tables.{line_named_of};

use std::alloc::{AllocError, Global};
use xp_subs::{LineNo, Subs};

/// Why it is not known which lines a text names.
#[derive(Clone, Copy, Drop)]
pub enum NamesFault<'a> {
    /// No line has this name.
    Unknown(&'a str),
    Memory,
}

impl From<AllocError> for NamesFault<'_> {
    ghost from_gives = { λ _ fault. fault ≡ OutOfMemory };

    fn from(_refused: AllocError) -> Self {
        NamesFault::Memory
    }
}

/// The lines that a text names, in order. The names have commas between them, and may have white space around them. A text of white
/// space alone names none.
///
/// # Errors
///
/// `Unknown` with the first name that no line has, `Memory`.
pub fn lines_named<'a>(
    alloc: Global,
    subs: &Subs,
    text: &'a str,
) -> Result<Vec<LineNo>, NamesFault<'a>>
    ensures lines { IfOk result (λ lines. AreLines subs.now (names_in text.now) lines.items) }
    ensures fault { IfErr result (IsFaultOf subs.now (names_in text.now)) }
{
    let names = names_in(alloc, text)?;
    lines_of(alloc, subs, names.as_slice())
}

/// What stands between the commas of a text; nothing where it is white space alone.
fn names_in<'a>(alloc: Global, text: &'a str) -> Result<Vec<&'a str>, AllocError>
    ensures { IfOk result (λ names. map (λ name. trim name.now) names.items ≡ names_in text.now) }
{
    if text.trim().is_empty() {
        return Ok(Vec::new(alloc));
    }
    text.split(',').collect(alloc)
}

/// The lines of these names, which may have white space around them.
fn lines_of<'a>(
    alloc: Global,
    subs: &Subs,
    names: &[&'a str],
) -> Result<Vec<LineNo>, NamesFault<'a>>
    ensures lines { IfOk result (λ lines. AreLines subs.now (map (λ name. trim name.now) names.now) lines.items) }
    ensures fault { IfErr result (IsFaultOf subs.now (map (λ name. trim name.now) names.now)) }
{
    let mut lines = Vec::new(alloc);
    for name in names {
        push_line(subs, name.trim(), &mut lines)?;
    }
    Ok(lines)
}

/// Adds the line of a name.
fn push_line<'a>(subs: &Subs, name: &'a str, lines: &mut Vec<LineNo>) -> Result<(), NamesFault<'a>>
    ensures line { OnOk result ((line : ℕ) × (line_named_of subs.now name.now ≡ Some line) × (lines.new.items ≡ lines.old.items ++ line ∷ [])) }
    ensures fault { IfErr result (IsNoLine subs.now name.now) }
{
    match subs.line_named(name) {
        Some(line) => {
            lines.reserve(1)?;
            lines.push_reserved(line);
            Ok(())
        }
        None => Err(NamesFault::Unknown(name)),
    }
}
