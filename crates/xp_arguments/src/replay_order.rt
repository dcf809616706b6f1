//! How a script is to be replayed.

ghost use Rattle.std.specs.Prelude.{◌≡◌, IfNone, IfOk, IfSome, List, map, option_map};
ghost use Rattle.std.specs.List.{list_any};
ghost use Rattle.clap.specs.Words.{found_of, rows_of};
ghost use Rattle.xp_arguments.specs.Commands.{HasReplayForm, HasTables, IsOneForm, IsReplay};
ghost use Rattle.xp_arguments.specs.NamedPaths.{AreNamed, AreTables, equals_sign, has_each_name_once, if_both, named_path, parts_of};
ghost use Rattle.xp_file.specs.Routers.{parted};
ghost use Rattle.xp_subs.specs.Tables.{same};

use crate::names::{LADDER, PCAP, TABLES, WORDS, is_true};
use clap::ArgMatches;
use std::alloc::{AllocError, Global};

/// The form in which a replay is told.
#[derive(Clone, Copy)]
pub enum ReplayForm<'a> {
    /// Lines of frames in hexadecimal digits, and of charging records.
    Digits,
    /// Words for a person.
    Words,
    /// A ladder diagram.
    Ladder,
    /// A capture, in the file of this name.
    Capture(&'a str),
}

/// A file of other subscriptions, and the name by which a script puts them into force.
#[derive(Clone, Copy)]
pub struct NamedPath<'a> {
    /// At least one character, none of them `=`.
    pub name: &'a str,
    /// The name of the file, of at least one character.
    pub path: &'a str,
}

/// How a script is to be replayed.
#[derive(Drop)]
pub struct ReplayOrder<'a> {
    pub form: ReplayForm<'a>,
    /// The files of subscriptions that the script may put into force, in the order of the arguments. No two have the same name.
    pub tables: Vec<NamedPath<'a>>,
}

/// How the arguments ask a script to be replayed. `None` where they ask for several forms, or where a file of subscriptions has no
/// name of its own.
///
/// # Errors
///
/// An allocation failed.
pub(crate) fn replay_of<'a>(
    alloc: Global,
    matches: &ArgMatches<'a>,
) -> Result<Option<ReplayOrder<'a>>, AllocError>
    ensures found { IfOk result (λ found. IfSome found (λ order. IsReplay (rows_of (found_of matches.now)) order)) }
    ensures none { IfOk result (λ found. IfNone found ((order : ReplayOrder) → IsReplay (rows_of (found_of matches.now)) order → ⊥)) }
{
    let Some(form) = replay_form(matches) else {
        return Ok(None);
    };
    match tables_of(alloc, matches)? {
        Some(tables) => Ok(Some(ReplayOrder { form, tables })),
        None => Ok(None),
    }
}

/// The form in which the arguments ask for a replay: at most one of three.
fn replay_form<'a>(matches: &ArgMatches<'a>) -> Option<ReplayForm<'a>>
    ensures found { IfSome result (λ form. HasReplayForm (rows_of (found_of matches.now)) form) }
    ensures none { IfNone result ((form : ReplayForm) → HasReplayForm (rows_of (found_of matches.now)) form → ⊥) }
{
    let words = is_true(matches, WORDS);
    let ladder = is_true(matches, LADDER);
    let capture = matches.get_str(PCAP);
    one_form(words, ladder, capture)
}

/// The one form that is asked for. `None` where several are.
fn one_form<'a>(words: bool, ladder: bool, capture: Option<&'a str>) -> Option<ReplayForm<'a>>
    ensures found { IfSome result (IsOneForm words ladder (option_map (λ path. path.now) capture.entry)) }
    ensures none { IfNone result ((form : ReplayForm) → IsOneForm words ladder (option_map (λ path. path.now) capture.entry) form → ⊥) }
{
    match (words, ladder, capture) {
        (false, false, None) => Some(ReplayForm::Digits),
        (true, false, None) => Some(ReplayForm::Words),
        (false, true, None) => Some(ReplayForm::Ladder),
        (false, false, Some(path)) => Some(ReplayForm::Capture(path)),
        _ => None,
    }
}

/// The files of subscriptions that the arguments name. `None` where one of them has no name of its own.
fn tables_of<'a>(
    alloc: Global,
    matches: &ArgMatches<'a>,
) -> Result<Option<Vec<NamedPath<'a>>>, AllocError>
    ensures found { IfOk result (λ found. IfSome found (λ tables. HasTables (rows_of (found_of matches.now)) tables.items)) }
    ensures none { IfOk result (λ found. IfNone found ((tables : List NamedPath) → HasTables (rows_of (found_of matches.now)) tables → ⊥)) }
{
    match matches.get_strs(TABLES) {
        Some(texts) => named_paths(alloc, texts),
        None => Ok(Some(Vec::new(alloc))),
    }
}

/// The files that these texts name. `None` where one of the texts names none, or two have the same name.
fn named_paths<'a>(
    alloc: Global,
    texts: &[&'a str],
) -> Result<Option<Vec<NamedPath<'a>>>, AllocError>
    ensures found { IfOk result (λ found. IfSome found (λ tables. AreTables (map (λ text. text.now) texts.now) tables.items)) }
    ensures none { IfOk result (λ found. IfNone found ((tables : List NamedPath) → AreTables (map (λ text. text.now) texts.now) tables → ⊥)) }
{
    let Some(tables) = all_named(alloc, texts)? else {
        return Ok(None);
    };
    if names_differ(&tables) {
        Ok(Some(tables))
    } else {
        Ok(None)
    }
}

/// The files that these texts name, in order. `None` where one of the texts names none.
fn all_named<'a>(alloc: Global, texts: &[&'a str]) -> Result<Option<Vec<NamedPath<'a>>>, AllocError>
    ensures found { IfOk result (λ found. IfSome found (λ tables. AreNamed (map (λ text. text.now) texts.now) tables.items)) }
    ensures none { IfOk result (λ found. IfNone found ((tables : List NamedPath) → AreNamed (map (λ text. text.now) texts.now) tables → ⊥)) }
{
    let mut tables = Vec::new(alloc);
    for text in texts {
        match named_path(text) {
            Some(named) => tables.push(named)?,
            None => return Ok(None),
        }
    }
    Ok(Some(tables))
}

/// The file that a text `NAME=PATH` names: NAME ends before its first `=`. `None` where either is empty, or there is no `=`.
pub(crate) fn named_path(text: &str) -> Option<NamedPath<'_>>
    ensures { option_map parts_of result ≡ named_path text.now }
{
    let (name, path) = parted(text)?;
    if_both(name, path)
}

/// What stands before and behind the first `=` of a text.
fn parted(text: &str) -> Option<(&str, &str)>
    ensures { option_map (λ parts. (parts.0.now, parts.1.now)) result ≡ parted equals_sign text.now }
{
    text.split_once('=')
}

/// The file of this name and this path, where neither is empty.
fn if_both<'a>(name: &'a str, path: &'a str) -> Option<NamedPath<'a>>
    ensures { option_map parts_of result ≡ if_both (name.now, path.now) }
{
    let is_both = !name.is_empty() && !path.is_empty();
    is_both.then_some(NamedPath { name, path })
}

/// Whether no two of them have the same name. There are few, so comparing all pairs is fast enough.
fn names_differ(tables: &[NamedPath<'_>]) -> bool
    ensures { result ≡ has_each_name_once tables.now }
{
    for (place, named) in tables.iter().enumerate() {
        if has_name(&tables[place + 1..], named.name) {
            return false;
        }
    }
    true
}

/// Whether one of them has this name.
fn has_name(tables: &[NamedPath<'_>], name: &str) -> bool
    ensures { result ≡ list_any (λ named. same named.name.now name.now) tables.now }
{
    tables.iter().any(|named| named.name == name)
}
