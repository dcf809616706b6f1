//! What is wrong with arguments that ask for nothing, in words for a person. No contract says what is told.

use crate::names::{
    CDR, CDR_DIR, LADDER, LIVE, NAME, NO_LIVE, PCAP, RECORDS, TABLES, THREADS, TRACE, TRACE_LINES,
    TURNS, WORDS, is_true,
};
use crate::replay_order::{NamedPath, named_path};
use clap::ArgMatches;
use std::alloc::{AllocError, Global};
use xp_cdr::ExchangeName;
use xp_limits::Limits;

/// The arguments that have a value of a form of their own, and what is wanted of it.
const WANTED: [(&str, &str); 4] = [
    (RECORDS, "a number from 1 to 1000000000000 is wanted"),
    (TURNS, "a number from 1 to 1000000000000 is wanted"),
    (THREADS, "lines or a number from 1 to 4096 is wanted"),
    (NAME, "1 to 64 letters, digits, - and . are wanted"),
];

/// What is wrong with the arguments that were found of a subcommand, where they ask for nothing: a number or a name that is none, or arguments
/// that do not go together.
pub(crate) fn misfit(alloc: Global, matches: &ArgMatches<'_>) -> Result<String, AllocError> {
    for (name, wanted) in &WANTED {
        match matches.get_str(name) {
            Some(text) if !may_be(name, text) => {
                return format!(in alloc; "--{name}: {wanted}, found {text:?}");
            }
            _ => {}
        }
    }
    if let Some(reason) = unfit_arguments(matches) {
        return String::from_str(alloc, reason);
    }
    unfit_tables(alloc, matches.get_strs(TABLES).unwrap_or(&[]))
}

/// Whether the argument of this name may have this value.
fn may_be(name: &str, text: &str) -> bool {
    if name == NAME {
        ExchangeName::is_name(text)
    } else if name == THREADS {
        Limits::read(None, None, Some(text)).is_some()
    } else {
        Limits::read(Some(text), None, None).is_some()
    }
}

/// Which of these texts names no file of subscriptions, or which name is that of two.
fn unfit_tables(alloc: Global, texts: &[&str]) -> Result<String, AllocError> {
    for (place, text) in texts.iter().enumerate() {
        let Some(named) = named_path(text) else {
            return format!(in alloc; "--tables: NAME=PATH is wanted, found {text:?}");
        };
        if names_it(&texts[..place], named) {
            let name = named.name;
            return format!(in alloc; "--tables: {name:?} is the name of two files");
        }
    }
    String::from_str(alloc, "the arguments do not go together")
}

/// Whether one of these texts gives a file the same name.
fn names_it(texts: &[&str], named: NamedPath<'_>) -> bool {
    texts.iter().any(|text| match named_path(text) {
        Some(other) => other.name == named.name,
        None => false,
    })
}

/// Which arguments do not go together.
fn unfit_arguments(matches: &ArgMatches<'_>) -> Option<&'static str> {
    if matches.get_str(TRACE_LINES).is_some() && matches.get_str(TRACE).is_none() {
        return Some("--trace-lines needs --trace");
    }
    if matches.get_str(CDR).is_some() && matches.get_str(CDR_DIR).is_some() {
        return Some("--cdr and --cdr-dir do not go together");
    }
    if matches.get_str(LIVE).is_some() {
        return unfit_live(matches);
    }
    let words = is_true(matches, WORDS);
    let ladder = is_true(matches, LADDER);
    let capture = matches.get_str(PCAP).is_some();
    match (words, ladder, capture) {
        (true, true, true) => Some("--words, --ladder and --pcap do not go together"),
        (true, true, false) => Some("--words and --ladder do not go together"),
        (true, false, true) => Some("--words and --pcap do not go together"),
        (false, true, true) => Some("--ladder and --pcap do not go together"),
        _ => None,
    }
}

/// Why a file of live calls does not go together with the other arguments.
fn unfit_live(matches: &ArgMatches<'_>) -> Option<&'static str> {
    if matches.get_str(CDR).is_none() && matches.get_str(CDR_DIR).is_none() {
        Some("--live needs --cdr or --cdr-dir")
    } else if is_true(matches, NO_LIVE) {
        Some("--live and --no-live do not go together")
    } else {
        None
    }
}
