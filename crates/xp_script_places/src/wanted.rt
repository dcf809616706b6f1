//! What was wanted at the faulty line of a script.

use crate::kept_script::{KeptScript, LINE_FEED};
use crate::shown::Shown;
use crate::trial::{Form, Trial};
use std::alloc::{AllocError, Global};
use std::fmt::Write;
use xp_script::{MAX_LINE_OCTETS, NamedTables};
use xp_subs::Subs;

/// What was wanted at the faulty line of this number, while these subscriptions are in force, as one line without its end:
/// `no line is named "x9"`. Lines may bring the named subscriptions into force. Where the lines were not counted, the faulty line is the
/// first of those that are kept which is no line of a script. Empty where it is not kept.
///
/// What is told is found by reading the line again with a part of it changed. No contract says what the text tells.
///
/// # Errors
///
/// An allocation failed.
pub fn wanted_in(
    alloc: Global,
    force: &Subs,
    named: &[NamedTables<'_>],
    script: KeptScript<'_>,
    number: u64,
) -> Result<String, AllocError> {
    if let Some(line) = script.line(number) {
        return wanted_at(alloc, force, named, line);
    }
    let Some(lines) = script.uncounted() else {
        return Ok(String::new(alloc));
    };
    for line in lines.split(|octet| *octet == LINE_FEED) {
        let told = wanted_at(alloc, force, named, line)?;
        if !told.is_empty() {
            return Ok(told);
        }
    }
    Ok(String::new(alloc))
}

/// What was wanted at a line while these subscriptions are in force. Empty where it is a line of a script.
fn wanted_at(
    alloc: Global,
    force: &Subs,
    named: &[NamedTables<'_>],
    line: &[u8],
) -> Result<String, AllocError> {
    let trial = Trial {
        alloc,
        subs: force,
        named,
    };
    let mut told = String::new(alloc);
    if !trial.is_line(line)? {
        push_wanted(trial, &mut told, line)?;
    }
    Ok(told)
}

/// What was wanted at a faulty line.
fn push_wanted(trial: Trial<'_, '_>, told: &mut String, line: &[u8]) -> Result<(), AllocError> {
    if line.len() > MAX_LINE_OCTETS {
        return write!(told, "the line is longer than {MAX_LINE_OCTETS} octets");
    }
    if let Some((b'\r', front)) = line.split_last() {
        if trial.is_line(front)? {
            return told.push_str(
                "a line feed alone is wanted behind the line, found a carriage return before it",
            );
        }
    }
    let words = words_of(trial.alloc, line)?;
    if trial.are_line(&words)? {
        return write!(
            told,
            "one space is wanted between the words, and none before or behind them, found {}",
            Shown(line)
        );
    }
    push_form(trial, told, line, &words)
}

/// The words of a line, whatever spaces stand around them.
fn words_of<'a>(alloc: Global, line: &'a [u8]) -> Result<Vec<&'a [u8]>, AllocError> {
    let mut words = Vec::new(alloc);
    for word in line.split(|octet| *octet == b' ') {
        if !word.is_empty() {
            words.push(word)?;
        }
    }
    Ok(words)
}

/// What was wanted at a faulty line of these words, by its first word.
fn push_form(
    trial: Trial<'_, '_>,
    told: &mut String,
    line: &[u8],
    words: &[&[u8]],
) -> Result<(), AllocError> {
    let Some((word, behind)) = words.split_first() else {
        return push_any(told, line);
    };
    let Some(form) = trial.form_of(word)? else {
        return push_any(told, line);
    };
    match (form, behind) {
        (Form::Moment, [digits]) => push_moment(told, digits),
        (Form::Line, [name]) => push_name(told, name),
        (Form::Octets, [name, digits]) => push_octets(trial, told, word, name, digits),
        (Form::Tables, [name]) => write!(told, "no tables are named {}", Shown(name)),
        _ => push_usage(told, word, form, line),
    }
}

/// Any line is wanted.
fn push_any(told: &mut String, line: &[u8]) -> Result<(), AllocError> {
    write!(
        told,
        "wanted: up LINE, down LINE, expire LINE, in LINE HEX, at N, tables NAME, or a comment (#), found {}",
        Shown(line)
    )
}

/// A line of this form is wanted.
fn push_usage(told: &mut String, word: &[u8], form: Form, line: &[u8]) -> Result<(), AllocError> {
    let behind = match form {
        Form::Moment => "N",
        Form::Line => "LINE",
        Form::Octets => "LINE HEX",
        Form::Tables => "NAME",
    };
    write!(
        told,
        "wanted: {} {behind}, found {}",
        word.escape_ascii(),
        Shown(line)
    )
}

/// The digits of a moment are wanted.
fn push_moment(told: &mut String, digits: &[u8]) -> Result<(), AllocError> {
    write!(
        told,
        "a number of 1 to 20 digits up to {} is wanted, found {}",
        u64::MAX,
        Shown(digits)
    )
}

/// The name of a line is wanted.
fn push_name(told: &mut String, name: &[u8]) -> Result<(), AllocError> {
    write!(told, "no line is named {}", Shown(name))
}

/// The name of a line is wanted, or digits behind it.
fn push_octets(
    trial: Trial<'_, '_>,
    told: &mut String,
    word: &[u8],
    name: &[u8],
    digits: &[u8],
) -> Result<(), AllocError> {
    if !trial.are_line(&[word, name, b"00"])? {
        return push_name(told, name);
    }
    for octet in digits {
        if !trial.are_line(&[word, name, &[*octet, b'0']])? {
            return write!(
                told,
                "hexadecimal digits are wanted, found {}",
                Shown(&[*octet])
            );
        }
    }
    write!(
        told,
        "an even number of hexadecimal digits is wanted, found {}",
        digits.len()
    )
}
