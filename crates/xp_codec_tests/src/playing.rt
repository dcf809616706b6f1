//! A call that a line of the table tells, with each of its requests for memory refused in turn.

use crate::calls::{field, frames, kept, packet, requests};
use std::alloc::{AllocError, Allocator, Global};
use std::fmt::Display;
use std::test::Fail;
use xp_packets::Modulus;
use xp_testing::{Refusing, number, setting};

/// A line of the table.
#[derive(Clone, Copy)]
struct Line<'a> {
    words: &'a str,
    /// What the call is given, and where that is in two pieces, how long the first is.
    octets: &'a [u8],
    cut: usize,
    /// What it returns, where it is to succeed.
    wanted: &'a [u8],
    /// `ok`, or the name of its fault.
    expected: &'a str,
}

/// Whether a call has come to what the line expects; an error where it has told want of memory. A call tells whether it has returned
/// what is wanted.
fn as_told<F: Display>(
    memory: Global,
    line: &Line<'_>,
    tried: &Result<bool, F>,
) -> Result<bool, AllocError> {
    match tried {
        Ok(same) => Ok(*same && line.expected == "ok"),
        Err(fault) => is_name(memory, fault, line.expected),
    }
}

/// Whether this is the name of the fault; an error where that is want of memory.
fn is_name<F: Display>(memory: Global, fault: &F, expected: &str) -> Result<bool, AllocError> {
    let name = fault.to_string(memory)?;
    match name.as_str() {
        "out of memory" => Err(AllocError),
        name => Ok(name == expected),
    }
}

/// Makes the call of a line.
fn call(memory: Global, alloc: &Refusing<Global>, line: &Line<'_>) -> Result<bool, AllocError> {
    let octets = line.octets;
    match line.words.split_once(' ').unwrap_or(("", "")).0 {
        "frames" => {
            let (first, next) = octets.split_at(line.cut.min(octets.len()));
            as_told(memory, line, &frames(alloc, first, next, line.wanted))
        }
        "packet" => as_told(memory, line, &packet(alloc, Modulus::Eight, octets)),
        "long" => as_told(memory, line, &packet(alloc, Modulus::Long, octets)),
        "field" => as_told(memory, line, &field(alloc, octets, line.wanted)),
        "kept" => as_told(memory, line, &kept(alloc, octets)),
        _ => as_told(memory, line, &requests(alloc)),
    }
}

/// Whether the call of a line comes to what is expected, and tells want of memory where its first request is refused, then in a new
/// call its second, until none is; each time the same call then comes to what is expected.
fn is_as_told(memory: Global, line: &Line<'_>) -> bool {
    let from = number(line.words, "from=", 1);
    for at in from..from.saturating_add(100) {
        let alloc = Refusing::new(memory, at);
        match call(memory, &alloc, line) {
            Ok(told) => {
                let least = number(line.words, "least=", 0);
                let most = number(line.words, "most=", u64::MAX);
                return told && alloc.is_pending() && least < at && at.saturating_sub(1) <= most;
            }
            Err(_) => {
                if !call(memory, &alloc, line).unwrap_or(false) {
                    return false;
                }
            }
        }
    }
    false
}

/// The octets that the words tell behind this key, as often as `times=` says.
fn octets_of(memory: Global, words: &str, key: &str) -> Result<Vec<u8>, Fail> {
    let one = hex::decode(memory, setting(words, key).unwrap_or(""))?;
    let mut all = Vec::new(memory);
    for _time in 0..number(words, "times=", 1) {
        all.extend_from_slice(&one)?;
    }
    Ok(all)
}

/// Whether a line of the table is as told. Where it does not tell by `to=` what is returned, that is what was given.
pub fn is_line_as_told(memory: Global, line: &str) -> Result<bool, Fail> {
    let (words, expected) = line.split_once(" = ").unwrap_or((line, ""));
    let octets = octets_of(memory, words, "octets=")?;
    let wanted = match setting(words, "to=") {
        Some(_) => "to=",
        None => "octets=",
    };
    let wanted = octets_of(memory, words, wanted)?;
    let cut = number(words, "cut=", 0) as usize;
    Ok(is_as_told(
        memory,
        &Line {
            words,
            octets: &octets,
            cut,
            wanted: &wanted,
            expected,
        },
    ))
}
