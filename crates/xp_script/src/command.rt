//! What a line of a script says.

ghost use Rattle.std.specs.Prelude.{◌≡◌, ◌&&◌, IfOk, IsSome, IsTrue, codes, is_some, length};
ghost use Rattle.xp_script.specs.Command.{octets_of, Answers, brings_octets, brings_octets_by, HasLine, HasTables, is_skipped, LacksMemory, Reads, moment_of, reload_of, said_at, said_by, said_of, said_reload, said_with, words};
ghost use Rattle.xp_subs.specs.Tables.{line_count, same};

use crate::digits::{are_digits, read_digits};
use crate::fault::LineFault;
use crate::input_octets::InputOctets;
use crate::line::line_named;
use crate::moment::moment_of;
use crate::named_tables::{NamedTables, number_named};
use crate::words::cut_word;
use std::alloc::{Allocator, Global};
use xp_subs::{LineNo, Subs};

/// The most octets of a line, without its line feed.
pub const MAX_LINE_OCTETS: usize = 8192;

/// What a line begins with that makes a connection come.
const UP: &[u8] = b"up";

/// What a line begins with that makes a connection go.
const DOWN: &[u8] = b"down";

/// What a line begins with that ends the time to answer.
const EXPIRE: &[u8] = b"expire";

/// What a line begins with that brings octets.
const IN: &[u8] = b"in";

/// What a line begins with that tells a moment.
const AT: &[u8] = b"at";

/// What a line begins with that brings other subscriptions into force.
const TABLES: &[u8] = b"tables";

/// What a line of a script asks for.
#[derive(Drop)]
pub enum Command<A: Allocator = Global> {
    /// Nothing: an empty line or a comment.
    Nothing,
    /// A connection of this line comes.
    Up(LineNo),
    /// The connection of this line goes.
    Down(LineNo),
    /// The time of this line to answer an incoming call is over.
    Expire(LineNo),
    /// Octets come in on a line; at least one.
    In(LineNo, InputOctets<A>),
    /// The events that follow have this moment, in seconds. It may be less than the one before.
    At(u64),
    /// The subscriptions with this number, among those that have names, come into force.
    Reload(usize),
}

impl<A: Allocator> Command<A> {
    /// Reads a line, without its line feed. It may name these subscriptions. Octets that come in are put into this vector,
    /// whatever it holds.
    ///
    /// # Errors
    ///
    /// `Faulty` where the line is too long or says nothing that a script may say; `Memory` where there is none for
    /// the octets that come in.
    #[inline(always)]
    pub fn read(
        subs: &Subs,
        named: &[NamedTables<'_>],
        line: &[u8],
        memory: Vec<u8, A>,
    ) -> Result<Command<A>, LineFault>
        ensures said { Reads subs.now named.now line.now result }
        ensures line { IfOk result (HasLine (line_count subs.now)) }
        ensures tables { IfOk result (HasTables (length named.now)) }
        ensures memory { LacksMemory result → IsTrue (brings_octets subs.now line.now) }
    {
        if line.len() > MAX_LINE_OCTETS {
            return Err(LineFault::Faulty);
        }
        if is_skipped(line) {
            return Ok(Command::Nothing);
        }
        read_words(subs, named, line, memory)
    }

    /// The number of the subscriptions that it brings into force, if it does.
    pub fn reload(&self) -> Option<usize>
        ensures { result ≡ reload_of self.now }
    {
        match self {
            Command::Reload(number) => Some(*number),
            _ => None,
        }
    }
}

/// Whether a line is empty or a comment.
fn is_skipped(line: &[u8]) -> bool
    ensures { result ≡ is_skipped line.now }
{
    matches!(line, [] | [b'#', ..])
}

#[inline(always)]
fn read_words<A: Allocator>(
    subs: &Subs,
    named: &[NamedTables<'_>],
    text: &[u8],
    memory: Vec<u8, A>,
) -> Result<Command<A>, LineFault>
    ensures said { Answers (said_by subs.now named.now (words text.now)) result }
    ensures line { IfOk result (HasLine (line_count subs.now)) }
    ensures tables { IfOk result (HasTables (length named.now)) }
    ensures memory { LacksMemory result → IsTrue (brings_octets_by subs.now (words text.now)) }
{
    let Some((verb, rest)) = cut_word(text) else {
        return Err(LineFault::Faulty);
    };
    match cut_word(rest) {
        // A further space is no digit.
        Some((name, digits)) => about_octets(verb, line_named(subs, name), digits, memory),
        None if verb == AT => about_moment(rest).ok_or(LineFault::Faulty),
        None if verb == TABLES => about_reload(number_named(named, rest)).ok_or(LineFault::Faulty),
        None => about_line(verb, line_named(subs, rest)).ok_or(LineFault::Faulty),
    }
}

/// `up`, `down` or `expire` of a line.
fn about_line<A: Allocator>(verb: &[u8], line: Option<LineNo>) -> Option<Command<A>>
    ensures { result ≡ said_of verb.now line }
{
    let line = line?;
    if verb == UP {
        Some(Command::Up(line))
    } else if verb == DOWN {
        Some(Command::Down(line))
    } else if verb == EXPIRE {
        Some(Command::Expire(line))
    } else {
        None
    }
}

/// `at`, with the digits of a moment.
fn about_moment<A: Allocator>(digits: &[u8]) -> Option<Command<A>>
    ensures { result ≡ said_at (moment_of digits.now) }
{
    Some(Command::At(moment_of(digits)?))
}

/// `tables`, of subscriptions with this number.
fn about_reload<A: Allocator>(number: Option<usize>) -> Option<Command<A>>
    ensures { result ≡ said_reload number }
{
    Some(Command::Reload(number?))
}

/// `in` of a line, with the octets that come in.
#[inline(always)]
fn about_octets<A: Allocator>(
    verb: &[u8],
    line: Option<LineNo>,
    digits: &[u8],
    memory: Vec<u8, A>,
) -> Result<Command<A>, LineFault>
    ensures said { Answers (said_with verb.now line (octets_of digits.now)) result }
    ensures memory { LacksMemory result → IsTrue (same verb.now (codes "in") && is_some line) }
    ensures digits { LacksMemory result → IsSome (octets_of digits.now) }
{
    match line {
        Some(line) if verb == IN => Ok(Command::In(line, octets_of(digits, memory)?)),
        _ => Err(LineFault::Faulty),
    }
}

/// The octets that hexadecimal digits stand for, at least one, in this vector, whatever it holds.
#[inline(always)]
fn octets_of<A: Allocator>(digits: &[u8], memory: Vec<u8, A>) -> Result<InputOctets<A>, LineFault>
    ensures octets { Answers (octets_of digits.now) result }
    ensures memory { LacksMemory result → IsSome (octets_of digits.now) }
{
    if !are_octets(digits) {
        return Err(LineFault::Faulty);
    }
    let mut octets = memory;
    octets.clear();
    // As many octets as the digits stand for, and then those.
    octets
        .extend_from_slice(&digits[..digits.len() / 2])
        .map_err(|_| LineFault::Memory)?;
    read_digits(digits, &mut octets);
    Ok(InputOctets::of(octets))
}

/// Whether a text is digits alone, for whole octets, at least one.
fn are_octets(text: &[u8]) -> bool
    ensures { result ≡ is_some (octets_of text.now) }
{
    !text.is_empty() && text.len() % 2 == 0 && are_digits(text)
}
