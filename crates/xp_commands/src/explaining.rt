//! Explaining how a call request is decided.

ghost use Rattle.std.specs.Prelude.{◌<◌, IfOk};
ghost use Rattle.xp_subs.specs.Tables.{line_count};

use crate::failure::CommandFailure;
use crate::output::print_text;
use crate::router_callers::{BroughtCall, Taken};
use std::alloc::{AllocError, AllocGlobal, Global};
use thiserror::Error;
use xp_arguments::QuestionOrder;
use xp_explain::{
    Explanation, NamesFault, OctetsFault, StatedLines, explain, lines_named, no_address,
    no_line_named, octets_in,
};
use xp_packets::{Block, Digits, Octets};
use xp_subs::{LineNo, Subs};
use xp_tasks::TaskFailure;

/// The most octets of a facility field (X.25 clause 5.2.2.1.4).
const MOST_FACILITIES: usize = 109;

/// The most octets of user data, which a call request with fast select may have (X.25 clause 5.2.2.1.5).
const MOST_USER_DATA: usize = 128;

/// Why a call request cannot be asked about.
#[derive(Clone, Copy, Debug, Drop, PartialEq, Error)]
pub enum QuestionFault {
    /// No line has this name.
    #[error("a line that is named is not in the file")]
    Line,
    /// A router is none, or the calling address of its call.
    #[error("CALLER is the name of a line, or ADDRESS@ROUTER")]
    Router,
    /// The called address is no address.
    #[error("DIALLED is 1 to 15 digits")]
    Dialled,
    /// The facility field is none.
    #[error("--facilities wants hexadecimal digits, of 109 octets at most")]
    Facilities,
    /// The user data are none.
    #[error("--user wants hexadecimal digits, of 128 octets at most")]
    UserData,
}

/// What an operator states of the lines.
#[derive(Drop)]
struct Stated {
    /// Those in service, where they are stated: else all are.
    up: Option<Vec<LineNo>>,
    /// Those with a call.
    busy: Vec<LineNo>,
}

impl Stated {
    /// States that this line is in service too.
    fn bring_up(&mut self, line: LineNo) -> Result<(), AllocError> {
        match &mut self.up {
            Some(up) => up.push(line).map_err(AllocError::from),
            None => Ok(()),
        }
    }
}

/// Prints how a call request over these subscriptions is decided. Where it is one that a router brings, it first tells which line
/// takes it.
pub fn explain_call<R: AllocGlobal + Print>(
    rt: &R,
    subs: &Subs,
    question: &QuestionOrder<'_>,
) -> Result<(), CommandFailure> {
    let alloc = rt.alloc();
    match question.caller.split_once('@') {
        Some((calling, router)) => {
            let call = BroughtCall::read(alloc, calling, router)?;
            let block = block_of(alloc, subs, question)?;
            explain_brought(rt, subs, question, &call, &block)
        }
        None => {
            let from = line_in(alloc, subs, question.caller)?;
            let block = block_of(alloc, subs, question)?;
            let stated = stated_in(alloc, subs, question)?;
            explain_block(rt, subs, &stated, from, &block, question.status)
        }
    }
}

/// Prints which line takes the call that a router brings, and how its call request with this block is decided. Its connection brings
/// the line into service.
fn explain_brought<R: AllocGlobal + Print>(
    rt: &R,
    subs: &Subs,
    question: &QuestionOrder<'_>,
    call: &BroughtCall,
    block: &Block,
) -> Result<(), CommandFailure> {
    let alloc = rt.alloc();
    let mut stated = stated_in(alloc, subs, question)?;
    let taken = call.taken(alloc, subs, &stated.busy)?;
    print_text(rt, &call.told(alloc, subs, &taken)?)?;
    match taken {
        Taken::By(line, _) => {
            stated.bring_up(line)?;
            explain_block(rt, subs, &stated, line, block, question.status)
        }
        _ if question.status => Err(CommandFailure::CallRefused),
        _ => Ok(()),
    }
}

/// What is stated of the lines.
fn stated_in(
    alloc: Global,
    subs: &Subs,
    question: &QuestionOrder<'_>,
) -> Result<Stated, CommandFailure> {
    let busy = lines_in(alloc, subs, question.busy)?;
    let up = lines_in(alloc, subs, question.up)?;
    let up = question.up.is_some().then_some(up);
    Ok(Stated { up, busy })
}

/// The line of this name.
fn line_in(alloc: Global, subs: &Subs, name: &str) -> Result<LineNo, CommandFailure>
    ensures { IfOk result (λ line. line < line_count subs.now) }
{
    match subs.line_named(name) {
        Some(line) => Ok(line),
        None => Err(unknown_line(alloc, subs, name)?),
    }
}

/// The failure of a name that no line has.
fn unknown_line(alloc: Global, subs: &Subs, name: &str) -> Result<CommandFailure, AllocError> {
    let told = no_line_named(alloc, subs, name)?;
    Ok(CommandFailure::Question(QuestionFault::Line, told))
}

/// The block of the call request.
fn block_of(
    alloc: Global,
    subs: &Subs,
    question: &QuestionOrder<'_>,
) -> Result<Block, CommandFailure> {
    let called = address_in(alloc, subs, question.dialled)?;
    let facilities = field_in(
        alloc,
        question.facilities,
        MOST_FACILITIES,
        QuestionFault::Facilities,
    )?;
    let user = field_in(
        alloc,
        question.user,
        MOST_USER_DATA,
        QuestionFault::UserData,
    )?;
    Ok(Block {
        called,
        calling: Digits::new(),
        facilities,
        user,
    })
}

/// The address that a text is: 1 to 15 digits.
fn address_in(alloc: Global, subs: &Subs, text: &str) -> Result<Digits, CommandFailure> {
    match Digits::from_text(text) {
        Some(address) if !address.is_empty() => Ok(address),
        _ => {
            let told = no_address(alloc, subs, text)?;
            Err(CommandFailure::Question(QuestionFault::Dialled, told))
        }
    }
}

/// The octets of a text in hexadecimal digits; none where it is absent. This fault is told where it is none, or of more octets.
fn field_in(
    alloc: Global,
    text: Option<&str>,
    most: usize,
    fault: QuestionFault,
) -> Result<Octets, CommandFailure> {
    let Some(text) = text else {
        return Ok(Octets::new(alloc));
    };
    match octets_in(alloc, text, most) {
        Ok(octets) => Ok(octets),
        Err(OctetsFault::Memory) => Err(CommandFailure::Task(TaskFailure::Memory)),
        Err(told) => Err(CommandFailure::Question(fault, told.to_string(alloc)?)),
    }
}

/// Prints how the call request with this block, which the line `from` makes, is decided. Where `tells_status`, a refusal fails.
fn explain_block<R: AllocGlobal + Print>(
    rt: &R,
    subs: &Subs,
    stated: &Stated,
    from: LineNo,
    block: &Block,
    tells_status: bool,
) -> Result<(), CommandFailure>
    requires { from < line_count subs.now }
{
    let states = StatedLines {
        up: stated.up.as_deref(),
        busy: &stated.busy,
    };
    let explanation = explain(rt.alloc(), subs, &states, from, block)?;
    print_explanation(rt, &explanation, tells_status)
}

/// The lines of these names, with commas between them; none where they are absent.
fn lines_in(
    alloc: Global,
    subs: &Subs,
    names: Option<&str>,
) -> Result<Vec<LineNo>, CommandFailure> {
    let Some(names) = names else {
        return Ok(Vec::new(alloc));
    };
    match lines_named(alloc, subs, names) {
        Ok(lines) => Ok(lines),
        Err(NamesFault::Unknown(name)) => Err(unknown_line(alloc, subs, name)?),
        Err(NamesFault::Memory) => Err(CommandFailure::Task(TaskFailure::Memory)),
    }
}

/// Prints an explanation. Where `tells_status`, a refusal fails.
fn print_explanation<R: AllocGlobal + Print>(
    rt: &R,
    explanation: &Explanation<'_>,
    tells_status: bool,
) -> Result<(), CommandFailure> {
    print_text(rt, &explanation.text)?;
    if tells_status && explanation.is_refused() {
        Err(CommandFailure::CallRefused)
    } else {
        Ok(())
    }
}
