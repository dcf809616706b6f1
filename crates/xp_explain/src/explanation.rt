//! How a call request is decided.

ghost use Rattle.std.specs.Prelude.{◌≡◌, ◌<◌, true, false, IfOk};
ghost use Rattle.xp_decide.specs.Asks.{MayNotAsk};
ghost use Rattle.xp_explain.specs.Explanation.{AreReasons, Explains, is_refusal};
ghost use Rattle.xp_explain.specs.Rules.{RefusesCaller};
ghost use Rattle.xp_facilities.specs.Requested.{Means, IsFaulty};
ghost use Rattle.xp_facilities.specs.declared.fault.FacilityFault.{FacilityFault};
ghost use Rattle.xp_facilities.specs.declared.requested.RequestedFacilities.{RequestedFacilities};
ghost use Rattle.std.specs.declared.alloc.Global.{Global};
ghost use Rattle.xp_subs.specs.Tables.{line_count};

use crate::question::Question;
use crate::rule::Rule;
use crate::way::Way;
use std::alloc::{AllocError, Global};
use xp_causes::Refusal;
use xp_decide::{CallFault, LinesForCaller, Request, Verdict, decide, open};
use xp_facilities::laws::every_field_has_one_reading;
use xp_facilities::{FacilityFault, parse};
use xp_hunt::{LineState, Lines};
use xp_packets::Block;
use xp_subs::{LineNo, Subs};

/// A call request that the caller may make.
#[derive(Drop)]
pub struct Asked<'a> {
    /// What it asks for, and how it is made by the caller's closed user groups.
    pub request: Request,
    /// The addresses through which it goes.
    pub way: Way<'a>,
}

/// What the rules find of a call request.
#[derive(Drop)]
pub struct Reasons<'a> {
    /// The request, or the refusal by the rules for the caller, 1 to 6.
    pub asked: Result<Asked<'a>, Refusal>,
    /// The rule that refuses the request, if one does.
    pub refused_by: Option<Rule>,
}

/// How a call request is decided.
#[derive(Drop)]
pub struct Explanation<'a> {
    /// The decision.
    pub verdict: Verdict,
    pub reasons: Reasons<'a>,
    /// The rules one by one, and last the decision: the line that rings, or the cause and the diagnostic.
    pub text: String,
}

impl Explanation<'_> {
    /// Whether the call request is refused.
    pub fn is_refused(&self) -> bool
        ensures { result ≡ is_refusal self.now.verdict }
    {
        matches!(self.verdict, Verdict::Refuse(_))
    }
}

/// How the call request with this block, which the line `from` makes, is decided. The contract says of the text that it ends
/// with the decision. Where several lines are idle, the contract does not say which one rings.
///
/// # Errors
///
/// An allocation failed.
pub fn explain<'a, L: Lines>(
    alloc: Global,
    subs: &'a Subs,
    lines: &L,
    from: LineNo,
    block: &'a Block,
) -> Result<Explanation<'a>, AllocError>
    requires { from < line_count subs.now }
    ensures { IfOk result (Explains subs.now (L.states lines.now) from block.now) }
{
    let verdict = decide(alloc, subs, lines, from, block)?;
    let reasons = find_reasons(alloc, subs, lines, from, block)?;
    let line = subs.line(from);
    let seen = LinesForCaller {
        lines,
        caller: from,
    };
    let question = Question {
        subs,
        lines: &seen,
        line,
        station: subs.station(line.station),
        address: subs.address_of(from),
        is_up: !matches!(lines.state(from), LineState::Off),
        block,
    };
    let text = question.text(alloc, &reasons, &verdict)?;
    Ok(Explanation {
        verdict,
        reasons,
        text,
    })
}

/// What the rules find of the call request.
fn find_reasons<'a, L: Lines>(
    alloc: Global,
    subs: &'a Subs,
    lines: &L,
    from: LineNo,
    block: &'a Block,
) -> Result<Reasons<'a>, AllocError>
    requires { from < line_count subs.now }
    ensures { IfOk result (AreReasons subs.now (L.states lines.now) from block.now) }
{
    match open(alloc, subs, from, block) {
        Ok(request) => {
            let seen = LinesForCaller {
                lines,
                caller: from,
            };
            let way = Way::of(alloc, subs, &seen, &request.wanted(), &block.called)?;
            let refused_by = way.end.rule();
            Ok(Reasons {
                asked: Ok(Asked { request, way }),
                refused_by,
            })
        }
        Err(CallFault::Refused(refusal)) => {
            let rule = caller_rule(alloc, subs, from, block, refusal)?;
            Ok(Reasons {
                asked: Err(refusal),
                refused_by: Some(rule),
            })
        }
        Err(CallFault::Memory) => Err(AllocError),
    }
}

/// The rule for the caller that refuses the request with this refusal.
fn caller_rule(
    alloc: Global,
    subs: &Subs,
    from: LineNo,
    block: &Block,
    refusal: Refusal,
) -> Result<Rule, AllocError>
    requires line { from < line_count subs.now }
    requires refused { MayNotAsk subs.now from block.now refusal }
    ensures { IfOk result (RefusesCaller subs.now from block.now refusal) }
{
    every_field_has_one_reading::<Global>();
    let is_read = is_read(alloc, block.facilities.as_slice())?;
    let station = subs.station(subs.station_of(from));
    Ok(Rule::for_caller(refusal, is_read, station.facilities.outgoing_barred))
}

/// Whether the facility field has a meaning; otherwise it has a fault.
fn is_read(alloc: Global, field: &[u8]) -> Result<bool, AllocError>
    ensures meaning { IfOk result (λ is_read. is_read ≡ true → (asked : RequestedFacilities Global) × Means field.now asked) }
    ensures fault { IfOk result (λ is_read. is_read ≡ false → (fault : FacilityFault) × IsFaulty field.now fault) }
{
    match parse(alloc, field) {
        Ok(_) => Ok(true),
        Err(FacilityFault::Memory) => Err(AllocError),
        Err(_) => Ok(false),
    }
}
