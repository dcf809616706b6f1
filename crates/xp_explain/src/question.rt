//! A call request, and its decision as text.

ghost use Rattle.std.specs.Prelude.{◌≡◌, ◌<◌, IfOk};
ghost use Rattle.std.specs.String.{string_bytes};
ghost use Rattle.xp_decide.specs.Decided.{IfTaken};
ghost use Rattle.xp_explain.specs.Explanation.{EndsWithVerdict, verdict_text};
ghost use Rattle.xp_explain.specs.steps.Words.{words_text};
ghost use Rattle.xp_subs.specs.Tables.{line_count};

use crate::explanation::{Asked, Reasons};
use crate::rule::Rule;
use crate::verdict::VerdictWords;
use std::alloc::{AllocError, Global};
use std::fmt::Write;
use xp_decide::{IncomingCall, Verdict};
use xp_facilities::write;
use xp_hunt::Lines;
use xp_packets::{Block, Digits, Packet};
use xp_subs::{Line, Station, Subs};
use xp_words::{Direction, PacketWords};

/// A call request, with all that decides it.
#[derive(Drop)]
pub(crate) struct Question<'q, L> {
    pub(crate) subs: &'q Subs,
    /// The states of the lines. The calling line is busy.
    pub(crate) lines: &'q L,
    /// The calling line, its station and its address.
    pub(crate) line: &'q Line,
    pub(crate) station: &'q Station,
    pub(crate) address: &'q Digits,
    /// Whether the calling line is in service. One that is not makes no calls.
    pub(crate) is_up: bool,
    /// The block of the call request.
    pub(crate) block: &'q Block,
}

impl<'q, L: Lines> Question<'q, L> {
    /// The rules one by one, and last the decision.
    pub(crate) fn text(
        &self,
        alloc: Global,
        reasons: &Reasons<'_>,
        verdict: &Verdict,
    ) -> Result<String, AllocError>
        requires { IfTaken verdict.now (λ ring. ring.line < line_count self.now.subs.now) }
        ensures { IfOk result (λ text. EndsWithVerdict self.now.subs.now verdict.now (string_bytes text)) }
    {
        let mut text = String::new(alloc);
        self.push_rules(alloc, &mut text, reasons, verdict)?;
        let words = verdict_words(self.subs, verdict);
        writeln!(text, "{words}")?;
        Ok(text)
    }

    /// The rules one by one.
    fn push_rules(
        &self,
        alloc: Global,
        text: &mut String,
        reasons: &Reasons<'_>,
        verdict: &Verdict,
    ) -> Result<(), AllocError>
        requires { IfTaken verdict.now (λ ring. ring.line < line_count self.now.subs.now) }
    {
        self.push_request(text)?;
        self.push_caller(text)?;
        let refused_by = reasons.refused_by;
        match &reasons.asked {
            Err(_) => self.push_caller_refused(alloc, text, refused_by),
            Ok(asked) => {
                self.push_asked(text, &asked.request)?;
                self.push_way(text, asked)?;
                self.push_end(alloc, text, asked, refused_by, verdict)
            }
        }
    }

    /// The call request.
    fn push_request(&self, text: &mut String) -> Result<(), AllocError> {
        let packet = Packet::Call {
            d: false,
            block: self.block.clone()?,
        };
        let words = PacketWords {
            direction: Direction::FromDte,
            packet: &packet,
        };
        writeln!(text, "{words}")
    }

    /// Who makes the call request, and whether it can.
    fn push_caller(&self, text: &mut String) -> Result<(), AllocError> {
        let line = self.line.name.as_str();
        let address = &self.station.address;
        writeln!(text, "caller: line {line} of station {address}")?;
        if self.is_up {
            return Ok(());
        }
        writeln!(
            text,
            "line {line} is out of service: it makes no calls until it is up"
        )
    }

    /// What comes of the call at the end of its way.
    fn push_end(
        &self,
        alloc: Global,
        text: &mut String,
        asked: &Asked<'_>,
        refused_by: Option<Rule>,
        verdict: &Verdict,
    ) -> Result<(), AllocError>
        requires { IfTaken verdict.now (λ ring. ring.line < line_count self.now.subs.now) }
    {
        let wanted = asked.request.wanted();
        if let Some(rule) = refused_by {
            return self.push_refused_at(text, &wanted, asked.way.last, rule);
        }
        self.push_taken_at(text, &wanted, asked.way.last)?;
        match verdict {
            Verdict::Take(ring) => self.push_incoming_call(alloc, text, ring),
            Verdict::Refuse(_) => Ok(()),
        }
    }

    /// The packet that is put to the line that rings.
    fn push_incoming_call(
        &self,
        alloc: Global,
        text: &mut String,
        ring: &IncomingCall,
    ) -> Result<(), AllocError>
        requires { ring.now.line < line_count self.now.subs.now }
    {
        let Ok(facilities) = write(alloc, &ring.told) else {
            return Err(AllocError);
        };
        let packet = Packet::Call {
            d: false,
            block: Block {
                called: self.subs.address_of(ring.line).copy(),
                calling: self.address.copy(),
                facilities,
                user: self.block.user.copy()?,
            },
        };
        let words = PacketWords {
            direction: Direction::FromDce,
            packet: &packet,
        };
        writeln!(text, "{words}")
    }
}

/// The decision in words.
fn verdict_words<'a>(subs: &'a Subs, verdict: &Verdict) -> VerdictWords<'a>
    requires { IfTaken verdict.now (λ ring. ring.line < line_count subs.now) }
    ensures { words_text result ≡ verdict_text subs.now verdict.now }
{
    match verdict {
        Verdict::Take(ring) => VerdictWords::Rings(subs.name_of(ring.line)),
        Verdict::Refuse(refusal) => VerdictWords::Refused(*refusal),
    }
}

/// The rule that refuses a call request, and what to look at, of this station if the rule is about one.
pub(crate) fn push_rule(
    text: &mut String,
    rule: Rule,
    station: Option<&Station>,
) -> Result<(), AllocError> {
    writeln!(text, "refused by {}: {}", rule.number(), rule.meaning())?;
    match station {
        Some(station) => writeln!(
            text,
            "look at station {}: {}",
            station.address,
            rule.look_at()
        ),
        None => writeln!(text, "look at {}", rule.look_at()),
    }
}
