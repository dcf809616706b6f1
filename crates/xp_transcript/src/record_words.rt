//! Charging records as sentences.

ghost use Rattle.std.specs.Prelude.{◌≡◌, IfOk, string_bytes};
ghost use Rattle.xp_transcript.specs.Words.{called_words, charge_words, payer_words, record_words, segment_noun};
ghost use Rattle.xp_words.specs.Packets.{address_text};

use crate::names::name_of;
use std::alloc::{AllocError, Global};
use std::fmt;
use xp_charge::Record;
use xp_packets::{Digits, End};
use xp_subs::{LineNo, Subs};
use xp_words::{ClearingCause, Diagnostic};

/// Which call ended.
#[derive(Clone, Copy)]
struct CallWords<'a> {
    number: u64,
    caller: &'a str,
    called: &'a str,
    dialled: &'a Digits,
}

impl fmt::Display for CallWords<'_> {
    ghost use Rattle.std.specs.Prelude.{Some};
    ghost use Rattle.xp_transcript.specs.Words.{call_words};

    ghost output = { λ call. Some (call_words call.number call.caller.now call.called.now call.dialled.now) };

    fn fmt<W: fmt::Write>(&self, f: &mut fmt::Formatter<W>) -> fmt::Result {
        let number = self.number;
        let caller = self.caller;
        let called = self.called;
        let dialled = DialledWords(self.dialled);
        write!(f, "call {number}: {caller} to {called}{dialled}")
    }
}

/// The digits that were dialled, if there are any.
#[derive(Clone, Copy)]
struct DialledWords<'a>(&'a Digits);

impl fmt::Display for DialledWords<'_> {
    ghost use Rattle.std.specs.Prelude.{codes, Some};

    ghost output = { λ dialled. Some (address_text (codes ", dialled ") dialled.0.now) };

    fn fmt<W: fmt::Write>(&self, f: &mut fmt::Formatter<W>) -> fmt::Result {
        if self.0.is_empty() {
            return Ok(());
        }
        write!(f, ", dialled {}", self.0)
    }
}

/// Who pays, for how much.
#[derive(Clone, Copy)]
struct ChargeWords<'a>(&'a Record);

impl fmt::Display for ChargeWords<'_> {
    ghost use Rattle.std.specs.Prelude.{Some};

    ghost output = { λ words. Some (charge_words words.0.now) };

    fn fmt<W: fmt::Write>(&self, f: &mut fmt::Formatter<W>) -> fmt::Result {
        let payer = payer_words(self.0.payer);
        let segments = SegmentWords {
            from_caller: self.0.from_caller,
            from_called: self.0.from_called,
        };
        let seconds = self.0.seconds();
        write!(f, "the {payer} pays, {segments}, connected for {seconds} s")
    }
}

/// How many segments each end sent.
#[derive(Clone, Copy)]
struct SegmentWords {
    from_caller: u32,
    from_called: u32,
}

impl fmt::Display for SegmentWords {
    ghost use Rattle.std.specs.Prelude.{Some};
    ghost use Rattle.xp_transcript.specs.Words.{segment_words};

    ghost output = { λ words. Some (segment_words words.from_caller words.from_called) };

    fn fmt<W: fmt::Write>(&self, f: &mut fmt::Formatter<W>) -> fmt::Result {
        let from_caller = self.from_caller;
        let segments = segment_noun(from_caller);
        let from_called = self.from_called;
        write!(
            f,
            "{from_caller} {segments} from the caller, {from_called} from the called line"
        )
    }
}

/// What so many segments are called.
fn segment_noun(count: u32) -> &'static str
    ensures { result.now ≡ segment_noun count }
{
    if count == 1 { "segment" } else { "segments" }
}

fn payer_words(payer: End) -> &'static str
    ensures { result.now ≡ payer_words payer }
{
    match payer {
        End::Caller => "caller",
        End::Called => "called line",
    }
}

fn called_words(subs: &Subs, called: Option<LineNo>) -> &str
    ensures { result.now ≡ called_words subs.now called }
{
    match called {
        Some(line) => name_of(subs, line),
        None => "no line",
    }
}

/// The sentence of a charging record.
pub(crate) fn record_words(alloc: Global, subs: &Subs, ended: &Record) -> Result<String, AllocError>
    ensures { IfOk result (λ text. string_bytes text ≡ record_words subs.now ended.now) }
{
    let moment = ended.ended;
    let call = CallWords {
        number: ended.number,
        caller: name_of(subs, ended.caller),
        called: called_words(subs, ended.called),
        dialled: &ended.dialled,
    };
    let charge = ChargeWords(ended);
    let cause = ClearingCause(ended.cause);
    let diagnostic = Diagnostic(ended.diagnostic);
    format!(in alloc;
        "{moment}  record of {call}, {charge}, cause {cause}, diagnostic {diagnostic}\n"
    )
}
