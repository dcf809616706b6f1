//! How the lines ended.

ghost use Rattle.std.specs.Prelude.{◌≡◌, ◌+◌, ◌≤◌, ◌<◌, [], length, map, vec_capacity, vec_len};
ghost use Rattle.xp_serve.specs.Ends.{failure_of, early_end_cause, first_early_end};
ghost use Rattle.xp_subs.specs.Bounds.{most_lines};
ghost use Rattle.xp_subs.specs.Tables.{line_count};

use xp_lines::{EndReason, LineEnd};
use xp_listening::ServeFailure;
use xp_lock::LinePass;
use xp_seats::Name;
use xp_subs::{LineNo, Subs};

/// What ended a line before its time.
#[derive(Clone, Copy, PartialEq)]
pub enum EarlyEndCause {
    /// The history was full.
    Journal,
    /// No connection can come to its port any more.
    Port,
    /// Memory was wanting: its thread could not be started, or its Down was not accepted as it was to stop.
    Thread,
}

/// That a line ended before its time.
#[derive(Clone, Copy, PartialEq)]
pub struct EarlyEnd {
    /// The number of the line.
    pub line: LineNo,
    /// What ended it.
    pub cause: EarlyEndCause,
}

impl EarlyEnd {
    /// What is told of it.
    pub fn failure(self, subs: &Subs) -> ServeFailure
        requires { self.line < line_count subs.now }
        ensures { result ≡ failure_of subs.now self }
    {
        match self.cause {
            EarlyEndCause::Journal => ServeFailure::Journal,
            EarlyEndCause::Port => ServeFailure::port(subs, self.line),
            EarlyEndCause::Thread => ServeFailure::Thread,
        }
    }
}

fn cause_of(why: EndReason) -> Option<EarlyEndCause>
    ensures { result ≡ early_end_cause why }
{
    match why {
        EndReason::Turns | EndReason::Halted | EndReason::Stopped => None,
        EndReason::Journal => Some(EarlyEndCause::Journal),
        EndReason::Port => Some(EarlyEndCause::Port),
        EndReason::NotStarted | EndReason::Memory => Some(EarlyEndCause::Thread),
    }
}

/// The lowest line that ended before its time, where these are the ends of all lines in order.
pub(crate) fn first_early_end(end_reasons: &[EndReason]) -> Option<EarlyEnd>
    requires { length end_reasons.now ≤ most_lines }
    ensures { result ≡ first_early_end 0 end_reasons.now }
{
    for (line, why) in end_reasons.iter().enumerate() {
        if let Some(cause) = cause_of(*why) {
            let line = line as LineNo;
            return Some(EarlyEnd { line, cause });
        }
    }
    None
}

/// Why these lines ended, in order.
pub(crate) fn end_reasons_of<N: Name>(
    ends: &[LineEnd<N>],
    end_reasons: Vec<EndReason>,
) -> Vec<EndReason>
    requires room { vec_len end_reasons + length ends.now ≤ vec_capacity end_reasons }
    requires none { end_reasons.items ≡ [] }
    ensures { result.items ≡ map (λ end. end.why) ends.now }
{
    let mut end_reasons = end_reasons;
    for end in ends {
        end_reasons.push_reserved(end.why);
    }
    end_reasons
}

/// The passes of the lines that have ended.
pub(crate) fn passes_of<N: Name>(
    ends: Vec<LineEnd<N>>,
    passes: Vec<LinePass<N>>,
) -> Vec<LinePass<N>>
    requires room { vec_len passes + vec_len ends ≤ vec_capacity passes }
    requires none { passes.items ≡ [] }
    ensures { result.items ≡ map (λ end. end.pass) ends.items }
{
    let mut passes = passes;
    for end in ends {
        passes.push_reserved(end.pass);
    }
    passes
}
