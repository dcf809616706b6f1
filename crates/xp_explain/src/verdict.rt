use std::fmt;
use xp_causes::Refusal;
use xp_words::{ClearingCause, Diagnostic};

/// A decision in words, such as `line b1 rings`.
#[derive(Clone, Copy)]
pub(crate) enum VerdictWords<'a> {
    /// The line with this name rings.
    Rings(&'a str),
    /// The caller is told this cause and this diagnostic.
    Refused(Refusal),
}

impl fmt::Display for VerdictWords<'_> {
    ghost use Rattle.std.specs.Prelude.{Some};
    ghost use Rattle.xp_explain.specs.steps.Words.{words_text};

    ghost output = { λ words. Some (words_text words) };

    fn fmt<W: fmt::Write>(&self, f: &mut fmt::Formatter<W>) -> fmt::Result {
        match self {
            VerdictWords::Rings(name) => write!(f, "line {name} rings"),
            VerdictWords::Refused(refusal) => {
                let cause = ClearingCause(refusal.cause);
                let diagnostic = Diagnostic(refusal.diagnostic);
                write!(f, "refused: cause {cause}, diagnostic {diagnostic}")
            }
        }
    }
}
