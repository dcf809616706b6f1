ghost use Rattle.std.specs.Prelude.{◌≡◌};
ghost use Rattle.xp_step.specs.Outcomes.{taken_by};

use xp_answer::Setup;
use xp_causes::Refusal;
use xp_machine::Agreement;
use xp_subs::LineNo;

/// What an event settled that the table of actions leaves open.
#[derive(Clone, Copy)]
pub enum Outcome {
    /// Nothing was left open.
    Plain,
    /// A call request: the call was put to this line.
    Put { line: LineNo, setup: Setup },
    /// A call request: the call was refused.
    Refused(Refusal),
    /// An answer: the call is connected.
    Connected(Agreement),
    /// An answer: it is faulty, which is a procedure error with this diagnostic (X.25 Annex E).
    Declined(u8),
    /// Data: it would take its direction past the segment limit, so the call is cleared.
    Exceeded,
}

impl Outcome {
    /// Returns the line that a new call was put to, if the event put one to a line.
    pub fn taken(self) -> Option<LineNo>
        ensures { result ≡ taken_by self }
    {
        match self {
            Outcome::Put { line, setup: _ } => Some(line),
            Outcome::Plain
            | Outcome::Refused(_)
            | Outcome::Connected(_)
            | Outcome::Declined(_)
            | Outcome::Exceeded => None,
        }
    }
}
