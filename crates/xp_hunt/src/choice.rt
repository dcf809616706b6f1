ghost use Rattle.xp_hunt.specs.Picks.{Picks};

use crate::lines::{LineState, Lines};
use xp_subs::LineNo;

/// The result of hunting for an idle line in a hunt group.
#[derive(Clone, Copy, PartialEq, Eq)]
pub enum HuntOutcome {
    /// An idle line of the group. The contract does not say which, if there are several.
    Take(LineNo),
    /// Every line is out of service, or the group is empty.
    AllOff,
    /// No line is idle, and at least one is in service.
    Busy,
}

/// Hunts for an idle line in a hunt group (X.25 clause 6.24).
pub fn pick<L: Lines>(group: &[LineNo], lines: &L) -> HuntOutcome
    ensures { Picks (L.states lines.now) group.now result }
{
    let mut found = HuntOutcome::AllOff;
    for line in group {
        match lines.state(*line) {
            LineState::Idle => return HuntOutcome::Take(*line),
            LineState::Busy => found = HuntOutcome::Busy,
            LineState::Off => {}
        }
    }
    found
}
