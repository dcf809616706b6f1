ghost use Rattle.std.specs.Prelude.{◌≡◌};

use xp_hunt::{LineState, Lines};
use xp_subs::LineNo;

/// The lines for a call from `caller`: that line counts as busy, with the call itself.
#[derive(Clone, Copy)]
pub struct LinesForCaller<'a, L> {
    pub lines: &'a L,
    pub caller: LineNo,
}

impl<'a, L: Lines> Lines for LinesForCaller<'a, L> {
    ghost use Rattle.xp_decide.specs.LinesForCaller.{state_for_caller};

    ghost states = { λ seen. state_for_caller seen.caller (L.states seen.lines.now) };

    fn state(&self, line: LineNo) -> LineState {
        if line == self.caller {
            LineState::Busy
        } else {
            self.lines.state(line)
        }
    }
}
