ghost use Rattle.std.specs.Prelude.{◌≡◌, option_map};
ghost use Rattle.xp_explain.specs.Stated.{stated_state};

use xp_hunt::{LineState, Lines};
use xp_subs::LineNo;

/// The states of lines, as an operator states them.
#[derive(Clone, Copy)]
pub struct StatedLines<'a> {
    /// The lines in service. `None`: all lines are.
    pub up: Option<&'a [LineNo]>,
    /// The lines with a call. They are in service, whether `up` has them or not.
    pub busy: &'a [LineNo],
}

impl StatedLines<'_> {
    /// All lines are in service, and none has a call.
    pub const IDLE: StatedLines<'static> = StatedLines {
        up: None,
        busy: &[],
    };

    /// The state of a line. A line that is not stated to be busy is idle where it is in service.
    pub fn state_of(&self, line: LineNo) -> LineState
        ensures { result ≡ stated_state (option_map (λ up. up.now) self.now.up) self.now.busy.now line }
    {
        if self.busy.contains(&line) {
            LineState::Busy
        } else if self.up.is_none_or(|up| up.contains(&line)) {
            LineState::Idle
        } else {
            LineState::Off
        }
    }
}

impl<'a> Lines for StatedLines<'a> {
    ghost use Rattle.std.specs.Prelude.{option_map};
    ghost use Rattle.xp_explain.specs.Stated.{stated_state};

    ghost states = { λ stated. stated_state (option_map (λ up. up.now) stated.up) stated.busy.now };

    fn state(&self, line: LineNo) -> LineState {
        self.state_of(line)
    }
}
