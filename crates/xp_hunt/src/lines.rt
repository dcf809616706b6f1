ghost use Rattle.std.specs.Prelude.{◌≡◌, ℕ};

use xp_subs::LineNo;

/// The state of a line when the exchange hunts for one that takes a call.
#[derive(Clone, Copy, Default, PartialEq, Eq)]
pub enum LineState {
    /// Out of service.
    #[default]
    Off,
    /// In service, with no call.
    Idle,
    /// In service, with a call or with a clear that is not yet confirmed.
    Busy,
}

/// The lines of an exchange at one moment.
pub trait Lines {
    ghost use Rattle.xp_hunt.specs.declared.lines.LineState.{LineState};

    /// The state of each line, by its number.
    ghost states: { Self → ℕ → LineState };

    /// The state of the line with this number.
    fn state(&self, line: LineNo) -> LineState
        ensures { result ≡ states self.now line };
}
