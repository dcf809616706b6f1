ghost use Rattle.std.specs.Prelude.{◌≡◌};
ghost use Rattle.xp_relay.specs.Coupled.{state_of};

/// The flow control state of an end's channel (X.25 clause 4.4.3 and Annex B). A reset request is confirmed at once, so
/// no call stays in state d2.
#[derive(Clone, Copy, Debug, PartialEq, Eq)]
pub enum FlowState {
    /// d1: flow control ready.
    Ready,
    /// d3: DCE reset indication. The end owes a reset confirmation.
    ResetIndicated,
}

impl FlowState {
    /// Returns the state of an end that owes a reset confirmation, or owes none.
    pub(crate) fn of(owes: bool) -> FlowState
        ensures { result ≡ state_of owes }
    {
        if owes {
            FlowState::ResetIndicated
        } else {
            FlowState::Ready
        }
    }
}
