ghost use Rattle.std.specs.Prelude.{◌≡◌};
ghost use Rattle.xp_machine.specs.StoredState.{line_of};
ghost use Rattle.xp_machine.specs.View.{view_of};

use crate::channel::LogicalChannel;
use xp_channel::Channel;
use xp_relay::FlowState;

/// What can be seen of a line.
#[derive(Clone, Copy, Debug, PartialEq, Eq)]
pub struct LineView {
    /// The state of its logical channel.
    pub channel: Channel,
    /// The logical channel identifier of packets to the line, 0 to 4,095.
    pub identifier: u16,
    /// The number of the call that the line is in, if it is in one.
    pub call: Option<u64>,
    /// Whether the line owes a reset confirmation. It is None unless the line is in data transfer.
    pub flow: Option<FlowState>,
    /// How often the line came into service.
    pub connection: u64,
}

impl LogicalChannel {
    /// Returns what can be seen of the line, with this state of flow control.
    pub fn view(self, flow: Option<FlowState>) -> LineView
        ensures { result ≡ view_of (line_of self) flow }
    {
        LineView {
            channel: self.state.channel(),
            identifier: self.identifier,
            call: self.state.call(),
            flow,
            connection: self.connection,
        }
    }
}
