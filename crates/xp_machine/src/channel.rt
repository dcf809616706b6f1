ghost use Rattle.std.specs.Prelude.{◌≡◌, option_map};
ghost use Rattle.xp_machine.specs.Channel.{call_of, channel_of, line_state_of};
ghost use Rattle.xp_machine.specs.StoredState.{key_of, state_of};

use crate::call::CallKey;
use xp_channel::Channel;
use xp_hunt::LineState;

/// The state of a line's logical channel (X.25 Annex B).
#[derive(Clone, Copy)]
pub enum ChannelState {
    /// Out of service: no connection.
    Off,
    /// p1, ready.
    Ready,
    /// p2, DTE waiting: the line asked for this call.
    Waiting(CallKey),
    /// p3, DCE waiting: this call was put to the line.
    Ringing(CallKey),
    /// p4, data transfer in this call.
    Talking(CallKey),
    /// p7, DCE clear indication: the line has yet to confirm it.
    Cleared,
}

impl ChannelState {
    /// Returns the key of the call that the line is in, if it is in one.
    pub fn key(self) -> Option<CallKey>
        ensures key { result ≡ key_of self }
        ensures number { option_map (λ call. call.number) result ≡ call_of (state_of self) }
    {
        match self {
            ChannelState::Waiting(call)
            | ChannelState::Ringing(call)
            | ChannelState::Talking(call) => Some(call),
            ChannelState::Off | ChannelState::Ready | ChannelState::Cleared => None,
        }
    }

    /// Returns the number of the call that the line is in, if it is in one.
    pub fn call(self) -> Option<u64>
        ensures { result ≡ call_of (state_of self) }
    {
        self.key().map(|call| call.number)
    }

    /// Returns the state as the table of actions names it.
    pub fn channel(self) -> Channel
        ensures { result ≡ channel_of (state_of self) }
    {
        match self {
            ChannelState::Off => Channel::Off,
            ChannelState::Ready => Channel::P1,
            ChannelState::Waiting(_) => Channel::P2,
            ChannelState::Ringing(_) => Channel::P3,
            ChannelState::Talking(_) => Channel::P4,
            ChannelState::Cleared => Channel::P7,
        }
    }

    /// Returns the state as a call request sees it: a call can be put only to a line in p1.
    pub fn seen(self) -> LineState
        ensures { result ≡ line_state_of (state_of self) }
    {
        match self {
            ChannelState::Off => LineState::Off,
            ChannelState::Ready => LineState::Idle,
            ChannelState::Waiting(_)
            | ChannelState::Ringing(_)
            | ChannelState::Talking(_)
            | ChannelState::Cleared => LineState::Busy,
        }
    }
}

/// What the exchange keeps of one line.
#[derive(Clone, Copy)]
pub struct LogicalChannel {
    /// The state of its logical channel.
    pub state: ChannelState,
    /// The logical channel identifier that every packet to the line carries, 0 to 4,095.
    pub identifier: u16,
    /// How often the line came into service.
    pub connection: u64,
}

impl LogicalChannel {
    /// The identifier of a line that comes into service, and of one that a call is put to.
    pub const INITIAL_IDENTIFIER: u16 = 1;

    /// A line that never was in service.
    pub const OFF: LogicalChannel = LogicalChannel {
        state: ChannelState::Off,
        identifier: 0,
        connection: 0,
    };

    /// Returns the line in this state and with this identifier. Its connection stays.
    pub fn moved_as(self, identifier: u16, state: ChannelState) -> LogicalChannel
        ensures { result ≡ record self { state = state; identifier = identifier } }
    {
        LogicalChannel {
            state,
            identifier,
            connection: self.connection,
        }
    }

    /// Returns the line in this state. Its identifier and its connection stay.
    pub fn moved(self, state: ChannelState) -> LogicalChannel
        ensures { result ≡ record self { state = state } }
    {
        self.moved_as(self.identifier, state)
    }
}
