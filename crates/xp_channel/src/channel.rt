ghost use Rattle.std.specs.Prelude.{◌≡◌};
ghost use Rattle.xp_channel.specs.Table.{cell};
ghost use Rattle.xp_channel.specs.steps.Table.{invalid};
ghost use Rattle.xp_channel.specs.declared.kind.EventKind.TheVariants.{Clear, Malformed};

use crate::action::Action;
use crate::kind::EventKind;
use xp_causes::diagnostic::{INVALID_IN_P1, INVALID_IN_P2, INVALID_IN_P3, INVALID_IN_P4};

/// The state of a line's logical channel (X.25 Annex B).
#[derive(Clone, Copy, Debug, PartialEq, Eq)]
pub enum Channel {
    /// Out of service: no connection.
    Off,
    /// p1, ready.
    P1,
    /// p2, DTE waiting: the line has requested a call.
    P2,
    /// p3, DCE waiting: the line has an incoming call to answer.
    P3,
    /// p4, data transfer.
    P4,
    /// p7, DCE clear indication: the line has not confirmed the clear indication yet.
    P7,
}

impl Channel {
    /// Returns the action that an event of this kind causes. The state that the line then comes to is that of the
    /// definition `state_after`: the change that the action makes leads to it, so it is not worked out here.
    pub fn on_packet(self, kind: EventKind) -> Action
        ensures { result ≡ cell self kind }
    {
        match kind {
            EventKind::Up => match self {
                Channel::Off => Action::Rise,
                _ => Action::Nothing,
            },
            EventKind::Down => match self {
                Channel::Off => Action::Nothing,
                _ => Action::Fall,
            },
            EventKind::Call => match self {
                Channel::P1 => Action::NewCall,
                Channel::P3 => Action::Collision,
                _ => self.out_of_place(),
            },
            EventKind::Accepted => match self {
                Channel::P3 => Action::Answer,
                _ => self.out_of_place(),
            },
            EventKind::Clear => self.clear(),
            EventKind::ClearConfirm => match self {
                Channel::P7 => Action::Free,
                _ => self.out_of_place(),
            },
            EventKind::Relayed => match self {
                Channel::P4 => Action::Relayed,
                _ => self.out_of_place(),
            },
            EventKind::Expire => match self {
                Channel::P3 => Action::Expired,
                _ => Action::Nothing,
            },
            EventKind::Malformed(diagnostic) => self.error(diagnostic),
        }
    }

    // The action for a clear request. In p7 the two clears cross, and the exchange confirms neither (X.25 clause
    // 4.1.7).
    fn clear(self) -> Action
        ensures { result ≡ cell self Clear }
    {
        match self {
            Channel::Off => Action::Nothing,
            Channel::P7 => Action::Free,
            Channel::P1 | Channel::P2 | Channel::P3 | Channel::P4 => Action::Confirm,
        }
    }

    // An error with this diagnostic, if the line is in service and has no clear indication to confirm. Otherwise
    // nothing.
    fn error(self, diagnostic: u8) -> Action
        ensures { result ≡ cell self (Malformed diagnostic) }
    {
        match self {
            Channel::Off | Channel::P7 => Action::Nothing,
            Channel::P1 | Channel::P2 | Channel::P3 | Channel::P4 => Action::Error(diagnostic),
        }
    }

    // The action for a packet that the state does not allow.
    fn out_of_place(self) -> Action
        ensures { result ≡ invalid self }
    {
        match self {
            Channel::Off | Channel::P7 => Action::Nothing,
            Channel::P1 => Action::Error(INVALID_IN_P1),
            Channel::P2 => Action::Error(INVALID_IN_P2),
            Channel::P3 => Action::Error(INVALID_IN_P3),
            Channel::P4 => Action::Error(INVALID_IN_P4),
        }
    }
}
