use crate::agreement::Agreement;
use xp_answer::Setup;
use xp_packets::Digits;
use xp_subs::LineNo;

/// What becomes of a line that comes to a state of no call.
#[derive(Clone, Copy)]
pub enum NoCallState {
    /// It goes out of service.
    GoesOut,
    /// It is free for a call.
    IsFree,
    /// It has a clear indication to confirm.
    IsCleared,
}

/// One change of the exchange's state.
#[derive(Drop)]
pub enum Change {
    /// A line comes into service.
    Rise {
        line: LineNo,
    },
    /// A line that is in no call is free for one.
    Free {
        line: LineNo,
    },
    /// A line comes to a state of no call. If it is in a call, the call ends, and the other line of the call is
    /// cleared.
    Leave {
        line: LineNo,
        way: NoCallState,
    },
    /// A call begins. The caller's line takes the identifier of the call request.
    Begin {
        caller: LineNo,
        identifier: u16,
        called: LineNo,
        dialled: Digits,
        setup: Setup,
        /// The moment of the call request, in seconds.
        requested: u64,
    },
    /// A call request is refused. It uses up a call number, and its line is cleared.
    Refuse {
        line: LineNo,
        identifier: u16,
    },
    /// The call that a line is in is accepted.
    Connect {
        line: LineNo,
        agreement: Agreement,
    },
}
