//! The words of a notice's text.

use crate::calls::ClearedCall;
use crate::connect_fault::ConnectFault;
use crate::down_reason::DownReason;
use std::fmt;
use std::net::SocketAddr;

/// The text of a notice: words, what it tells of, and words after that.
#[derive(Clone, Copy)]
pub(crate) struct Words(
    pub(crate) &'static str,
    pub(crate) Subject,
    pub(crate) &'static str,
);

/// What a notice tells of.
#[derive(Clone, Copy)]
pub(crate) enum Subject {
    Peer(SocketAddr),
    /// So many connections.
    Count(u64),
    Reason(DownReason),
    Fault(ConnectFault),
    Call(ClearedCall),
    /// Nothing that its words do not say.
    Nothing,
}

impl fmt::Display for Subject {
    ghost use Rattle.std.specs.Prelude.{Some};
    ghost use Rattle.xp_door.specs.steps.Notices.{subject_text};

    ghost output = { λ subject. Some (subject_text subject) };

    fn fmt<W: fmt::Write>(&self, f: &mut fmt::Formatter<W>) -> fmt::Result {
        match self {
            Subject::Peer(peer) => fmt::Display::fmt(peer, f),
            Subject::Count(count) => fmt::Display::fmt(count, f),
            Subject::Reason(reason) => fmt::Display::fmt(reason, f),
            Subject::Fault(fault) => fmt::Display::fmt(fault, f),
            Subject::Call(call) => fmt::Display::fmt(call, f),
            Subject::Nothing => Ok(()),
        }
    }
}
