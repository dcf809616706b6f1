//! Why no connection to a router could be made.

use std::io::ErrorKind;
use std::{fmt, io};

/// Why no connection to a router could be made.
#[derive(Clone, Copy)]
pub enum ConnectFault {
    /// The router refuses connections at its port.
    Refused,
    /// No way leads to the router.
    Unreachable,
    /// The router has not answered in time.
    NoAnswer,
    /// The system has no socket or no port for the connection.
    NoSocket,
}

impl ConnectFault {
    /// What an error of the system says.
    pub fn of(error: &io::Error) -> ConnectFault {
        match error.kind() {
            ErrorKind::ConnectionRefused | ErrorKind::ConnectionReset => ConnectFault::Refused,
            ErrorKind::HostUnreachable | ErrorKind::NetworkUnreachable | ErrorKind::NetworkDown =>
                ConnectFault::Unreachable,
            ErrorKind::TimedOut => ConnectFault::NoAnswer,
            _ => ConnectFault::NoSocket,
        }
    }
}

impl fmt::Display for ConnectFault {
    ghost use Rattle.std.specs.Prelude.{Some};
    ghost use Rattle.xp_door.specs.steps.Notices.{fault_text};

    ghost output = { λ fault. Some (fault_text fault) };

    fn fmt<W: fmt::Write>(&self, f: &mut fmt::Formatter<W>) -> fmt::Result {
        f.write_str(match self {
            ConnectFault::Refused => "refused",
            ConnectFault::Unreachable => "unreachable",
            ConnectFault::NoAnswer => "no answer",
            ConnectFault::NoSocket => "no socket",
        })
    }
}
