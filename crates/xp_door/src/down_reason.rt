//! Why a line has lost its connection.

ghost use Rattle.std.specs.Prelude.{◌≡◌, ◌↔◌, ◌⊎◌};
ghost use Rattle.std.specs.IoError.{error_kind};
ghost use Rattle.xp_door.specs.steps.Notices.{numbered_text, reason_text};

use std::io::ErrorKind;
use std::{fmt, io};

/// Why a line has lost its connection, or has closed it.
#[derive(Clone, Copy)]
pub enum DownReason {
    /// The peer has closed the connection.
    Closed,
    /// The peer has reset the connection.
    Reset,
    /// The peer was not heard of for so many seconds.
    NoAnswer(u16),
    /// No way leads to the peer.
    Unreachable,
    /// The system has told another error of the connection, by this number.
    Failed(u32),
    /// A frame of the peer begins with this version, and not with 0 (RFC 1613).
    Version(u16),
    /// A frame of the peer has this length, and not 3 to 1,028.
    Length(u16),
    /// Another connection took its place.
    Replaced,
    /// The exchange has given it up: the line was out of service, since it did not take its packets as fast as they came, the exchange
    /// ends, memory is wanting, or how the call was cleared can't be told.
    GivenUp,
    /// Other subscriptions came into force: the line is gone, or is connected in another way.
    Reload,
}

impl DownReason {
    /// What an error of a connection says, whose peer is given up after so many seconds of silence.
    pub fn of(error: &io::Error, patience: u16) -> DownReason
        ensures reset { (result ≡ DownReason.Reset) ↔ ((error_kind error.now ≡ ErrorKind.ConnectionReset) ⊎ (error_kind error.now ≡ ErrorKind.BrokenPipe)) }
        ensures no_answer { (result ≡ DownReason.NoAnswer patience) ↔ (error_kind error.now ≡ ErrorKind.TimedOut) }
    {
        match error.kind() {
            ErrorKind::ConnectionReset | ErrorKind::BrokenPipe => DownReason::Reset,
            ErrorKind::TimedOut => DownReason::NoAnswer(patience),
            ErrorKind::HostUnreachable | ErrorKind::NetworkUnreachable | ErrorKind::NetworkDown => {
                DownReason::Unreachable
            }
            _ => DownReason::Failed(number_of(error)),
        }
    }

    /// The words of its text, and the number between them, if it has one.
    fn words(&self) -> (&'static str, Option<u32>, &'static str)
        ensures { numbered_text result.0.now result.1 result.2.now ≡ reason_text self.now }
    {
        match *self {
            DownReason::Closed => ("closed by the peer", None, ""),
            DownReason::Reset => ("reset by the peer", None, ""),
            DownReason::NoAnswer(seconds) => (
                "no answer for ",
                Some(u32::from(seconds)),
                " seconds",
            ),
            DownReason::Unreachable => ("unreachable", None, ""),
            DownReason::Failed(number) => ("connection error ", Some(number), ""),
            DownReason::Version(version) => {
                (
                    "no frame of RFC 1613 (version ",
                    Some(u32::from(version)),
                    " found)",
                )
            }
            DownReason::Length(length) => {
                (
                    "no frame of RFC 1613 (length ",
                    Some(u32::from(length)),
                    " found)",
                )
            }
            DownReason::Replaced => ("replaced by another connection", None, ""),
            DownReason::GivenUp => ("given up by the exchange", None, ""),
            DownReason::Reload => ("ended by a reload", None, ""),
        }
    }
}

/// The system's number of an error, 0 where it has none.
fn number_of(error: &io::Error) -> u32 {
    match error.raw_os_error() {
        Some(number) => u32::try_from(number).unwrap_or(0),
        None => 0,
    }
}

/// The text of the reason, such as `closed by the peer`.
impl fmt::Display for DownReason {
    ghost use Rattle.std.specs.Prelude.{Some};

    ghost output = { λ reason. Some (reason_text reason) };

    fn fmt<W: fmt::Write>(&self, f: &mut fmt::Formatter<W>) -> fmt::Result {
        match self.words() {
            (text, None, _) => f.write_str(text),
            (before, Some(number), after) => write!(f, "{before}{number}{after}"),
        }
    }
}
