//! The options of a connection, by which the system notices that a peer is gone.

ghost use Rattle.std.specs.Prelude.{◌≡◌, ◌≢◌};
ghost use Rattle.libc.specs.Net.{SockOption};

use libc::net::{
    IPPROTO_TCP, SO_KEEPALIVE, SOL_SOCKET, TCP_KEEPCNT, TCP_KEEPIDLE, TCP_KEEPINTVL,
    TCP_USER_TIMEOUT, setsockopt,
};
use mio::net::TcpStream;
use std::io;
use std::os::fd::{AsRawFd, RawFd};

/// How soon a peer that is gone ends its connection.
#[derive(Clone, Copy)]
pub(crate) enum Patience {
    /// Within 90 seconds.
    Line,
    /// Within 30 seconds.
    Router,
}

impl Patience {
    /// The seconds after which it ends at the latest.
    pub(crate) fn seconds(self) -> u16 {
        match self {
            Patience::Line => 90,
            Patience::Router => 30,
        }
    }
}

/// How many octets an option's value has.
const VALUE_LENGTH: u32 = 4;

/// An option of a connection. Together they end a connection whose peer has not answered for so long.
#[derive(Clone, Copy)]
enum PeerOption {
    /// The system asks a peer that is silent whether it is still there.
    Probes,
    /// The silence in seconds after which it asks.
    Silence,
    /// The seconds between two questions.
    Interval,
    /// How many questions stay without an answer before the connection ends.
    Count,
    /// The milliseconds that octets may stay unacknowledged before the connection ends.
    Unacknowledged,
}

impl PeerOption {
    const ALL: [PeerOption; 5] = [
        PeerOption::Probes,
        PeerOption::Silence,
        PeerOption::Interval,
        PeerOption::Count,
        PeerOption::Unacknowledged,
    ];

    /// The system's level and name of the option.
    fn level_and_name(self) -> (i32, i32)
        ensures { SockOption result.0 result.1 }
    {
        match self {
            PeerOption::Probes => (SOL_SOCKET, SO_KEEPALIVE),
            PeerOption::Silence => (IPPROTO_TCP, TCP_KEEPIDLE),
            PeerOption::Interval => (IPPROTO_TCP, TCP_KEEPINTVL),
            PeerOption::Count => (IPPROTO_TCP, TCP_KEEPCNT),
            PeerOption::Unacknowledged => (IPPROTO_TCP, TCP_USER_TIMEOUT),
        }
    }

    fn value(self, patience: Patience) -> u32 {
        match (self, patience) {
            (PeerOption::Probes, _) => 1,
            (PeerOption::Silence, Patience::Line) => 60,
            (PeerOption::Silence, Patience::Router) => 15,
            (PeerOption::Interval, Patience::Line) => 10,
            (PeerOption::Interval, Patience::Router) => 5,
            (PeerOption::Count, _) => 3,
            (PeerOption::Unacknowledged, _) => u32::from(patience.seconds()) * 1_000,
        }
    }

    /// Gives a socket the option.
    fn set(self, socket: RawFd, patience: Patience) -> io::Result<()> {
        let mut value = [0; 16];
        value[..VALUE_LENGTH as usize].copy_from_slice(&self.value(patience).to_le_bytes());
        let (level, name) = self.level_and_name();
        let status = unsafe { setsockopt(socket, level, name, &value, VALUE_LENGTH) };
        if status < 0 {
            return Err(io::Error::from_raw_os_error(os::errno()));
        }
        Ok(())
    }
}

/// Lets the system end a connection whose peer is gone: within this time, whether octets wait to be acknowledged or not.
pub(crate) fn notice_dead_peer(stream: &TcpStream, patience: Patience) -> io::Result<()> {
    for option in PeerOption::ALL {
        option.set(stream.as_raw_fd(), patience)?;
    }
    Ok(())
}
