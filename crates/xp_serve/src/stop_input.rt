//! A pipe whose end asks serving to stop, and through which other subscriptions are asked for.

use libc::net::{POLLIN, poll};
use libc::types::pollfd;
use std::io;
use std::io::ErrorKind;

/// The descriptor of standard input.
const STANDARD_INPUT: i32 = 0;

/// How many octets are read at once.
const PIECE: usize = 512;

/// A signal of whose coming the launcher tells before it closes the pipe, by a line with the rest of its name.
#[derive(Clone, Copy, PartialEq, Eq)]
enum Signal {
    Interrupt,
    Terminate,
    HangUp,
}

impl Signal {
    /// The signal of which these octets tell, if they do.
    fn in_octets(octets: &[u8]) -> Option<Signal> {
        if octets.starts_with(b"INT") {
            Some(Signal::Interrupt)
        } else if octets.starts_with(b"TERM") {
            Some(Signal::Terminate)
        } else if octets.starts_with(b"HUP") {
            Some(Signal::HangUp)
        } else {
            None
        }
    }
}

/// The line that asks for other subscriptions.
const RELOAD: &[u8] = b"reload";

/// Standard input, as a pipe that whoever started the program holds open. Where it ends, serving is to stop: the pipe was closed,
/// or who held it has ended. The launcher tells of a signal through it, and asks for other subscriptions by a line `reload`.
#[derive(Clone, Copy, Default)]
pub struct StopInput {
    has_ended: bool,
    /// Whether other subscriptions were asked for.
    asks_for_reload: bool,
    /// The signal that the launcher has told of.
    signal: Option<Signal>,
}

impl StopInput {
    /// Whether standard input has ended. It does not wait. What came is dropped, but for the name of a signal and the line that
    /// asks for other subscriptions.
    pub fn has_ended(&mut self) -> bool {
        if !self.has_ended && has_something() {
            self.read();
        }
        self.has_ended
    }

    /// Why serving is to stop, once standard input has ended.
    pub fn reason(&self) -> &'static str {
        match self.signal {
            Some(Signal::Interrupt) => "SIGINT",
            Some(Signal::Terminate) => "SIGTERM",
            Some(Signal::HangUp) => "SIGHUP",
            None => "standard input has ended",
        }
    }

    /// Takes the request for other subscriptions, if one came.
    pub fn takes_reload(&mut self) -> bool {
        let asks = self.asks_for_reload;
        self.asks_for_reload = false;
        asks
    }

    /// Reads once. It is at its end where there was nothing more, or the input is broken.
    fn read(&mut self) {
        let mut octets = [0; PIECE];
        match libc::read(STANDARD_INPUT, &mut octets) {
            0 => self.has_ended = true,
            count if count > 0 => self.take_lines(&octets),
            _ => self.has_ended = is_broken(),
        }
    }

    /// Takes note of the lines that came.
    fn take_lines(&mut self, octets: &[u8]) {
        for line in octets.split(|octet| *octet == b'\n') {
            if line == RELOAD {
                self.asks_for_reload = true;
            }
            self.signal = Signal::in_octets(line).or(self.signal);
        }
    }
}

/// Whether a read of standard input gives something at once, if only its end.
fn has_something() -> bool {
    let mut ready = [pollfd {
        fd: STANDARD_INPUT,
        events: POLLIN,
        revents: 0,
    }];
    poll(&mut ready, 0) > 0
}

/// Whether a read that failed says that the input is broken.
fn is_broken() -> bool {
    !matches!(
        io::Error::from_raw_os_error(os::errno()).kind(),
        ErrorKind::Interrupted | ErrorKind::WouldBlock
    )
}
