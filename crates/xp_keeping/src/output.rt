//! Standard output, as charging records are written on it.

use libc::net::{POLLOUT, poll};
use libc::types::pollfd;
use std::io;
use std::io::{ErrorKind, Write};

/// The descriptor of standard output.
const STANDARD_OUTPUT: i32 = 1;

/// For how long standard output is waited for at a time, in milliseconds.
const PATIENCE: i32 = 10_000;

/// How many octets a pipe takes at once that takes any.
const PIECE: usize = 4_096;

/// Standard output. A write waits until somebody reads.
#[derive(Drop)]
pub struct StandardOutput<R: Print> {
    rt: R,
}

impl<R: Print> StandardOutput<R> {
    pub fn new(rt: R) -> StandardOutput<R> {
        StandardOutput { rt }
    }
}

impl<R: Print> Write for StandardOutput<R> {
    fn write(&mut self, octets: &[u8]) -> io::Result<usize> {
        io::writer(&self.rt).write(octets)
    }

    fn flush(&mut self) -> io::Result<()> {
        Ok(())
    }
}

/// Standard output, of which a write fails that takes nothing for ten seconds.
#[derive(Drop)]
pub struct PatientOutput<R: Print> {
    rt: R,
}

impl<R: Print> PatientOutput<R> {
    pub fn new(rt: R) -> PatientOutput<R> {
        PatientOutput { rt }
    }
}

impl<R: Print> Write for PatientOutput<R> {
    fn write(&mut self, octets: &[u8]) -> io::Result<usize> {
        if !takes_octets() {
            return Err(io::Error::from(ErrorKind::TimedOut));
        }
        let count = octets.len().min(PIECE);
        io::writer(&self.rt).write(&octets[..count])
    }

    fn flush(&mut self) -> io::Result<()> {
        Ok(())
    }
}

/// Whether standard output takes octets, or fails, within the patience.
fn takes_octets() -> bool {
    let mut ready = [pollfd {
        fd: STANDARD_OUTPUT,
        events: POLLOUT,
        revents: 0,
    }];
    poll(&mut ready, PATIENCE) > 0
}
