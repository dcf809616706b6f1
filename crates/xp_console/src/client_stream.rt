//! What a client's connection is over.

use mio::net::TcpStream;
use std::io;
use std::io::{Read, Write};
use std::net::Shutdown;

/// A stream that does not block.
pub trait ClientStream: Read + Write + Drop {
    /// Says that nothing more will be written.
    fn finish(&mut self) -> io::Result<()>;
}

impl ClientStream for TcpStream {
    fn finish(&mut self) -> io::Result<()> {
        self.shutdown(Shutdown::Write)
    }
}
