//! Where the connections of a line come from.

use std::net::SocketAddr;

/// Where the connections of a line come from.
#[derive(Clone, Copy)]
pub enum Access {
    /// They come to a TCP port of the line's own.
    Port(u16),
    /// They come from a router, or are made to it, at this address and port: one for each call (RFC 1613).
    Router(SocketAddr),
    /// No line is here, and no connection comes.
    Spare,
}
