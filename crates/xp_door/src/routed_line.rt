//! A line behind a router.

use crate::choosing::Caller;
use crate::router_line::RouterLine;
use std::net::SocketAddr;
use std::sync::Arc;

/// A line, and what it has of the router that it is behind.
#[derive(Drop)]
pub struct RoutedLine {
    pub line: Arc<RouterLine>,
    /// Where the router takes connections. It makes its own from this address, and any port.
    pub router: SocketAddr,
    /// What the calls of the router are matched with.
    pub caller: Caller,
}
