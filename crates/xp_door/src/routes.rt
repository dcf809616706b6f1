//! The lines behind routers, as the door looks them up.

use crate::hosts::is_same_host;
use crate::lines_behind::{Given, LinesBehind};
use crate::routed_line::RoutedLine;
use crate::router_call::RouterCall;
use crate::router_line::Arrival;
use std::alloc::{AllocError, Global};
use std::net::IpAddr;
use xp_causes::Refusal;

/// The lines behind routers, in the order of the routers' addresses, and behind each router in the order in which they were given.
#[derive(Drop)]
pub struct Routes {
    routers: Vec<LinesBehind>,
}

impl Routes {
    /// The routes to these lines.
    ///
    /// # Errors
    ///
    /// `AllocError` if an allocation fails.
    pub fn new(alloc: Global, lines: Vec<RoutedLine>) -> Result<Routes, AllocError> {
        let mut sorted = lines;
        sorted.sort_by_key(|line| line.router.ip().to_canonical())?;
        let mut routers = Vec::new(alloc);
        for lines in sorted.chunk_by(|one, other| is_same_host(
            one.router.ip(),
            other.router.ip(),
        )) {
            if let Some(first) = lines.first() {
                routers.push(LinesBehind::new(alloc, first.router.ip(), lines)?)?;
            }
        }
        Ok(Routes { routers })
    }

    /// Whether a line is behind the router with this address.
    pub(crate) fn has(&self, router: IpAddr) -> bool {
        self.place_behind(router).is_some()
    }

    /// Gives a connection to the line behind its router that takes its call, or where it opens with no call request, to the first that
    /// is free.
    pub(crate) fn give(&mut self, arrival: Arrival, call: &Option<RouterCall>) -> Given {
        let Some(place) = self.place_behind(arrival.peer.ip()) else {
            return Given::Refused(arrival, Refusal::CALLER_NOT_KNOWN);
        };
        match self.routers.get_mut(place) {
            Some(behind) => behind.give(arrival, call),
            None => Given::Refused(arrival, Refusal::CALLER_NOT_KNOWN),
        }
    }

    /// The place of the lines that are behind the router with this address. `None` where there are none.
    fn place_behind(&self, router: IpAddr) -> Option<usize> {
        let router = router.to_canonical();
        self.routers
            .binary_search_by_key(&router, |behind| behind.router)
            .ok()
    }
}
