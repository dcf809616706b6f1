//! Where the links of a line behind a router come from.

use crate::line_place::LinePlace;
use crate::line_port::{KindOfLink, LineLink};
use crate::router_link::RouterLink;
use std::sync::Arc;
use xp_links::Arrived;

/// The next link of the line in this place, which is behind a router, in this period of the place. It comes as soon as the last went: so
/// the line is in service. None comes for once after one that was not used: the line could not come into service, and its thread is to
/// let time pass.
pub(crate) fn next_of_router(place: &Arc<LinePlace>, period: u64) -> Arrived<LineLink> {
    if place.behind.take_unused() {
        return Arrived::Nothing;
    }
    match Arc::try_clone(place) {
        Ok(place) => Arrived::Came(LineLink {
            period,
            link: KindOfLink::Router(RouterLink::new(place)),
        }),
        Err(_) => Arrived::Nothing,
    }
}
