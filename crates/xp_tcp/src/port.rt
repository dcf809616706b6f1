//! Where the links of a line with a port of its own come from.

use crate::line_listener::{MOST_TAKEN, NoConnection};
use crate::line_place::LinePlace;
use crate::line_port::{KindOfLink, LineLink};
use crate::link::TcpLink;
use crate::own_port::OwnArrival;
use std::sync::Arc;
use xp_links::Arrived;

/// The next link of the line in this place, if a connection has come to its own port.
pub(crate) fn next_of_port(place: &Arc<LinePlace>) -> Arrived<LineLink> {
    place.own.tell_left_out();
    if let Some(link) = replacing_link(place) {
        return Arrived::Came(link);
    }
    for _taken in 0..MOST_TAKEN {
        match place.own.accept() {
            Ok(arrival) => {
                if let Some(link) = link_of(place, arrival) {
                    return Arrived::Came(link);
                }
            }
            Err(NoConnection::Passed) => {}
            Err(NoConnection::Nothing) => return Arrived::Nothing,
            Err(NoConnection::Fault) => return Arrived::Fault,
        }
    }
    // More may wait, of which the system tells only once: the thread is not to sleep before it has looked again.
    place.own.look_again();
    Arrived::Nothing
}

/// The link of the connection that took the place of the line's last one. `None` where none did, or where it has failed already.
fn replacing_link(place: &Arc<LinePlace>) -> Option<LineLink> {
    link_of(place, place.own.take_next()?)
}

/// The link of a connection, which counts for the period in which it came. `None` where the connection has failed already.
fn link_of(place: &Arc<LinePlace>, own: OwnArrival) -> Option<LineLink> {
    let OwnArrival { arrival, period } = own;
    let link = TcpLink::new(arrival, Arc::try_clone(place).ok()?).ok()?;
    Some(LineLink {
        period,
        link: KindOfLink::Own(link),
    })
}
