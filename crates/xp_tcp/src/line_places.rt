//! The places of lines, which get, change and lose their ports and routers while the lines are served.

use crate::line_place::LinePlace;
use std::sync::{Arc, OnceLock};
use xp_door::{Doorway, Notices};

/// The places of lines as they are served, and where it is told what becomes of their connections. Whoever has it can change the
/// ports and routers of the places, by [`NextPorts`](crate::NextPorts).
#[derive(Drop)]
pub struct LinePlaces {
    pub notices: Arc<Notices>,
    served: OnceLock<ServedPlaces>,
}

/// The places of lines, in line order, and the door for the routers.
#[derive(Drop)]
pub(crate) struct ServedPlaces {
    pub(crate) lines: Vec<Arc<LinePlace>>,
    pub(crate) door: Option<Arc<Doorway>>,
}

impl LinePlaces {
    /// The places of lines that are to be served. They are known from [`Sockets::into_ends`](crate::Sockets::into_ends) on.
    pub fn new(notices: Arc<Notices>) -> LinePlaces {
        LinePlaces {
            notices,
            served: OnceLock::new(),
        }
    }

    /// These are the places. It counts once.
    pub(crate) fn serve(&self, places: ServedPlaces) {
        let _ = self.served.try_set(places);
    }

    /// The door for the routers, if there is one.
    pub(crate) fn door(&self) -> Option<&Arc<Doorway>> {
        self.served()?.door.as_ref()
    }

    /// The places, if they are known.
    pub(crate) fn served(&self) -> Option<&ServedPlaces> {
        self.served.get()
    }
}
