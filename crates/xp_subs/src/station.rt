ghost use Rattle.std.specs.Prelude.{◌≡◌};
ghost use Rattle.xp_subs.specs.Tables.{no_station};

use crate::limits::{MOST_GROUPS_OF_STATION, MOST_LINES_OF_STATION};
use crate::{GroupNo, LineNo};
use arrayvec::ArrayVec;
use xp_file::{Facilities, Redirection};
use xp_packets::Digits;

/// A station's membership of a closed user group, and whether calls within the group are barred to it (X.25 clauses
/// 6.14.1, 6.14.4 and 6.14.5).
#[derive(Clone, Copy, Default)]
pub struct Membership {
    pub group: GroupNo,
    /// The index by which the station selects the group, 0 to 9,999.
    pub index: u16,
    /// Outgoing calls barred within the group.
    pub outgoing_barred: bool,
    /// Incoming calls barred within the group.
    pub incoming_barred: bool,
}

/// A station with the optional facilities that it has subscribed to (X.25 clause 6).
#[derive(Drop)]
pub struct Station {
    /// The address, 1 to 15 digits.
    pub address: Digits,
    /// Its lines in the order of the file, at least one.
    pub lines: ArrayVec<LineNo, MOST_LINES_OF_STATION>,
    /// The facilities that it has subscribed to.
    pub facilities: Facilities,
    /// The index of the preferential group. It is the index of one of the memberships.
    pub preferential: Option<u16>,
    /// Whether it takes the calls of its routers whose calling address is missing, or is that of no station behind the router.
    pub default_caller: bool,
    /// Its closed user groups.
    pub memberships: ArrayVec<Membership, MOST_GROUPS_OF_STATION>,
    /// Where its calls are redirected, if they are (X.25 clause 6.25.1).
    pub redirect: Option<Redirection>,
}

impl Station {
    /// In place of a station that does not exist: it has no address and no lines, and calls neither leave nor reach it.
    pub(crate) fn nobody() -> Station
        ensures { result ≡ no_station }
    {
        Station {
            address: Digits::new(),
            lines: ArrayVec::new(),
            facilities: Facilities {
                outgoing_barred: true,
                incoming_barred: true,
                reverse_charging: false,
                fast_select: false,
                outgoing_access: false,
                incoming_access: false,
            },
            preferential: None,
            default_caller: false,
            memberships: ArrayVec::new(),
            redirect: None,
        }
    }
}
