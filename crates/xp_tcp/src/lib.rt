//! TCP for the lines of an exchange: each line's listening socket, or the connections between it and its router, and what the
//! threads of lines wait on.
#![tactic(auto)]

mod access;
mod admission;
mod clock;
mod connection_notes;
mod door_sockets;
mod ends;
mod leaving;
mod line_bell;
mod line_listener;
mod line_place;
mod line_places;
mod line_port;
mod line_sockets;
mod link;
mod next_line;
mod next_ports;
mod options;
mod own_port;
mod period;
mod poller;
mod port;
mod refusals;
mod rooms;
mod round;
mod router_connection;
mod router_link;
mod router_port;
mod sockets;
mod source;
mod thread_links;
mod thread_sockets;
mod thread_waits;
mod tokens;

pub use access::Access;
pub use admission::{Admission, AdmissionFault, MOST_SOURCES};
pub use clock::TcpClock;
pub use ends::{Ends, LineEnds};
pub use line_bell::LineBell;
pub use line_places::LinePlaces;
pub use line_port::{LineLink, LinePort};
pub use next_ports::NextPorts;
pub use poller::TcpPoller;
pub use sockets::{ListenFault, Sockets};
pub use source::Source;
pub use xp_door::{
    Caller, CallerRule, Candidate, Choice, ClearedCall, ConnectFault, Dialled, Door, DoorBell,
    DownReason, Notice, Notices, RouterCall, Trace, choose, is_router, line_for,
};
pub use xp_trace::{NamesFault, TracedLines};
