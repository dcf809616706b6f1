//! The door that routers connect to, and what its thread and those of the lines share: how they wake one another, what they tell
//! an operator, and where each line behind a router is with its connection.
#![tactic(auto)]

mod callers;
mod calls;
mod choosing;
mod connect_fault;
mod dialled;
mod door;
mod door_bell;
mod doorway;
mod down_reason;
mod hosts;
mod lines_behind;
mod locks;
mod marks;
mod notice_words;
mod notices;
mod opening;
mod packet_fronts;
mod refused_calls;
mod routed_line;
mod router_call;
mod router_line;
mod routes;
mod share;
mod tap;
mod trace;
mod traffic;
mod wakers;
mod want;

pub use calls::{AskedCall, CallNotes, ClearedCall, after_received, after_sent, told_of};
pub use choosing::{Caller, CallerRule, Candidate, Choice, choose, is_router, line_for};
pub use connect_fault::ConnectFault;
pub use dialled::Dialled;
pub use door::{Door, DoorWaits};
pub use door_bell::DoorBell;
pub use doorway::Doorway;
pub use down_reason::DownReason;
pub use hosts::is_same_host;
pub use locks::hold;
pub use marks::{Marks, push_ones};
pub use notices::{Notice, Notices};
pub use opening::{Opening, opening_of};
pub use routed_line::RoutedLine;
pub use router_call::RouterCall;
pub use router_line::{Arrival, Attempt, RouterLine};
pub use routes::Routes;
pub use share::LineShare;
pub use tap::Tap;
pub use trace::Trace;
pub use wakers::{LineWaker, ThreadWaker};
pub use want::is_in_want;
