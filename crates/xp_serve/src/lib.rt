//! Serving lines over TCP: the threads of all lines run, and each charging record is kept as its call ends.
#![tactic(auto)]

mod attending;
mod beside_door;
mod console_feed;
mod doubt;
mod ends;
mod live_watch;
mod offered;
mod served;
mod serving;
mod stop_input;
mod telling;
mod traced_watch;
mod watching;

pub use attending::{Attending, Watch, serve_attended};
pub use console_feed::{ConsoleFeed, NoConsole};
pub use doubt::settle;
pub use ends::{EarlyEnd, EarlyEndCause};
pub use live_watch::LiveWatch;
pub use offered::{OfferedSubs, SubsSource};
pub use served::{NotServed, Recorded, Served};
pub use serving::{ServeEnd, ServingTerms, TcpLine, TcpThreads, serve, serve_on, thread_inputs};
pub use stop_input::StopInput;
pub use traced_watch::TracedWatch;
pub use watching::OperatorWatch;
pub use xp_limits::Limits;
