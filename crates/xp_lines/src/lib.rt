//! The threads of lines.
//!
//! A thread serves some of the lines, in turn. It takes the connections of a line from the line's port, one at a time. It reads
//! packets from the connection and offers them to the exchange, and it writes to the connection the packets that the exchange puts
//! out to the line. [`serve_all`] starts the threads, and [`turn`] is one turn of a line
//! on a connection, which is called a link here. The thread that calls [`serve_all`] hands the charging records to a
//! [`xp_sink::RecordSink`] as calls end. Where the sink asks for a stop, each line offers the Down of its link, writes what still waits
//! for the link, and ends.
#![tactic(auto)]

mod answer_timer;
mod closing;
mod ends;
mod flow;
mod groups;
mod laws;
mod line;
mod line_state;
mod over;
mod recording;
mod rounds;
mod seat;
mod served_line;
mod session;
mod shared;
mod signals;
mod threads;
mod turning;
mod waiting;

pub use flow::{Flow, push_rest};
pub use laws::{links_add_up, turns_add_up};
pub use line::{EndReason, LineEnd};
pub use over::Over;
pub use recording::RecordPath;
pub use seat::Seat;
pub use served_line::LineInputs;
pub use session::Session;
pub use shared::Shared;
pub use signals::Signals;
pub use threads::{LinesServed, LinesToServe, ServeFault, serve_all};
pub use turning::{TurnOutcome, Turned, turn};
pub use waiting::Waiting;
