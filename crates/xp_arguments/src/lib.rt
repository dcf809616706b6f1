//! The command line of the program: its subcommands, and what they are given.
#![tactic(auto)]

mod addresses;
mod arguments;
mod details_order;
mod laws;
mod misfits;
mod names;
mod replay_order;
mod rows;
mod serve_order;
mod source;
mod subcommand;
mod texts;

pub use addresses::{console_address, no_console_address};
pub use arguments::{Arguments, refused};
pub use details_order::DetailsOrder;
pub use laws::errands_can_be_asked_for;
pub use replay_order::{NamedPath, ReplayForm, ReplayOrder};
pub use serve_order::{ServeOrder, TraceOrder};
pub use source::FileSource;
pub use subcommand::{
    CheckDepth, CheckForm, CheckOrder, ConsoleRequest, QuestionOrder, Subcommand, Verb,
};
