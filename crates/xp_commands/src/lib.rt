//! What the program does over files and standard streams, and at a console that serves: it checks a subscription file, replays a script,
//! explains a call request, tells what changes between two files, and asks
//! a console.
#![tactic(auto)]

mod asking;
mod changing;
mod checking;
mod explaining;
mod failure;
mod output;
mod replaying;
mod router_callers;
mod subscribing;

pub use asking::{address_of, ask_console};
pub use changing::{changes_after, print_changes};
pub use checking::check_file;
pub use explaining::{QuestionFault, explain_call};
pub use failure::CommandFailure;
pub use output::print_text;
pub use replaying::replay_script;
pub use subscribing::{file_text, named_file, subscriptions_of};
