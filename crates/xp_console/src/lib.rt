//! The operator's console of a serving exchange: what it shows of one moment, over HTTP.
#![tactic(auto)]

mod age;
mod asking;
mod client;
mod client_stream;
mod clients;
mod console;
mod hosts;
mod json;
mod json_text;
mod metrics;
mod object;
mod page;
mod refused;
mod reload;
mod reply;
mod requests;
mod responses;
mod service;
mod station_metrics;
mod status;
mod table;
mod turns;
mod words;

pub use asking::{AskFault, ask_reload, ask_status, ask_stop};
pub use client_stream::ClientStream;
pub use clients::{Clients, LONGEST, MOST_CLIENTS};
pub use console::{Console, ConsoleFault};
pub use refused::RefusedCalls;
pub use reload::ReloadAnswer;
pub use requests::{Answer, Format, Resource, answer_to};
pub use service::{ConsoleService, StatusSource};
pub use status::{
    EndedCall, ExchangeStatus, LineState, LineStatus, LiveCall, Party, Payer, ReloadCounts,
    StationCalls, Totals,
};
