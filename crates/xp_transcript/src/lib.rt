//! A script replayed for people: its history in words, as a ladder diagram, or as a capture file.
#![tactic(auto)]

mod changed;
mod entry_words;
mod event_words;
mod form;
mod heading;
mod ladder;
mod lines;
mod names;
mod opening;
mod output_words;
mod place;
mod places;
mod record_words;
mod reload;
mod segments;
mod short_words;
mod teller;
mod telling;
mod transcript;

pub use form::Form;
pub use telling::tell;
