//! A summary of a subscription file, for a person to check.
#![tactic(auto)]

mod by_group;
mod default_callers;
mod line_warning_text;
mod matrix;
mod open_ports;
mod reach;
mod redirections;
mod spare_lines;
mod station_warnings;
mod stations;
mod summary_text;
mod warning_text;

pub use by_group::{calls_outside, is_called_from_outside, makes_calls, takes_calls};
pub use default_callers::{has_no_default_caller, is_alone_behind};
pub use matrix::fields;
pub use open_ports::{is_loopback_host, is_open};
pub use reach::{
    Reach, calls_without_redirection_are_decided_alike, reach_between, reach_is_determined,
};
pub use redirections::{alternate_of_nobody, is_in_circle, redirects_never};
pub use spare_lines::spare_count;
pub use station_warnings::{
    StationWarnings, barred_preferential, is_alone, needs_selection, warnings,
};
pub use summary_text::summary;
