//! Call detail records by the day: a file for each, in one directory.
#![tactic(auto)]

mod day;
mod day_files;
mod newest;

pub use day::{day_of, file_name};
pub use day_files::{DayFiles, open_newest};
pub use newest::{DayFile, file_before, newest_file};
