//! Call detail records: calls that have ended as lines of CSV, and a writer of them that loses and doubles nothing when writes
//! fail.
#![tactic(auto)]

mod append;
mod batch;
mod cut;
mod detail;
mod disk;
mod ended;
mod fields;
mod file;
mod flush_fault;
mod flushing;
mod giving;
mod handles;
mod last_line;
mod laws;
mod line;
mod moment;
mod opening;
mod progress;
mod record_file;
mod run;
mod tidying;
mod torn;
mod writer;

pub use detail::{HEADER, write_detail, write_header};
pub use ended::{EndedBy, EndedCall, NamedLine};
pub use file::{DetailFile, path_in};
pub use flush_fault::FlushFault;
pub use laws::{
    details_are_read_back, details_need_no_quotes, lines_are_record_texts,
    moment_is_what_a_clock_shows,
};
pub use line::write_record;
pub use moment::read_moment;
pub use opening::{OpenFault, Opened};
pub use record_file::{Place, RecordFile};
pub use run::{ExchangeName, ExchangeRun};
pub use writer::DetailWriter;
