//! What the threads of the lines leave once all have ended.

use crate::ends::EarlyEnd;
use xp_lines::EndReason;
use xp_lock::Book;
use xp_sink::RecordSink;

/// What the threads of the lines leave once all have ended.
#[derive(Drop)]
pub struct Served {
    /// The book of the closed exchange.
    pub book: Book,
    /// Why each line ended, in the order of lines.
    pub end_reasons: Vec<EndReason>,
    /// The lowest line that ended before its time.
    pub early_end: Option<EarlyEnd>,
}

/// What was served, and the sink that was given the charging records.
#[derive(Drop)]
pub struct Recorded<S: RecordSink> {
    pub served: Served,
    pub sink: S,
}

/// An allocation failed, and no line was served. The sink comes back.
#[derive(Drop)]
pub struct NotServed<S: RecordSink> {
    pub sink: S,
}
