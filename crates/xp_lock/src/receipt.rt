//! The result of accepting an event.

ghost use Rattle.std.specs.Prelude.{◌≡◌, ◌<◌, length};
ghost use Rattle.xp_subs.specs.Tables.{line_count};
ghost use Rattle.xp_step.specs.Exchange.{world_of};
ghost use Rattle.xp_core.specs.Records.{records_of};
ghost use Rattle.xp_machine.specs.World.{line_at};

use crate::given::GivenLines;
use std::alloc::Allocator;
use xp_core::Core;
use xp_subs::LineNo;

/// The result of accepting an event.
#[derive(Drop)]
pub struct Receipt {
    entry: u64,
    records: u64,
    connection: u64,
    given: GivenLines,
}

impl Receipt {
    /// The receipt of an event of this line, as it and the stalls that it forced are entered. Its entry has this number, and
    /// something was put out to these lines.
    pub(crate) fn new<A: Allocator>(
        entry: u64,
        core: &Core<A>,
        line: LineNo,
        given: GivenLines,
    ) -> Receipt
        requires line { line < line_count core.now.subs }
        ensures entry { result.entry ≡ entry }
        ensures records { result.records ≡ length (records_of core.now.history) }
        ensures connection { result.connection ≡ (line_at (world_of core.now) line).connection }
        ensures given { result.given.items ≡ given.items }
    {
        Receipt {
            entry,
            records: core.record_count(),
            connection: core.line(line).connection,
            given,
        }
    }

    /// Returns the number of the event's entry. The first entry of a history has number 1.
    pub fn entry(&self) -> u64
        ensures { result ≡ self.now.entry }
    {
        self.entry
    }

    /// Returns how many charging records the history has.
    pub fn records(&self) -> u64
        ensures { result ≡ self.now.records }
    {
        self.records
    }

    /// Returns how often the event's line has come into service.
    pub fn connection(&self) -> u64
        ensures { result ≡ self.now.connection }
    {
        self.connection
    }

    /// Returns the lines to which the event, or a stall that it forced, put something out, each once.
    pub fn given(&self) -> &[LineNo]
        ensures { result.now ≡ self.now.given.items }
    {
        self.given.as_slice()
    }
}
