//! What goes on beside the lines that are served.

ghost use Rattle.std.specs.Prelude.{◌≡◌, None};

use crate::serving::ServedFile;
use std::sync::Wait;
use xp_live::LiveKeeper;
use xp_readiness::Tracing;

/// What goes on beside the lines.
pub(crate) struct Beside<R: Wait> {
    pub(crate) tracing: Tracing<R>,
    /// What keeps the live calls in a file, if anything does.
    pub(crate) live: Option<LiveKeeper<R>>,
    /// How many calls of the run before got a partial record.
    pub(crate) partial_records: u64,
    /// Where other subscriptions come from.
    pub(crate) file: ServedFile,
}

impl<R: Drop + Wait> Drop for Beside<R> {
    fn drop(self) {
        let Beside {
            tracing: _,
            live: _,
            partial_records: _,
            file: _,
        } = self;
    }
}

impl<R: Drop + Wait> Beside<R> {
    /// This trace, and this file, beside lines whose live calls are not kept.
    pub(crate) fn new(tracing: Tracing<R>, file: ServedFile) -> Beside<R>
        ensures { result.live ≡ None }
    {
        Beside {
            tracing,
            live: None,
            partial_records: 0,
            file,
        }
    }

    /// This, beside lines whose live calls this keeps, if anything does. So many calls of the run before got a partial record.
    pub(crate) fn with_live(self, live: Option<LiveKeeper<R>>, partial_records: u64) -> Beside<R>
        ensures { result.live ≡ live }
    {
        let Beside {
            tracing,
            live: _,
            partial_records: _,
            file,
        } = self;
        Beside {
            tracing,
            live,
            partial_records,
            file,
        }
    }

    /// The trace, what keeps the live calls, the number of partial records, and where other subscriptions come from.
    pub(crate) fn into_parts(self) -> (Tracing<R>, Option<LiveKeeper<R>>, u64, ServedFile)
        ensures { result.1 ≡ self.live }
    {
        let Beside {
            tracing,
            live,
            partial_records,
            file,
        } = self;
        (tracing, live, partial_records, file)
    }
}
