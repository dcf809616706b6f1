//! What is told of lines that were served.

ghost use Rattle.std.specs.Prelude.{◌≡◌, ◌<◌, IfSome};
ghost use Rattle.xp_serve.specs.Serving.{Tells};
ghost use Rattle.xp_subs.specs.Tables.{line_count};

use crate::served::Served;
use xp_keeping::RecordKeeper;
use xp_listening::ServeFailure;

/// Keeps the charging records that were not handed over while the lines were served, and tells the lowest line that ended
/// before its time.
///
/// # Errors
///
/// What that line told. Where not all records could be kept, what the keeper told.
pub(crate) fn tell<K: RecordKeeper>(served: &Served, keeper: &mut K) -> Result<(), ServeFailure>
    requires early_end { IfSome served.now.early_end (λ early_end. early_end.line < line_count served.now.book.subs) }
    requires lines { K.lines keeper.old ≡ line_count served.now.book.subs }
    requires received { K.received keeper.old ≡ served.now.book.given }
    ensures { Tells K.kept K.keeps served.now keeper.old keeper.new result }
{
    keeper.finish(served.book.records())?;
    match served.early_end {
        Some(early_end) => Err(early_end.failure(served.book.in_force())),
        None => Ok(()),
    }
}
