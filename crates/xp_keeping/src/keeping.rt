//! Keeping the charging records of a run.

ghost use Rattle.std.specs.Prelude.{◌≡◌, ◌==◌, ◌++◌, All, if◌then◌else◌, map};
ghost use Rattle.xp_cdr.specs.Ended.{ended_as};
ghost use Rattle.xp_charge.specs.Lines.{HasLines};
ghost use Rattle.xp_keeping.specs.Kept.{KeepsAll};
ghost use Rattle.xp_subs.specs.Tables.{line_count};

use crate::keep_fault::KeepFault;
use xp_cdr::EndedBy;
use xp_charge::Record;
use xp_sink::RecordSink;
use xp_subs::Subs;

/// Keeps the charging records of a run: each as its call ends, and at the end those that are left.
pub trait RecordKeeper: RecordSink {
    ghost use Rattle.std.specs.Prelude.{◌≡◌, List, Result};
    ghost use Rattle.xp_cdr.specs.Ended.{charging_records};
    ghost use Rattle.xp_cdr.specs.declared.ended.EndedCall.{EndedCall};
    ghost use Rattle.xp_keeping.specs.declared.keep_fault.KeepFault.{KeepFault};
    ghost use Rattle.xp_subs.specs.Tables.{Tables, line_count};

    // The calls whose records were received, each with by what it ended, and with its lines as they were named then.
    ghost calls: { Self → List EndedCall };

    // What is kept once these are all calls of the run, and this came of keeping them.
    ghost kept: { Self → List EndedCall → Result (Unit {0}) KeepFault → Type 0 };

    /// How many of the records that were received are not kept yet.
    fn waiting(&self) -> usize;

    /// Has the records that are received from now on told by these subscriptions. Those that were received are told as they were.
    /// Subscriptions with another number of lines change nothing.
    fn rename(&mut self, subs: Subs)
        ensures named { Self.named_by self.new ≡ (if line_count subs == Self.lines self.old then subs else Self.named_by self.old) }
        ensures calls { calls self.new ≡ calls self.old }
        ensures received { Self.received self.new ≡ Self.received self.old }
        ensures lines { Self.lines self.new ≡ Self.lines self.old }
        ensures tables { Self.tables self.new ≡ Self.tables self.old }
        ensures keeps { Self.keeps self.old self.new };

    /// Tells that serving stops: the calls whose records are received from now on end by that.
    fn stop(&mut self)
        ensures named { Self.named_by self.new ≡ Self.named_by self.old }
        ensures calls { calls self.new ≡ calls self.old }
        ensures received { Self.received self.new ≡ Self.received self.old }
        ensures lines { Self.lines self.new ≡ Self.lines self.old }
        ensures tables { Self.tables self.new ≡ Self.tables self.old }
        ensures keeps { Self.keeps self.old self.new };

    /// Keeps the records that are left as the run ends, which follow those that were received. Their calls ended by the stop.
    ///
    /// # Errors
    ///
    /// Why not all records of the run are kept.
    fn finish(&mut self, rest: &[Record]) -> Result<(), KeepFault>
        requires lines { All (HasLines (Self.lines self.old)) rest.now }
        ensures kept { kept self.new (calls self.old ++ map (ended_as (Self.named_by self.old) EndedBy.Stop) rest.now) result }
        ensures all { KeepsAll (kept self.new) (Self.received self.old ++ rest.now) result }
        ensures keeps { Self.keeps self.old self.new };

    ghost has_lines: { (keeper : Self) → Self.lines keeper ≡ line_count (Self.named_by keeper) };

    ghost keeps_lines: { (first second : Self) → Self.keeps first second → Self.lines second ≡ Self.lines first };

    ghost are_received: { (keeper : Self) → charging_records (calls keeper) ≡ Self.received keeper };
}
