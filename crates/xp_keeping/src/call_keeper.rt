//! Keeping the calls of a run, with nothing else to do.

ghost use Rattle.std.specs.Prelude.{◌≡◌, ◌≤◌, ◌+◌, ◌++◌, false, length, true};

use crate::keep_fault::KeepFault;
use xp_cdr::EndedCall;
use xp_sink::Received;

/// Keeps the calls of a run, each as it ends.
pub trait CallKeeper: Drop {
    ghost use Rattle.std.specs.Prelude.{ℕ, List, Result};
    ghost use Rattle.xp_cdr.specs.declared.ended.EndedCall.{EndedCall};
    ghost use Rattle.xp_keeping.specs.declared.keep_fault.KeepFault.{KeepFault};

    // All calls that the keeper was given so far.
    ghost given: { Self → List EndedCall };

    // What stays the same of a keeper from one moment to a later one.
    ghost keeps: { Self → Self → Type 0 };

    // What is kept once these are all calls of the run, and this came of keeping them.
    ghost kept: { Self → List EndedCall → Result (Unit {0}) KeepFault → Type 0 };

    // The first so many of the calls that were given are kept.
    ghost has_kept: { Self → ℕ → Type 0 };

    /// Takes these calls, which follow those that it was given before.
    fn keep(&mut self, calls: Vec<EndedCall>) -> Received
        ensures given { given self.new ≡ given self.old ++ calls.items }
        ensures keeps { keeps self.old self.new };

    /// Called at least ten times a second while no calls come. It may write what waits, and may ask for a stop.
    fn tick(&mut self) -> Received
        ensures given { given self.new ≡ given self.old }
        ensures keeps { keeps self.old self.new };

    /// Keeps what waits, as no further call comes.
    ///
    /// # Errors
    ///
    /// Why not all calls of the run are kept.
    fn finish(&mut self) -> Result<(), KeepFault>
        ensures kept { kept self.new (given self.old) result }
        ensures keeps { keeps self.old self.new };

    /// How many of the calls that were given are kept, from the first on. There may be more.
    fn count_kept(&self) -> usize
        ensures { has_kept self.now result };

    ghost keeps_itself: { (keeper : Self) → keeps keeper keeper };

    ghost keeps_on: { (first second third : Self) → keeps first second → keeps second third → keeps first third };
}

/// How many calls there are at least, once these follow so many others. They are counted where `counts` says so.
pub(crate) fn count_on(count: usize, calls: &[EndedCall], counts: bool) -> usize
    ensures more { counts ≡ true → result ≤ count + length calls.now }
    ensures same { counts ≡ false → result ≡ count }
{
    if counts {
        count.saturating_add(calls.len())
    } else {
        count
    }
}
