//! What serving is asked with.

ghost use Rattle.std.specs.Prelude.{◌≡◌, ℕ, List, IfNone, IfSome, option_map};
ghost use Rattle.xp_limits.specs.Limits.{AreLimits, IsLimit, IsNumber};

use crate::threads::ServingThreads;

/// The greatest number that may be asked for.
const GREATEST: u64 = 1_000_000_000_000;

/// The number where none is said: it is never reached.
const NO_LIMIT: u64 = u64::MAX;

/// When serving ends, and by how many threads lines are served until then.
#[derive(Clone, Copy, PartialEq, Eq)]
pub struct Limits {
    /// With so many charging records, 1 to 1,000,000,000,000; 2^64 - 1 where there is no limit.
    pub records: u64,
    /// For each line after so many turns, 1 to 1,000,000,000,000; 2^64 - 1 where there is no limit.
    pub turns: u64,
    /// By so many threads.
    pub threads: ServingThreads,
}

impl Limits {
    /// The limits that the texts of two numbers are, and the threads that a third text asks for. Where a text is absent there is no
    /// limit, and the exchange chooses the threads.
    pub fn read(records: Option<&str>, turns: Option<&str>, threads: Option<&str>) -> Option<Limits>
        ensures right { IfSome result (AreLimits (option_map (λ text. text.now) records.entry) (option_map (λ text. text.now) turns.entry) (option_map (λ text. text.now) threads.entry)) }
        ensures wrong { IfNone result ((limits : Limits) → AreLimits (option_map (λ text. text.now) records.entry) (option_map (λ text. text.now) turns.entry) (option_map (λ text. text.now) threads.entry) limits → ⊥) }
    {
        let records = limit(records)?;
        let turns = limit(turns)?;
        let threads = ServingThreads::read(threads)?;
        Some(Limits {
            records,
            turns,
            threads,
        })
    }
}

/// The limit that a text is, if it may be asked for.
fn limit(text: Option<&str>) -> Option<u64>
    ensures right { IfSome result (IsLimit (option_map (λ text. text.now) text.entry)) }
    ensures wrong { IfNone result ((number : ℕ) → IsLimit (option_map (λ text. text.now) text.entry) number → ⊥) }
{
    match text {
        Some(text) => number(text),
        None => Some(NO_LIMIT),
    }
}

/// The number that a text is, if it may be asked for.
fn number(text: &str) -> Option<u64>
    ensures right { IfSome result (IsNumber text.now) }
    ensures wrong { IfNone result ((number : ℕ) → IsNumber text.now number → ⊥) }
{
    match text.parse::<u64>() {
        Ok(number) if number >= 1 && number <= GREATEST => Some(number),
        _ => None,
    }
}
