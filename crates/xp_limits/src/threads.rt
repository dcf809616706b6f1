//! How many threads serve the lines.

ghost use Rattle.std.specs.Prelude.{◌≡◌, ℕ, codes, IfNone, IfSome, option_map};
ghost use Rattle.xp_limits.specs.Threads.{AreThreads, IsThreadCount};

/// The most threads that may be asked for: one for each line of the largest exchange.
const MOST_THREADS: u16 = 4096;

/// How many threads serve the lines.
#[derive(Clone, Copy, PartialEq, Eq)]
pub enum ServingThreads {
    /// As many as the exchange chooses by its lines and the processors.
    Chosen,
    /// One for each line.
    Lines,
    /// So many, 1 to 4,096; one for each line where there are fewer lines.
    Count(u16),
}

impl ServingThreads {
    /// The threads that a text asks for: `lines`, or a number. Where it is absent, the exchange chooses.
    pub(crate) fn read(text: Option<&str>) -> Option<ServingThreads>
        ensures right { IfSome result (AreThreads (option_map (λ text. text.now) text.entry)) }
        ensures wrong { IfNone result ((threads : ServingThreads) → AreThreads (option_map (λ text. text.now) text.entry) threads → ⊥) }
    {
        match text {
            Some(text) => asked(text),
            None => Some(ServingThreads::Chosen),
        }
    }
}

/// The threads that this text asks for, if it does.
fn asked(text: &str) -> Option<ServingThreads>
    ensures right { IfSome result (AreThreads (Some text.now)) }
    ensures wrong { IfNone result ((threads : ServingThreads) → AreThreads (Some text.now) threads → ⊥) }
{
    if text == "lines" {
        return Some(ServingThreads::Lines);
    }
    let count = count(text)?;
    Some(ServingThreads::Count(count))
}

/// The number of threads that a text is, if it may be asked for.
fn count(text: &str) -> Option<u16>
    ensures right { IfSome result (IsThreadCount text.now) }
    ensures wrong { IfNone result ((count : ℕ) → IsThreadCount text.now count → ⊥) }
{
    match text.parse::<u16>() {
        Ok(count) if count >= 1 && count <= MOST_THREADS => Some(count),
        _ => None,
    }
}
