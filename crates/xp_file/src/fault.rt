ghost use Rattle.std.specs.Prelude.{◌≡◌};
ghost use Rattle.xp_file.specs.declared.fault.SubscriptionFault.TheVariants.{Memory as OutOfMemory};

use crate::key::Key;
use std::alloc::{AllocError, AllocFailed};
use std::error::Error;
use std::fmt;

/// Why a subscription file is refused. Each check goes over the whole file before the next one starts: first the
/// text, then the values of its keys, its limits, the values that are used twice, the default callers of routers, and the
/// indexes of groups.
#[derive(Clone, Copy, Debug, PartialEq, Eq)]
pub enum SubscriptionFault {
    /// The text is not TOML.
    Toml,
    /// The value of this key is missing, of another type, misspelt or out of range. [`Key::Other`] means that the
    /// file has a key that it may not have.
    Field(Key),
    /// An address, a line's name or a port is used twice, or a router has two default callers.
    TwiceUsed(Key),
    /// A station has an index or a group twice, or its preferential index is not one of its indexes.
    Index,
    /// There are more stations, lines or groups than an exchange may have.
    Limit(Key),
    /// An allocation failed.
    Memory,
}

/// The text of the program's message: `toml`, `field KEY`, `twice KEY`, `index`, `limit KEY` or `memory`.
// This impl is written by hand because its text is proved.
impl fmt::Display for SubscriptionFault {
    ghost use Rattle.std.specs.Prelude.{Some};
    ghost use Rattle.xp_file.specs.steps.Fault.{fault_text};

    ghost output = { λ fault. Some (fault_text fault) };

    fn fmt<W: fmt::Write>(&self, f: &mut fmt::Formatter<W>) -> fmt::Result {
        match self {
            SubscriptionFault::Toml => f.write_str("toml"),
            SubscriptionFault::Field(key) => write!(f, "field {key}"),
            SubscriptionFault::TwiceUsed(key) => write!(f, "twice {key}"),
            SubscriptionFault::Index => f.write_str("index"),
            SubscriptionFault::Limit(key) => write!(f, "limit {key}"),
            SubscriptionFault::Memory => f.write_str("memory"),
        }
    }
}

impl Error for SubscriptionFault {}

impl From<AllocError> for SubscriptionFault {
    ghost from_gives = { λ _ fault. fault ≡ OutOfMemory };

    fn from(_error: AllocError) -> SubscriptionFault {
        SubscriptionFault::Memory
    }
}

impl<T: Drop> From<AllocFailed<T>> for SubscriptionFault {
    ghost from_gives = { λ _ fault. fault ≡ OutOfMemory };

    fn from(_error: AllocFailed<T>) -> SubscriptionFault {
        SubscriptionFault::Memory
    }
}
