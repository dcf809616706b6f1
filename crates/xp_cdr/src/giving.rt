//! Of which run and of which calls call detail records are.

use crate::ended::EndedCall;
use crate::run::ExchangeRun;
use xp_past::Past;

/// Of which run the call detail records are, and of which calls.
#[derive(Drop)]
pub struct Giving {
    /// The run of which exchange they are of.
    pub run: ExchangeRun,
    /// The calls that were given.
    pub given: Past<EndedCall>,
}
