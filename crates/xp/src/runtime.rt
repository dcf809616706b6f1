//! What serving takes of the system.

use log::Log;
use std::random::RandomSource;
use std::sync::Wait;
use std::thread::Threads;
use std::time::Clock;

/// What serving takes of the system, beside its network. It has neither files nor standard output: what serves has no other way to
/// these than what it is lent.
pub(crate) trait ServingRuntime: AllocGlobal
    + Clock
    + Copy
    + Drop
    + Log
    + RandomSource
    + Send
    + Sync
    + Threads
    + Wait
    + 'static {}

impl<
    R: AllocGlobal
        + Clock
        + Copy
        + Drop
        + Log
        + RandomSource
        + Send
        + Sync
        + Threads
        + Wait
        + 'static,
> ServingRuntime for R {}
