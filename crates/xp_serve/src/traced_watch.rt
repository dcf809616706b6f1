//! A watch, beside which what lines receive and send is written to a capture file.

use crate::attending::Watch;
use crate::offered::OfferedSubs;
use std::sync::Wait;
use xp_charge::Record;
use xp_sink::{NotInForce, Received};
use xp_tracing::TraceThread;
use xp_view::ExchangeView;

/// A watch, and the thread that writes a trace, if there is one. The thread begins with the first look of the watch, when the lines
/// are served, and ends with the last one.
#[derive(Drop)]
pub struct TracedWatch<T: Watch, R: Wait> {
    watch: T,
    trace: Option<TraceThread<R>>,
}

impl<T: Watch, R: Wait> TracedWatch<T, R> {
    pub fn new(watch: T, trace: Option<TraceThread<R>>) -> TracedWatch<T, R> {
        TracedWatch { watch, trace }
    }
}

impl<T: Watch, R: Wait + Drop> Watch for TracedWatch<T, R> {
    ghost tables = { T.tables };

    ghost has_handed = { λ watch. T.has_handed watch.watch };

    fn look(&mut self, waiting: usize) -> Received {
        if let Some(trace) = &self.trace {
            trace.begin();
        }
        self.watch.look(waiting)
    }

    fn note_ended(&mut self, records: &[Record]) {
        self.watch.note_ended(records);
    }

    fn wants_look(&self) -> bool {
        self.watch.wants_look()
    }

    fn see(&mut self, view: &ExchangeView, waiting: usize) {
        self.watch.see(view, waiting);
    }

    fn next_subs(&mut self) -> Option<OfferedSubs> {
        self.watch.next_subs()
    }

    fn reloaded(&mut self, outcome: Result<(), NotInForce>) {
        self.watch.reloaded(outcome);
    }

    fn end(&mut self, is_kept: bool) {
        if let Some(trace) = &self.trace {
            // One that was given up leaves a front of the trace.
            let _is_written = trace.end();
        }
        self.watch.end(is_kept);
    }
}
