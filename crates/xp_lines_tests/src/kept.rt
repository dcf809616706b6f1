//! A sink that keeps charging records as text.

use crate::told::tell_records;
use std::snapshot::Snapshot;
use std::sync::Arc;
use std::sync::atomic::Ordering;
use xp_charge::Record;
use xp_past::Past;
use xp_sink::{NextSubs, NotInForce, Received, RecordSink};
use xp_subs::Subs;
use xp_testing_wires::Board;
use xp_view::ExchangeView;

/// A sink that keeps the lines of the records that it is given, and counts the records on a board. It stops serving at as many
/// records as the setting `kept` says, and with `stops` once the links were given what they are given before a stop.
pub struct Kept {
    /// The lines of the records.
    pub text: Vec<u8>,
    /// The subscriptions, from which the lines have their names.
    pub subs: Subs,
    /// Those of the exchange that it sees.
    pub shown: Snapshot<Subs>,
    pub board: Arc<Board>,
    /// How many lines and entries it saw last.
    pub seen_lines: usize,
    pub seen_entries: u64,
    pub given: Past<Record>,
}

impl Drop for Kept {
    fn drop(self) {
        let Kept {
            text: _,
            subs: _,
            shown: _,
            board: _,
            seen_lines: _,
            seen_entries: _,
            given: _,
        } = self;
    }
}

impl RecordSink for Kept {
    ghost use Rattle.std.specs.Prelude.{⊤};
    ghost use Rattle.xp_subs.specs.Tables.{line_count};

    ghost received = { λ kept. kept.given.items };

    ghost lines = { λ kept. line_count kept.subs };

    ghost tables = { λ kept. kept.shown.value };

    ghost named_by = { λ kept. kept.subs };

    ghost has_handed = { λ _ _. ⊥ };

    ghost keeps = { λ _ _. ⊤ };

    fn receive(&mut self, records: Vec<Record>) -> Received {
        // A line that there is no memory for is missing in the text.
        let _ = tell_records(&records, &self.subs, &mut self.text);
        self.given.extend(&records);
        let count = records.len() as u64;
        drop(records);
        let before = self.board.recorded.fetch_add(count, Ordering::SeqCst);
        stop_if(before.saturating_add(count) >= self.board.number("kept=", 1_000))
    }

    fn tick(&mut self) -> Received {
        stop_if(self.board.number("stops=", 0) == 1 && self.board.may_stop())
    }

    fn wants_look(&self) -> bool {
        true
    }

    fn see(&mut self, view: ExchangeView) {
        self.seen_lines = view.lines.len();
        self.seen_entries = view.entries;
        drop(view);
    }

    fn next_subs(&mut self) -> Option<NextSubs> {
        None
    }

    fn reloaded(&mut self, _outcome: Result<(), NotInForce>) {}

    ghost keeps_itself = { λ _. tt };

    ghost keeps_on = { λ _ _ _ _ _. tt };
}

fn stop_if(stops: bool) -> Received {
    if stops {
        Received::Stops
    } else {
        Received::GoesOn
    }
}
