//! What is noted of a connection as its octets pass, and why it ends.

ghost use Rattle.std.specs.Prelude.{◌≡◌, ◌≤◌, length};
ghost use Rattle.xp_links.specs.Counts.{pulled_count, pushed_count};

use crate::options::Patience;
use std::io;
use xp_door::{CallNotes, DownReason, LineShare, Tap};
use xp_links::{Pulled, Pushed};

/// What is noted of a connection of a line: its trace, the calls on it, and why it ends.
#[derive(Drop)]
pub(crate) struct ConnectionNotes {
    /// Where the line is traced.
    tap: Option<Tap>,
    calls: CallNotes,
    /// How soon the system ends it where the peer is gone.
    patience: Patience,
    /// Why it has ended, where a read or a write has told.
    ended: Option<DownReason>,
}

impl ConnectionNotes {
    /// Those of a line's new connection.
    pub(crate) fn new(share: &LineShare, patience: Patience) -> ConnectionNotes {
        ConnectionNotes {
            tap: share.tap(),
            calls: CallNotes::new(),
            patience,
            ended: None,
        }
    }

    /// Notes what a read has brought: octets are traced and counted, and the calls among them are noted; or the end.
    pub(crate) fn note_pulled(&mut self, share: &LineShare, into: &[u8], pulled: Pulled)
        requires { pulled_count pulled ≤ length into.now }
    {
        match pulled {
            Pulled::Octets(count) => {
                let octets = &into[..count];
                if let Some(tap) = &mut self.tap {
                    tap.receive(octets);
                }
                self.calls.receive(octets);
                share.count_received(count);
            }
            Pulled::Ended => self.end(DownReason::Closed),
            Pulled::Nothing | Pulled::Fault => {}
        }
    }

    /// Notes what a write of these octets has taken: octets are traced and counted, and calls that are cleared by them are told.
    pub(crate) fn note_pushed(&mut self, share: &LineShare, from: &[u8], pushed: Pushed)
        requires { pushed_count pushed ≤ length from.now }
    {
        if let Pushed::Took(count) = pushed {
            let octets = &from[..count];
            if let Some(tap) = &mut self.tap {
                tap.send(octets);
            }
            self.calls.send(share, octets);
            share.count_sent(count);
        }
    }

    /// The connection ends for this reason, unless it had another before.
    pub(crate) fn end(&mut self, reason: DownReason) {
        if self.ended.is_none() {
            self.ended = Some(reason);
        }
    }

    /// The connection ends by this error of a read or a write.
    pub(crate) fn fail(&mut self, error: &io::Error) {
        self.end(DownReason::of(error, self.patience.seconds()));
    }

    /// Why the connection is over, as it is let go: what its peer sent was no frame, or a read or a write has told of its end, or else
    /// the exchange has given it up.
    pub(crate) fn reason(&self) -> DownReason {
        match self.calls.fault() {
            Some(reason) => reason,
            None => self.ended.unwrap_or(DownReason::GivenUp),
        }
    }
}
