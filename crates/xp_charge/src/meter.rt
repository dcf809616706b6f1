ghost use Rattle.std.specs.Prelude.{◌≡◌, ◌+◌, ◌≤◌, ◌<◌, ◌↔◌, IfOk, IsOk, OnErr, OnOk};
ghost use Rattle.xp_charge.specs.Meter.{counted_from, opening, with_more};
ghost use Rattle.xp_charge.specs.FarEnd.{far_end};
ghost use Rattle.xp_charge.specs.Segments.{segments};

use crate::segments::segments_of;
use std::marker::Model;
use thiserror::Error;
use xp_packets::End;

/// The error that a data packet would exceed the segment limit of its direction.
#[derive(Clone, Copy, Debug, PartialEq, Eq, Error)]
#[error("over the segment limit")]
pub struct OverLimit;

/// The segments of a call's accepted data packets, at most `limit` in each direction.
#[derive(Clone, Copy)]
pub struct Meter {
    limit: u32,
    from_caller: u32,
    from_called: u32,
}

impl Model for Meter {
    ghost use Rattle.std.specs.Prelude.{◌≤◌};
    ghost use Rattle.xp_charge.specs.Counted.{Counted};

    ghost Value = { Counted };

    ghost view = { λ m. record { limit = m.limit; from_caller = m.from_caller; from_called = m.from_called } };

    ghost invariant = { λ m. (m.from_caller ≤ m.limit) × (m.from_called ≤ m.limit) };

    ghost inverse = { λ c. record { limit = c.limit; from_caller = c.from_caller; from_called = c.from_called } };
}

impl Meter {
    /// The meter of a new call.
    pub fn new(limit: u32) -> Meter
        ensures { result ≡ opening limit }
    {
        Meter {
            limit,
            from_caller: 0,
            from_called: 0,
        }
    }

    /// Counts a data packet with `octets` octets of user data, accepted from this end.
    ///
    /// # Errors
    ///
    /// Exactly if that direction would then have more segments than the limit. Then nothing is counted.
    pub fn add(&mut self, end: End, octets: usize) -> Result<(), OverLimit>
        ensures ok { OnOk result (self.new ≡ with_more end (segments octets) self.old) }
        ensures within { IsOk result ↔ (counted_from end self.old + segments octets ≤ self.old.limit) }
        ensures over { OnErr result (self.new ≡ self.old) }
    {
        let sum = self.sum(end, segments_of(octets))?;
        match end {
            End::Caller => self.from_caller = sum,
            End::Called => self.from_called = sum,
        }
        Ok(())
    }

    /// The segments sent to this end, and those received from it.
    pub fn counts_for(&self, end: End) -> (u32, u32)
        ensures sent { result.0 ≡ counted_from (far_end end) self.now }
        ensures received { result.1 ≡ counted_from end self.now }
        ensures most { (result.0 ≤ self.now.limit) × (result.1 ≤ self.now.limit) }
    {
        match end {
            End::Caller => (self.from_called, self.from_caller),
            End::Called => (self.from_caller, self.from_called),
        }
    }

    // the segments from this end, and `more` in addition
    fn sum(&self, end: End, more: usize) -> Result<u32, OverLimit>
        ensures ok { IfOk result (λ sum. (sum ≡ counted_from end self.now + more) × (sum ≤ self.now.limit)) }
        ensures over { OnErr result (self.now.limit < counted_from end self.now + more) }
    {
        let (_, counted) = self.counts_for(end);
        if more > (self.limit - counted) as usize {
            return Err(OverLimit);
        }
        Ok(counted + more as u32)
    }
}
