ghost use Rattle.std.specs.Prelude.{◌≡◌, ◌≤◌};
ghost use Rattle.xp_answer.specs.ForwardedClear.{IsInRange};
ghost use Rattle.xp_charge.specs.Meter.{counted_from};
ghost use Rattle.xp_charge.specs.FarEnd.{far_end as other_end};
ghost use Rattle.xp_machine.specs.Clearing.{record_of};
ghost use Rattle.xp_machine.specs.StoredState.{call_of_stored};
ghost use Rattle.xp_machine.specs.CallEnds.{end_of, line_at_end};
ghost use Rattle.xp_machine.specs.Information.{asks_for_information, information_for};
ghost use Rattle.xp_machine.specs.World.{far_end as other_line};

use crate::agreement::Agreement;
use xp_answer::Setup;
use xp_charge::{Meter, Record};
use xp_facilities::{ChargingInformation, SegmentCounts};
use xp_packets::{Digits, End};
use xp_subs::LineNo;

/// A virtual call between two lines, from its call request to its clearing.
pub struct LiveCall {
    /// The call's number, from 1.
    pub number: u64,
    /// The line that asked for the call.
    pub caller: LineNo,
    /// The line that the call was put to.
    pub called: LineNo,
    /// The called address as the caller gave it.
    pub dialled: Digits,
    /// What the caller asked for, and what was indicated to the called line.
    pub setup: Setup,
    /// The moment of its call request, in seconds.
    pub requested: u64,
    /// What its answer settled. It is None until the call is accepted.
    pub agreed: Option<Agreement>,
}

impl Drop for LiveCall {
    fn drop(self) {
        let LiveCall {
            number: _,
            caller: _,
            called: _,
            dialled: _,
            setup: _,
            requested: _,
            agreed: _,
        } = self;
    }
}

/// Which live call a line is in. A key may be used again, for a call of another number.
#[derive(Clone, Copy)]
pub struct CallKey {
    /// The call's number.
    pub number: u64,
    /// The key under which the machine keeps the call.
    pub key: usize,
}

impl LiveCall {
    /// Returns the other line of the call.
    pub fn far_end(&self, line: LineNo) -> LineNo
        ensures { result ≡ other_line (call_of_stored self.now) line }
    {
        if self.caller == line {
            self.called
        } else {
            self.caller
        }
    }

    /// Returns which end of the call a line of it is.
    pub fn end_of(&self, line: LineNo) -> End
        ensures { result ≡ end_of (call_of_stored self.now) line }
    {
        if self.caller == line {
            End::Caller
        } else {
            End::Called
        }
    }

    /// Returns what the line at an end is told as the call ends at this moment: how long it was connected, and the counts
    /// of this meter. A line is told nothing unless the call was connected, and the line pays for it and asked (X.25
    /// clause 6.22).
    pub fn information(&self, meter: Meter, ended: u64, end: End) -> Option<ChargingInformation>
        ensures told { result ≡ information_for (call_of_stored self.now) (λ e. counted_from e meter) ended end }
        ensures range { meter.limit ≤ 99_999_999 → IsInRange result }
    {
        let agreement = self.agreed?;
        if end != self.setup.payer || !self.asks_for_information(agreement, end) {
            return None;
        }
        let (sent, received) = meter.counts_for(end);
        Some(ChargingInformation {
            duration: agreement.told_duration(ended),
            segments: SegmentCounts { sent, received },
        })
    }

    /// Returns whether the line at an end asked for charging information. The caller asks in its call request, the
    /// called line in its answer.
    fn asks_for_information(&self, agreement: Agreement, end: End) -> bool
        ensures { result ≡ asks_for_information (call_of_stored self.now) agreement end }
    {
        match end {
            End::Caller => self.setup.charging,
            End::Called => agreement.charging,
        }
    }

    /// Returns the end of the call that is not this line's.
    pub fn end_beyond(&self, line: LineNo) -> End
        ensures { result ≡ other_end (end_of (call_of_stored self.now) line) }
    {
        if self.caller == line {
            End::Called
        } else {
            End::Caller
        }
    }

    /// Returns the line at an end of the call.
    pub fn line_at(&self, end: End) -> LineNo
        ensures { result ≡ line_at_end (call_of_stored self.now) end }
    {
        match end {
            End::Caller => self.caller,
            End::Called => self.called,
        }
    }

    /// Returns the record of the call, which ended at this moment, with the counts of this meter, and with the cause and
    /// diagnostic with which it ended.
    pub fn record(&self, meter: Meter, ended: u64, cause: u8, diagnostic: u8) -> Record
        ensures { result ≡ record_of self.now.number (call_of_stored self.now) (λ end. counted_from end meter) ended cause diagnostic }
    {
        let (from_caller, from_called) = meter.counts_for(End::Called);
        Record {
            number: self.number,
            caller: self.caller,
            called: Some(self.called),
            dialled: self.dialled.copy(),
            payer: self.setup.payer,
            from_caller,
            from_called,
            cause,
            diagnostic,
            requested: self.requested,
            connected: self.agreed.map(|agreement| agreement.connected),
            ended,
        }
    }
}
