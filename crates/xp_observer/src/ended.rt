//! What is shown of calls that have ended.

use crate::lines::{NamedLine, party_of};
use std::alloc::{AllocError, Global};
use xp_charge::Record;
use xp_console::{EndedCall, Party, Payer};
use xp_file::Name;
use xp_packets::{Digits, End};
use xp_subs::LineNo;

/// A line as a party to a call that has ended, by the name and the address that it had as the call did.
#[derive(Drop)]
struct NotedParty {
    line: Name,
    address: Digits,
}

impl NotedParty {
    /// This line, where the lines are named so.
    fn of(lines: &[NamedLine], line: LineNo) -> NotedParty {
        match lines.get(usize::from(line)) {
            Some(line) => NotedParty {
                line: line.name.copy(),
                address: line.address.copy(),
            },
            None => NotedParty {
                line: Name::none(),
                address: Digits::new(),
            },
        }
    }
}

/// A call that has ended.
#[derive(Drop)]
pub(crate) struct NotedCall {
    record: Record,
    caller: NotedParty,
    /// The line that the call was offered to, if it was.
    called: Option<NotedParty>,
}

impl NotedCall {
    /// The call of a record, of lines that are named so.
    pub(crate) fn of(lines: &[NamedLine], record: &Record) -> NotedCall {
        NotedCall {
            record: record.copy(),
            caller: NotedParty::of(lines, record.caller),
            called: record.called.map(|line| NotedParty::of(lines, line)),
        }
    }

    /// What is shown of the call.
    pub(crate) fn shown(&self, alloc: Global) -> Result<EndedCall, AllocError> {
        let record = &self.record;
        Ok(EndedCall {
            number: record.number,
            caller: party_of(alloc, &self.caller.line, &self.caller.address)?,
            called: self.called_party(alloc)?,
            dialled: record.dialled.to_string(alloc)?,
            payer: payer_of(record.payer),
            segments_from_caller: u64::from(record.from_caller),
            segments_from_called: u64::from(record.from_called),
            requested: record.requested,
            connected: record.connected,
            ended: record.ended,
            seconds: record.seconds(),
            cause: record.cause,
            diagnostic: record.diagnostic,
        })
    }

    /// The line that the call was offered to, if it was.
    fn called_party(&self, alloc: Global) -> Result<Option<Party>, AllocError> {
        match &self.called {
            Some(called) => Ok(Some(party_of(alloc, &called.line, &called.address)?)),
            None => Ok(None),
        }
    }
}

fn payer_of(end: End) -> Payer {
    match end {
        End::Caller => Payer::Caller,
        End::Called => Payer::Called,
    }
}
