ghost use Rattle.std.specs.Prelude.{◌≡◌, ◌++◌, ◌<◌, IfSome, OnErr, OnOk};
ghost use Rattle.xp_charge.specs.Duration.{seconds_of};
ghost use Rattle.xp_charge.specs.Lines.{HasLines};
ghost use Rattle.xp_charge.specs.Text.{call_text, called_text, charge_text, payer_text, record_text};
ghost use Rattle.xp_charge.specs.steps.Text.{Keeps};
ghost use Rattle.xp_subs.specs.Tables.{line_count};

use crate::text::{NONE, push_digits, push_field, push_number, push_octet};
use std::alloc::{AllocError, Allocator};
use xp_packets::{Digits, End};
use xp_subs::{LineNo, Subs};

/// The charging record of an ended call.
#[derive(Drop)]
pub struct Record {
    /// The call's number, from 1.
    pub number: u64,
    /// The line that requested the call.
    pub caller: LineNo,
    /// The line that the call was offered to. `None` if the call was refused.
    pub called: Option<LineNo>,
    /// The called address, as the caller gave it.
    pub dialled: Digits,
    /// The end that pays: the called line if the call was offered to it with reverse charging, otherwise the caller.
    pub payer: End,
    /// Segments from the caller, 0 to 99,999,999.
    pub from_caller: u32,
    /// Segments from the called line, 0 to 99,999,999.
    pub from_called: u32,
    /// The clearing cause that the other end received; for a refused call, the one that the caller received.
    pub cause: u8,
    /// The diagnostic that was sent with the cause.
    pub diagnostic: u8,
    /// The moment of the call request, in seconds.
    pub requested: u64,
    /// The moment at which the call was accepted, in seconds. `None` if it never was.
    pub connected: Option<u64>,
    /// The moment at which the call ended, in seconds.
    pub ended: u64,
}

impl Record {
    /// An equal copy.
    pub fn copy(&self) -> Record
        ensures { result ≡ self.now }
    {
        Record {
            number: self.number,
            caller: self.caller,
            called: self.called,
            dialled: self.dialled.copy(),
            payer: self.payer,
            from_caller: self.from_caller,
            from_called: self.from_called,
            cause: self.cause,
            diagnostic: self.diagnostic,
            requested: self.requested,
            connected: self.connected,
            ended: self.ended,
        }
    }

    /// For how many seconds the call was connected. 0 if it never was, or if the clock went back in between.
    pub fn seconds(&self) -> u64
        ensures { result ≡ seconds_of self.now }
    {
        match self.connected {
            Some(connected) => self.ended.saturating_sub(connected),
            None => 0,
        }
    }

    /// Appends the record to `text`, as one line.
    ///
    /// # Errors
    ///
    /// If an allocation fails, `text` is unchanged.
    pub fn write<A: Allocator>(&self, subs: &Subs, text: &mut Vec<u8, A>) -> Result<(), AllocError>
        requires { HasLines (line_count subs.now) self.now }
        ensures ok { OnOk result (text.new.items ≡ text.old.items ++ record_text subs.now self.now) }
        ensures err { OnErr result (text.new.items ≡ text.old.items) }
    {
        let before = text.len();
        match self.push(subs, text) {
            Ok(()) => Ok(()),
            Err(refused) => {
                text.truncate(before);
                Err(refused)
            }
        }
    }

    /// Appends the record, or only the first part of it if an allocation fails.
    fn push<A: Allocator>(&self, subs: &Subs, text: &mut Vec<u8, A>) -> Result<(), AllocError>
        requires { HasLines (line_count subs.now) self.now }
        ensures ok { OnOk result (text.new.items ≡ text.old.items ++ record_text subs.now self.now) }
        ensures kept { Keeps text.old.items text.new.items }
    {
        text.extend_from_slice(b"record")?;
        self.push_call(subs, text)?;
        self.push_charge(text)?;
        text.push(b'\n')?;
        Ok(())
    }

    /// Appends which call it was: its number, its lines and the dialled digits.
    fn push_call<A: Allocator>(&self, subs: &Subs, text: &mut Vec<u8, A>) -> Result<(), AllocError>
        requires { HasLines (line_count subs.now) self.now }
        ensures ok { OnOk result (text.new.items ≡ text.old.items ++ call_text subs.now self.now) }
        ensures kept { Keeps text.old.items text.new.items }
    {
        push_number(text, self.number)?;
        push_field(text, subs.name_of(self.caller).as_bytes())?;
        push_field(text, name_of_called(subs, self.called).as_bytes())?;
        push_digits(text, &self.dialled)
    }

    /// Appends who pays, for how much, how the call ended, and for how many seconds it was connected.
    fn push_charge<A: Allocator>(&self, text: &mut Vec<u8, A>) -> Result<(), AllocError>
        ensures ok { OnOk result (text.new.items ≡ text.old.items ++ charge_text self.now) }
        ensures kept { Keeps text.old.items text.new.items }
    {
        push_field(text, name_of_payer(self.payer).as_bytes())?;
        push_number(text, u64::from(self.from_caller))?;
        push_number(text, u64::from(self.from_called))?;
        push_octet(text, self.cause)?;
        push_number(text, u64::from(self.diagnostic))?;
        push_number(text, self.seconds())
    }
}

fn name_of_called(subs: &Subs, called: Option<LineNo>) -> &str
    requires { IfSome called (λ line. line < line_count subs.now) }
    ensures { result.now ≡ called_text subs.now called }
{
    match called {
        Some(line) => subs.name_of(line),
        None => NONE,
    }
}

fn name_of_payer(payer: End) -> &'static str
    ensures { result.now ≡ payer_text payer }
{
    match payer {
        End::Caller => "caller",
        End::Called => "called",
    }
}
