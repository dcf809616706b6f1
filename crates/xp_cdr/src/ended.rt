//! Calls that have ended.

ghost use Rattle.std.specs.Prelude.{◌≡◌, ◌<◌, IfSome, option_map};
ghost use Rattle.xp_charge.specs.Lines.{HasLines};
ghost use Rattle.xp_cdr.specs.Ended.{ended_as, named_line};
ghost use Rattle.xp_subs.specs.Tables.{line_count};

use xp_charge::Record;
use xp_file::Name;
use xp_packets::Digits;
use xp_subs::{LineNo, Subs};

/// By what a call ended.
#[derive(Clone, Copy)]
pub enum EndedBy {
    /// It was refused, cleared, or ended with its line.
    Call,
    /// Serving stopped.
    Stop,
    /// The run of the exchange that had it came to an end that wrote no record: a later run told what is known of the call.
    Partial,
}

/// A line of a call, as subscriptions name it.
#[derive(Drop)]
pub struct NamedLine {
    pub name: Name,
    pub address: Digits,
}

impl NamedLine {
    /// A line as these subscriptions name it.
    fn of(subs: &Subs, line: LineNo) -> NamedLine
        requires { line < line_count subs.now }
        ensures { result ≡ named_line subs.now line }
    {
        NamedLine {
            name: subs.line(line).name.copy(),
            address: subs.address_of(line).copy(),
        }
    }

    /// An equal copy.
    fn copy(&self) -> NamedLine
        ensures { result ≡ self.now }
    {
        NamedLine {
            name: self.name.copy(),
            address: self.address.copy(),
        }
    }
}

/// A call that has ended, with its lines as they were named then.
pub struct EndedCall {
    /// Its charging record.
    pub charging: Record,
    pub ended_by: EndedBy,
    /// The line that requested it.
    pub caller: NamedLine,
    /// The line that it was offered to, if it was.
    pub called: Option<NamedLine>,
}

impl Drop for EndedCall {
    fn drop(self) {
        let EndedCall {
            charging: _,
            ended_by: _,
            caller: _,
            called: _,
        } = self;
    }
}

impl EndedCall {
    /// The call of this charging record, which ended by that, with its lines as these subscriptions name them.
    pub fn of(subs: &Subs, ended: &Record, ended_by: EndedBy) -> EndedCall
        requires { HasLines (line_count subs.now) ended.now }
        ensures { result ≡ ended_as subs.now ended_by ended.now }
    {
        EndedCall {
            charging: ended.copy(),
            ended_by,
            caller: NamedLine::of(subs, ended.caller),
            called: named_if_called(subs, ended.called),
        }
    }

    /// An equal copy.
    pub fn copy(&self) -> EndedCall
        ensures { result ≡ self.now }
    {
        EndedCall {
            charging: self.charging.copy(),
            ended_by: self.ended_by,
            caller: self.caller.copy(),
            called: copy_if_called(&self.called),
        }
    }
}

/// The called line as these subscriptions name it, if there is one.
fn named_if_called(subs: &Subs, called: Option<LineNo>) -> Option<NamedLine>
    requires { IfSome called (λ line. line < line_count subs.now) }
    ensures { result ≡ option_map (named_line subs.now) called }
{
    match called {
        Some(line) => Some(NamedLine::of(subs, line)),
        None => None,
    }
}

/// An equal copy.
fn copy_if_called(called: &Option<NamedLine>) -> Option<NamedLine>
    ensures { result ≡ called.now }
{
    match called {
        Some(line) => Some(line.copy()),
        None => None,
    }
}
