ghost use Rattle.std.specs.Prelude.{◌≡◌, ◌≤◌, ◌↔◌, IsTrue};
ghost use Rattle.xp_relay.specs.Terms.{AreDirectionTerms, IsWithinTerms, terms_from};

use xp_packets::{End, Modulus};

/// What was agreed for the data that one end sends.
#[derive(Clone, Copy)]
pub struct Agreed {
    /// The packet size, as a power of two: 4 to 10 (clauses 6.12 and 7.2.2.1).
    pub size: u8,
    /// The window size: 1 to 7, or 1 to 15 where both lines number modulo 128 (clauses 6.12 and 7.2.2.2).
    pub window: u8,
}

/// What was agreed when the call was set up, with the numbering of both lines.
#[derive(Clone, Copy)]
pub struct Terms {
    /// For what the caller sends.
    pub from_caller: Agreed,
    /// For what the called line sends.
    pub from_called: Agreed,
    /// The numbering of the caller's line.
    pub caller: Modulus,
    /// The numbering of the called line.
    pub called: Modulus,
}

/// The terms of one direction of a call.
#[derive(Clone, Copy)]
pub struct DirectionTerms {
    /// The packet size, as a power of two.
    pub size: u8,
    /// The window size.
    pub window: u8,
    /// The numbering of the line that sends.
    pub sender: Modulus,
    /// The numbering of the line that receives.
    pub receiver: Modulus,
}

impl DirectionTerms {
    /// Returns whether the size and the window are allowed.
    fn is_within(self) -> bool
        ensures { IsTrue result ↔ AreDirectionTerms self }
    {
        4 <= self.size
            && self.size <= 10
            && 1 <= self.window
            && self.window <= 15
            && self.window < self.sender.numbers()
            && self.window < self.receiver.numbers()
    }
}

impl Terms {
    /// Returns the terms of the direction that one end sends.
    fn way(self, end: End) -> DirectionTerms
        ensures { result ≡ terms_from end self }
    {
        match end {
            End::Caller => DirectionTerms {
                size: self.from_caller.size,
                window: self.from_caller.window,
                sender: self.caller,
                receiver: self.called,
            },
            End::Called => DirectionTerms {
                size: self.from_called.size,
                window: self.from_called.window,
                sender: self.called,
                receiver: self.caller,
            },
        }
    }

    /// Returns whether the sizes and windows are allowed: sizes of 4 to 10, and windows of 1 to 7, or of 1 to 15 where
    /// both lines number modulo 128.
    pub fn is_within(self) -> bool
        ensures { IsTrue result ↔ IsWithinTerms self }
    {
        self.way(End::Caller).is_within() && self.way(End::Called).is_within()
    }

    /// Returns the terms of the direction that one end sends.
    pub fn terms_from(self, end: End) -> DirectionTerms
        requires { IsWithinTerms self }
        ensures way { result ≡ terms_from end self }
        ensures within { AreDirectionTerms result }
    {
        self.way(end)
    }
}
