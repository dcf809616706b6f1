ghost use Rattle.std.specs.Prelude.{◌≡◌, ◌<◌, ◌≤◌, ◌↔◌, [], ◌∷◌, ◌++◌, IsTrue, length};
ghost use Rattle.std.specs.List.{list_all};
ghost use Rattle.xp_packets.specs.Digits.{AreDigits, digits_in, is_digit};

use arrayvec::ArrayVec;
use std::fmt;
use std::marker::Model;

/// The digits of an address (X.25 clause 5.2.1): at most 15, each 0 to 9.
#[derive(Drop, PartialEq, Eq, Hash)]
pub struct Digits {
    values: ArrayVec<u8, 15>,
}

impl Model for Digits {
    ghost use Rattle.std.specs.Prelude.{List, ℕ};
    ghost use Rattle.xp_packets.specs.Digits.{AreDigits};

    ghost Value = { List ℕ };

    ghost view = { λ d. d.values.items };

    ghost invariant = { λ d. AreDigits d.values.items };

    ghost inverse = { λ digits. record { values = record { items = digits } } };
}

impl Digits {
    /// The most digits that an address has.
    pub const MOST: usize = 15;

    /// An address of no digits.
    pub fn new() -> Digits
        ensures { result ≡ [] }
    {
        Digits {
            values: ArrayVec::new(),
        }
    }

    /// Reads the digits from text. Returns `None` unless the text is at most 15 characters `0` to `9`.
    pub fn from_text(text: &str) -> Option<Digits>
        ensures { result ≡ digits_in text.now }
    {
        if text.len() > Digits::MOST || !are_digits(text.as_bytes()) {
            return None;
        }
        let mut digits = Digits::new();
        for character in text.as_bytes() {
            digits.push(*character - b'0');
        }
        Some(digits)
    }

    /// The number of digits, 0 to 15.
    pub fn len(&self) -> usize
        ensures count { result ≡ length self.now }
        ensures most { length self.now ≤ 15 }
    {
        self.values.len()
    }

    /// Whether there are no digits.
    pub fn is_empty(&self) -> bool
        ensures { IsTrue result ↔ (self.now ≡ []) }
    {
        self.values.is_empty()
    }

    /// The digits in order, each 0 to 9.
    pub fn as_slice(&self) -> &[u8]
        ensures digits { result.now ≡ self.now }
        ensures each { AreDigits self.now }
        ensures most { length self.now ≤ 15 }
    {
        self.values.as_slice()
    }

    /// Adds a digit, 0 to 9, at the end.
    pub fn push(&mut self, digit: u8)
        requires room { length self.old < 15 }
        requires digit { digit < 10 }
        ensures { self.new ≡ self.old ++ digit ∷ [] }
    {
        self.values.push(digit);
    }

    /// An equal copy.
    pub fn copy(&self) -> Digits
        ensures { result ≡ self.now }
    {
        let mut values = ArrayVec::new();
        // This cannot fail: both arrays have the same capacity.
        let _ = values.try_extend_from_slice(self.as_slice());
        Digits { values }
    }
}

fn are_digits(text: &[u8]) -> bool
    ensures { result ≡ list_all is_digit text.now }
{
    text.iter().all(|character| is_digit(*character))
}

fn is_digit(character: u8) -> bool
    ensures { result ≡ is_digit character }
{
    matches!(character, b'0'..=b'9')
}

impl Default for Digits {
    ghost is_default = { λ digits. digits ≡ [] };

    fn default() -> Digits {
        Digits::new()
    }
}

impl fmt::Display for Digits {
    ghost use Rattle.std.specs.Prelude.{Some};
    ghost use Rattle.xp_packets.specs.Digits.{text_of};

    ghost output = { λ digits. Some (text_of digits) };

    fn fmt<W: fmt::Write>(&self, f: &mut fmt::Formatter<W>) -> fmt::Result {
        for digit in self.as_slice() {
            write!(f, "{digit}")?;
        }
        Ok(())
    }
}
