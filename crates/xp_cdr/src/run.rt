//! Runs of exchanges.

ghost use Rattle.std.specs.Prelude.{◌≡◌, ◌≤◌, if◌then◌else◌, Some, None, codes, length, map, take};
ghost use Rattle.std.specs.List.{list_all};
ghost use Rattle.xp_cdr.specs.Names.{IsExchangeName, clean_letter, cleaned, has_length, is_exchange_letter, is_exchange_name};

use arrayvec::ArrayVec;
use std::marker::Model;

/// The name of an exchange: 1 to 64 letters, digits, `-` and `.`.
#[derive(Drop)]
pub struct ExchangeName {
    letters: ArrayVec<u8, 64>,
}

impl Model for ExchangeName {
    ghost use Rattle.std.specs.Prelude.{List, ℕ};
    ghost use Rattle.xp_cdr.specs.Names.{IsExchangeName};

    ghost Value = { List ℕ };

    ghost view = { λ name. name.letters.items };

    ghost invariant = { λ name. IsExchangeName name.letters.items };

    ghost inverse = { λ letters. record { letters = record { items = letters } } };
}

impl ExchangeName {
    /// The most characters of a name.
    pub const MOST: usize = 64;

    /// Whether a text is a name.
    pub fn is_name(text: &str) -> bool
        ensures { result ≡ is_exchange_name text.now }
    {
        has_length(text) && are_letters(text.as_bytes())
    }

    /// The name that a text is, if it is one.
    pub fn from_text(text: &str) -> Option<ExchangeName>
        ensures { result ≡ (if is_exchange_name text.now then Some text.now else None) }
    {
        let text = text.as_bytes();
        let is_long = text.is_empty() || text.len() > ExchangeName::MOST;
        if is_long || !are_letters(text) {
            return None;
        }
        Some(ExchangeName {
            letters: characters_of(text),
        })
    }

    /// The name of an exchange on a host of this name: its first 64 characters, each that no name has as `-`. It is `localhost` where
    /// the host has none.
    pub fn of_host(host: &[u8]) -> ExchangeName
        ensures { result ≡ cleaned host.now }
    {
        if host.len() == 0 {
            return ExchangeName::of_no_host();
        }
        ExchangeName {
            letters: cleaned_letters(front(host)),
        }
    }

    /// The name of an exchange on a host without a name.
    fn of_no_host() -> ExchangeName
        ensures { result ≡ codes "localhost" }
    {
        ExchangeName {
            letters: characters_of(b"localhost"),
        }
    }

    /// The characters of the name.
    pub fn as_bytes(&self) -> &[u8]
        ensures same { result.now ≡ self.now }
        ensures plain { IsExchangeName self.now }
    {
        self.letters.as_slice()
    }

    /// An equal copy.
    pub fn copy(&self) -> ExchangeName
        ensures { result ≡ self.now }
    {
        ExchangeName {
            letters: characters_of(self.letters.as_slice()),
        }
    }
}

/// A run of an exchange.
#[derive(Drop)]
pub struct ExchangeRun {
    /// When it began, in seconds since 1970.
    pub started: u64,
    pub exchange: ExchangeName,
}

impl ExchangeRun {
    /// An equal copy.
    pub fn copy(&self) -> ExchangeRun
        ensures { result ≡ self.now }
    {
        ExchangeRun {
            started: self.started,
            exchange: self.exchange.copy(),
        }
    }
}

/// These characters.
fn characters_of(text: &[u8]) -> ArrayVec<u8, 64>
    requires { length text.now ≤ 64 }
    ensures { result.items ≡ text.now }
{
    let mut letters = ArrayVec::new();
    // This cannot fail: there is room for as many.
    let _ = letters.try_extend_from_slice(text);
    letters
}

/// The first 64 characters.
fn front(text: &[u8]) -> &[u8]
    ensures front { result.now ≡ take 64 text.now }
    ensures most { length result.now ≤ 64 }
{
    if text.len() > ExchangeName::MOST {
        &text[..ExchangeName::MOST]
    } else {
        text
    }
}

/// These characters, each that no name has as `-`.
fn cleaned_letters(text: &[u8]) -> ArrayVec<u8, 64>
    requires { length text.now ≤ 64 }
    ensures { result.items ≡ map clean_letter text.now }
{
    let mut letters = ArrayVec::new();
    for octet in text {
        letters.push(clean_letter(*octet));
    }
    letters
}

fn has_length(text: &str) -> bool
    ensures { result ≡ has_length text.now }
{
    matches!(text.len(), 1..=ExchangeName::MOST)
}

fn are_letters(text: &[u8]) -> bool
    ensures { result ≡ list_all is_exchange_letter text.now }
{
    text.iter().all(|octet| is_exchange_letter(*octet))
}

fn is_exchange_letter(octet: u8) -> bool
    ensures { result ≡ is_exchange_letter octet }
{
    matches!(octet, b'A'..=b'Z' | b'a'..=b'z' | b'0'..=b'9' | b'-' | b'.')
}

fn clean_letter(octet: u8) -> u8
    ensures { result ≡ clean_letter octet }
{
    if is_exchange_letter(octet) {
        octet
    } else {
        b'-'
    }
}
