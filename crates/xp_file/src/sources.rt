ghost use Rattle.std.specs.Prelude.{◌≡◌, ◌<◌, ◌≤◌, ◌==◌, [], ◌∷◌, ◌++◌, length, slice_get, option_copied, IfSome, IfNone, IsTrue, false};
ghost use Rattle.xp_file.specs.Sources.{is_ip_address, is_source};

use crate::letters::Letters;
use arrayvec::{ArrayString, ArrayVec};
use std::marker::Model;

/// The most characters of an address or a network.
pub(crate) const MOST_CHARACTERS: usize = 45;

/// The addresses and networks from which the connections of a line may come, as texts: at most 8. There are none where any
/// address may.
#[derive(Drop)]
pub struct Sources {
    texts: ArrayVec<ArrayString<MOST_CHARACTERS>, 8>,
}

impl Model for Sources {
    ghost use Rattle.std.specs.Prelude.{List, ℕ, map};
    ghost use Rattle.arrayvec.specs.ArrayString.{ArrayString as Text};

    ghost Value = { List (List ℕ) };

    ghost view = { λ sources. map (λ (text : Text). text.bytes) sources.texts.items };
}

impl Sources {
    /// The most of them for a line.
    pub(crate) const MOST: usize = 8;

    /// None.
    pub fn new() -> Sources
        ensures { result ≡ [] }
    {
        Sources {
            texts: ArrayVec::new(),
        }
    }

    /// Adds one at the end. Returns `None` if the text does not have the form of an address or a network.
    pub(crate) fn push(&mut self, text: &str) -> Option<()>
        requires { length self.old < 8 }
        ensures added { IfSome result (λ _. IsTrue (is_source text.now) × (self.new ≡ self.old ++ text.now ∷ [])) }
        ensures refused { IfNone result ((is_source text.now ≡ false) × (self.new ≡ self.old)) }
    {
        if !is_source(text) {
            return None;
        }
        self.texts.push(ArrayString::from(text).ok()?);
        Some(())
    }

    /// How many there are, 0 to 8.
    pub fn len(&self) -> usize
        ensures count { result ≡ length self.now }
        ensures most { result ≤ 8 }
    {
        self.texts.len()
    }

    /// Whether there are none, so that connections may come from any address.
    pub fn is_empty(&self) -> bool
        ensures { result ≡ (length self.now == 0) }
    {
        self.texts.is_empty()
    }

    /// The one at this place, from 0, in the order of the file. Returns `None` behind the last one.
    pub fn get(&self, place: usize) -> Option<&str>
        ensures { option_copied result ≡ slice_get self.now place }
    {
        Some(self.texts.get(place)?.as_str())
    }

    /// An equal copy.
    pub fn copy(&self) -> Sources
        ensures { result ≡ self.now }
    {
        let mut texts = ArrayVec::new();
        // This cannot fail: both arrays have the same capacity.
        let _ = texts.try_extend_from_slice(self.texts.as_slice());
        Sources { texts }
    }
}

/// Whether a text has the form of an IPv4 or IPv6 address.
pub(crate) fn is_ip_address(text: &str) -> bool
    ensures { result ≡ is_ip_address text.now }
{
    Letters::IpAddress.spell(text, 2, MOST_CHARACTERS)
}

/// Whether a text has the form of an address, or of a network such as `10.0.0.0/8`.
pub(crate) fn is_source(text: &str) -> bool
    ensures { result ≡ is_source text.now }
{
    Letters::Source.spell(text, 2, MOST_CHARACTERS)
}

impl PartialEq for Sources {
    ghost use Rattle.std.specs.Prelude.{nat_eq};
    ghost use Rattle.std.specs.Cmp.{partial_equiv_from_equiv};
    ghost use Rattle.std.specs.Cmp.Lexicographic.{pointwise, lists_per, nat_list_eq_equiv};

    ghost eq = { λ a b. pointwise (pointwise nat_eq) a b };

    ghost laws = { lists_per (partial_equiv_from_equiv nat_list_eq_equiv) };

    fn eq(&self, other: &Sources) -> bool {
        self.texts == other.texts
    }
}
