ghost use Rattle.std.specs.Prelude.{◌≡◌, [], if◌then◌else◌};
ghost use Rattle.xp_file.specs.Name.{is_line_name, is_group_name};
ghost use Rattle.xp_file.specs.steps.Letters.{is_spelled};

use crate::letters::Letters;
use arrayvec::ArrayString;
use std::fmt;
use std::hash::{Hash, Hasher};
use std::marker::Model;

/// The name of a line or of a closed user group: 1 to 16 letters and digits. A line's name has no capital letters. A place
/// that has no line has an empty name.
#[derive(Drop)]
pub struct Name {
    text: ArrayString<16>,
}

impl Model for Name {
    ghost use Rattle.std.specs.Prelude.{List, ℕ};

    ghost Value = { List ℕ };

    ghost view = { λ name. name.text.bytes };
}

impl Name {
    /// The most characters of a name.
    const MOST: usize = 16;

    /// A line's name. Returns `None` if the text cannot be one.
    pub fn of_line(text: &str) -> Option<Name>
        ensures { result ≡ (if is_line_name text.now then Some text.now else None) }
    {
        Name::of(text, Letters::LineName)
    }

    /// A group's name. Returns `None` if the text cannot be one.
    pub fn of_group(text: &str) -> Option<Name>
        ensures { result ≡ (if is_group_name text.now then Some text.now else None) }
    {
        Name::of(text, Letters::GroupName)
    }

    fn of(text: &str, letters: Letters) -> Option<Name>
        ensures { result ≡ (if is_spelled letters 1 16 text.now then Some text.now else None) }
    {
        if !letters.spell(text, 1, Name::MOST) {
            return None;
        }
        let text = ArrayString::from(text).ok()?;
        Some(Name { text })
    }

    /// The empty name of a place that has no line.
    pub fn none() -> Name
        ensures { result ≡ [] }
    {
        Name {
            text: ArrayString::new(),
        }
    }

    /// An equal copy.
    pub fn copy(&self) -> Name
        ensures { result ≡ self.now }
    {
        Name { text: self.text }
    }

    /// The name as text.
    pub fn as_str(&self) -> &str
        ensures { result.now ≡ self.now }
    {
        self.text.as_str()
    }
}

impl PartialEq for Name {
    ghost use Rattle.std.specs.Prelude.{nat_eq};
    ghost use Rattle.std.specs.Cmp.{partial_equiv_from_equiv};
    ghost use Rattle.std.specs.Cmp.Lexicographic.{pointwise, nat_list_eq_equiv};

    ghost eq = { λ a b. pointwise nat_eq a b };

    ghost laws = { partial_equiv_from_equiv nat_list_eq_equiv };

    fn eq(&self, other: &Name) -> bool {
        self.text == other.text
    }
}

impl Eq for Name {
    ghost use Rattle.std.specs.Cmp.Lexicographic.{nat_list_eq_equiv};

    ghost laws = { nat_list_eq_equiv };
}

impl Hash for Name {
    ghost use Rattle.std.specs.Hash as fed;
    ghost use Rattle.std.specs.Cmp.Rules.{hashing};
    ghost use Rattle.std.proofs.Common.{rules};

    ghost hash_input = { λ name. fed.str name };

    ghost respects_eq = { Prim.search (hashing, rules) };

    fn hash<H: Hasher>(&self, state: &mut H) {
        self.text.hash(state);
    }
}

impl fmt::Debug for Name {
    fn fmt<W: fmt::Write>(&self, f: &mut fmt::Formatter<W>) -> fmt::Result {
        fmt::Debug::fmt(&self.text, f)
    }
}

impl fmt::Display for Name {
    ghost use Rattle.std.specs.Prelude.{Some};

    ghost output = { λ name. Some name };

    fn fmt<W: fmt::Write>(&self, f: &mut fmt::Formatter<W>) -> fmt::Result {
        f.pad(self.text.as_str())
    }
}
