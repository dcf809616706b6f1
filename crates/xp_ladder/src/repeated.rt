//! Characters of the diagram.

ghost use Rattle.std.specs.Prelude.{◌≡◌, codes};
ghost use Rattle.xp_ladder.specs.Ladder.{repeated, width};

use std::fmt;
use unicode_width::UnicodeWidthStr;

/// So many copies of a text.
#[derive(Clone, Copy)]
pub(crate) struct Repeated {
    pub(crate) text: &'static str,
    pub(crate) count: usize,
}

impl Repeated {
    pub(crate) fn spaces(count: usize) -> Repeated
        ensures text { result.text.now ≡ codes " " }
        ensures count { result.count ≡ count }
    {
        Repeated { text: " ", count }
    }
}

impl fmt::Display for Repeated {
    ghost use Rattle.std.specs.Prelude.{Some};

    ghost output = { λ copies. Some (repeated copies.text.now copies.count) };

    #[tactic(auto, unfolding(crate::specs::Ladder::repeated))]
    fn fmt<W: fmt::Write>(&self, f: &mut fmt::Formatter<W>) -> fmt::Result {
        for _copy in 0..self.count {
            f.write_str(self.text)?;
        }
        Ok(())
    }
}

/// The columns that a text takes in a terminal.
#[tactic(auto, unfolding(crate::specs::Ladder::width))]
pub(crate) fn width(text: &str) -> usize
    ensures { result ≡ width text.now }
{
    text.width()
}
