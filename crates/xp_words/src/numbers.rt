//! The numbers and the bits of a data packet in words.

ghost use Rattle.xp_words.specs.Packets.{numbers_text};

use std::fmt::{self, Display};

/// P(S), P(R), and the bits that are set, such as ` P(S)=2 P(R)=3 M`.
#[derive(Clone, Copy)]
pub(crate) struct NumberWords {
    pub(crate) q: bool,
    pub(crate) d: bool,
    pub(crate) more: bool,
    pub(crate) ps: u8,
    pub(crate) pr: u8,
}

impl Display for NumberWords {
    ghost use Rattle.std.specs.Prelude.{Some};

    ghost output = { λ numbers. Some (numbers_text numbers.q numbers.d numbers.more numbers.ps numbers.pr) };

    fn fmt<W: fmt::Write>(&self, f: &mut fmt::Formatter<W>) -> fmt::Result {
        let ps = self.ps;
        let pr = self.pr;
        let q = if self.q { " Q" } else { "" };
        let d = if self.d { " D" } else { "" };
        let more = if self.more { " M" } else { "" };
        write!(f, " P(S)={ps} P(R)={pr}{q}{d}{more}")
    }
}
