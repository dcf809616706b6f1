//! A message in a ladder diagram.

ghost use Rattle.std.specs.Prelude.{◌≡◌, IfOk};
ghost use Rattle.std.specs.String.{string_bytes};

use crate::repeated::{Repeated, width};
use crate::side::Side;
use std::alloc::{AllocError, Global};
use std::fmt;
use xp_words::Direction;

/// The columns of the words on an arrow.
const WORDS: usize = 29;

/// The columns between two poles.
const BETWEEN: usize = 33;

/// A message between a line and the exchange: an arrow with words. It has 80 columns where the moment has at most 10 digits and the
/// words at most 29 columns; nothing is cut off.
#[derive(Clone, Copy)]
pub struct Rung<'a> {
    /// The second in which it goes.
    pub moment: u64,
    /// Where the line stands.
    pub side: Side,
    pub direction: Direction,
    /// What the message says, in one line.
    pub words: &'a str,
}

impl Rung<'_> {
    ghost use Rattle.xp_ladder.specs.Ladder.{rung_text};

    /// The row, without a line feed.
    ///
    /// # Errors
    ///
    /// An allocation failed.
    pub fn text(&self, alloc: Global) -> Result<String, AllocError>
        ensures { IfOk result (λ text. string_bytes text ≡ rung_text self.now) }
    {
        self.to_string(alloc)
    }
}

impl fmt::Display for Rung<'_> {
    ghost use Rattle.std.specs.Prelude.{Some};
    ghost use Rattle.xp_ladder.specs.Ladder.{rung_text};

    ghost output = { λ rung. Some (rung_text rung) };

    fn fmt<W: fmt::Write>(&self, f: &mut fmt::Formatter<W>) -> fmt::Result {
        let moment = self.moment;
        let empty = Repeated::spaces(BETWEEN);
        let arrow = Arrow {
            side: self.side,
            direction: self.direction,
            words: self.words,
        };
        match self.side {
            Side::Left => write!(f, "{moment:>10} │{arrow}│{empty}│"),
            Side::Right => write!(f, "{moment:>10} │{empty}│{arrow}│"),
        }
    }
}

/// An arrow from one pole to the other.
#[derive(Clone, Copy)]
struct Arrow<'a> {
    side: Side,
    direction: Direction,
    words: &'a str,
}

impl fmt::Display for Arrow<'_> {
    ghost use Rattle.std.specs.Prelude.{Some};
    ghost use Rattle.xp_ladder.specs.Ladder.{arrow};

    ghost output = { λ drawn. Some (arrow drawn.side drawn.direction drawn.words.now) };

    fn fmt<W: fmt::Write>(&self, f: &mut fmt::Formatter<W>) -> fmt::Result {
        let words = self.words;
        let dashes = Repeated {
            text: "─",
            count: WORDS.saturating_sub(width(words)),
        };
        let (tail, head) = match (self.side, self.direction) {
            (Side::Left, Direction::FromDte) | (Side::Right, Direction::FromDce) => ("─", "►"),
            (Side::Left, Direction::FromDce) | (Side::Right, Direction::FromDte) => ("◄", "─"),
        };
        write!(f, "{tail} {words} {dashes}{head}")
    }
}
