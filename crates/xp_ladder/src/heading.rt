//! The names of the lines above a ladder diagram.

ghost use Rattle.std.specs.Prelude.{◌≡◌, IfOk};
ghost use Rattle.std.specs.String.{string_bytes};
ghost use Rattle.xp_ladder.specs.Ladder.{heading_text};

use crate::repeated::{Repeated, width};
use std::alloc::{AllocError, Global};
use std::fmt;

/// The names of the lines, above their poles. It has 80 columns where the name at the left has at most 34 columns, and those at the
/// right at most 27.
#[derive(Clone, Copy)]
pub struct Heading<'a> {
    /// The name of the line at the left.
    pub left: &'a str,
    /// The names of the lines at the right.
    pub right: &'a str,
}

impl Heading<'_> {
    /// The row, without a line feed.
    ///
    /// # Errors
    ///
    /// An allocation failed.
    pub fn text(&self, alloc: Global) -> Result<String, AllocError>
        ensures { IfOk result (λ text. string_bytes text ≡ heading_text self.now.left.now self.now.right.now) }
    {
        self.to_string(alloc)
    }
}

impl fmt::Display for Heading<'_> {
    ghost use Rattle.std.specs.Prelude.{Some};

    ghost output = { λ heading. Some (heading_text heading.left.now heading.right.now) };

    fn fmt<W: fmt::Write>(&self, f: &mut fmt::Formatter<W>) -> fmt::Result {
        let moments = Repeated::spaces(11);
        let exchange = Repeated::spaces(34usize.saturating_sub(width(self.left)));
        let right = Repeated::spaces(27usize.saturating_sub(width(self.right)));
        write!(
            f,
            "{moments}{}{exchange}exchange{right}{}",
            self.left, self.right
        )
    }
}
