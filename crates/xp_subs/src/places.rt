//! Finds a place for each line of a newly read file.
ghost use Rattle.std.specs.Prelude.{◌≡◌, ◌+◌, ◌<◌, ◌≤◌, true, false, length, set, IfSome, IfNone};
ghost use Rattle.xp_subs.specs.Bounds.{most_lines};
ghost use Rattle.xp_subs.specs.steps.Places.{same_modulus, number_at, is_free};

use crate::LineNo;
use crate::line::Line;
use xp_packets::Modulus;

/// In place of a line's number, where there is none.
pub(crate) const NO_LINE: LineNo = 4_096;

/// The place of each line of the file, and the line that each place has. A number past the places stands for a line that has
/// no place yet, and a number past the lines for a place that has no line.
#[derive(Drop)]
pub(crate) struct Places {
    pub(crate) of_lines: Vec<LineNo>,
    pub(crate) holders: Vec<LineNo>,
}

impl Places {
    /// The first place of this modulus, at or behind `from`, that has no line.
    pub(crate) fn free_from(&self, old: &[Line], modulus: Modulus, from: usize) -> Option<usize>
        requires { length self.now.holders.items ≡ length old.now }
        ensures found { IfSome result (λ at. (from ≤ at) × (at < length old.now) × (is_free old.now self.now.holders.items (length self.now.of_lines.items) modulus at ≡ true)) }
        ensures first { IfSome result (λ at. (k : _) → from ≤ k → k < at → is_free old.now self.now.holders.items (length self.now.of_lines.items) modulus k ≡ false) }
        ensures none { IfNone result ((k : _) → from ≤ k → k < length old.now → is_free old.now self.now.holders.items (length self.now.of_lines.items) modulus k ≡ false) }
    {
        for at in from..old.len() {
            if self.is_free(old, modulus, at) {
                return Some(at);
            }
        }
        None
    }

    fn is_free(&self, old: &[Line], modulus: Modulus, at: usize) -> bool
        requires within { at < length old.now }
        requires wide { length self.now.holders.items ≡ length old.now }
        ensures { result ≡ is_free old.now self.now.holders.items (length self.now.of_lines.items) modulus at }
    {
        same_modulus(modulus, old[at].modulus)
            && usize::from(self.holders[at]) >= self.of_lines.len()
    }

    /// Gives a line this place.
    pub(crate) fn put(&mut self, line: usize, at: usize)
        requires line { line < length self.old.of_lines.items }
        requires place { at < length self.old.holders.items }
        requires few { (line < most_lines) × (at < most_lines) }
        ensures of_lines { self.new.of_lines.items ≡ set self.old.of_lines.items line at }
        ensures holders { self.new.holders.items ≡ set self.old.holders.items at line }
    {
        self.of_lines[line] = at as LineNo;
        self.holders[at] = line as LineNo;
    }
}

/// Whether the two are the same.
pub(crate) fn same_modulus(one: Modulus, other: Modulus) -> bool
    ensures { result ≡ same_modulus one other }
{
    matches!(
        (one, other),
        (Modulus::Eight, Modulus::Eight) | (Modulus::Long, Modulus::Long)
    )
}
