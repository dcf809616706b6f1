//! Which pass is missing as an exchange is to be closed.

ghost use Rattle.std.specs.Prelude.{◌≡◌, IfNone, IfSome, true};
ghost use Rattle.xp_lock.specs.Closing.{HasAll, IsMissing, has_line};

use crate::pass::LinePass;
use std::alloc::Allocator;
use xp_seats::Name;
use xp_subs::LineNo;

/// Returns the lowest of so many lines whose pass is not here, or `None` if all are here.
pub fn first_missing<N: Name, A: Allocator>(
    lines: LineNo,
    passes: &[LinePass<N, A>],
) -> Option<LineNo>
    ensures missing { IfSome result (IsMissing lines passes.now) }
    ensures all { IfNone result (HasAll lines passes.now) }
{
    for line in 0..lines {
        if !is_here(line, passes) {
            return Some(line);
        }
    }
    None
}

/// Whether the pass of a line is here. Passes that stand in the order of their lines are found at once.
fn is_here<N: Name, A: Allocator>(line: LineNo, passes: &[LinePass<N, A>]) -> bool
    ensures { result ≡ has_line line passes.now }
{
    is_in_its_place(line, passes) || is_found(line, passes)
}

/// Whether the pass of a line stands in the place with the line's number.
fn is_in_its_place<N: Name, A: Allocator>(line: LineNo, passes: &[LinePass<N, A>]) -> bool
    ensures { result ≡ true → has_line line passes.now ≡ true }
{
    match passes.get(usize::from(line)) {
        Some(pass) => pass.line() == line,
        None => false,
    }
}

/// Whether the pass of a line stands in any place.
fn is_found<N: Name, A: Allocator>(line: LineNo, passes: &[LinePass<N, A>]) -> bool
    ensures { result ≡ has_line line passes.now }
{
    for pass in passes {
        if pass.line() == line {
            return true;
        }
    }
    false
}
