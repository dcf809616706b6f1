//! The lines to which some entries put something out.

ghost use Rattle.std.specs.Prelude.{◌≡◌, ◌≤◌, length};
ghost use Rattle.xp_lock.specs.steps.Given.{with_lines};
ghost use Rattle.xp_lock.specs.Given.{is_among};

use arrayvec::ArrayVec;
use std::alloc::Allocator;
use xp_step::Output;
use xp_subs::LineNo;

/// For how many lines a `GivenLines` has room. One event, with the stalls that it forces, puts something out to three lines
/// at most.
pub const MOST_GIVEN: usize = 4;

/// The lines to which something was put out, each once.
pub type GivenLines = ArrayVec<LineNo, MOST_GIVEN>;

/// Adds the lines of these outputs that are not there yet.
pub fn add_lines<A: Allocator>(given: &mut GivenLines, outputs: &[Output<A>])
    requires { length (with_lines given.old.items outputs.now) ≤ 3 }
    ensures { given.new.items ≡ with_lines given.old.items outputs.now }
{
    for output in outputs {
        if !is_there(given.as_slice(), output.line) {
            given.push(output.line);
        }
    }
}

/// Whether a line is among these lines.
fn is_there(lines: &[LineNo], line: LineNo) -> bool
    ensures { result ≡ is_among line lines.now }
{
    for other in lines {
        if *other == line {
            return true;
        }
    }
    false
}
