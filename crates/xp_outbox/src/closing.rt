ghost use Rattle.std.specs.Prelude.{◌≡◌, ◌+◌, length};
ghost use mathlib.Core.List.{IsPrefix};

use crate::put::PutEnd;
use crate::rule::{Ends, Rest};
use crate::take::TakeEnd;
use std::alloc::Allocator;
use std::sync::Wait;

/// Joins the two ends of one outbox, and returns how many items were put and not taken. The items taken are the first of
/// the items put. The put end stays as it was.
pub fn count_untaken<T: Drop, A: Allocator, R: Wait>(
    rt: &R,
    put: &mut PutEnd<T, A>,
    taken: TakeEnd<T, A>,
) -> usize
    requires { put.old.queue ≡ taken.queue }
    ensures same { put.new ≡ put.old }
    ensures front { IsPrefix taken.taken put.old.put }
    ensures rest { length taken.taken + result ≡ length put.old.put }
{
    put.queue.absorb::<Ends>(&mut put.pass, taken.pass);
    let rest = put.queue.len_as::<Rest, R>(rt, &mut put.pass);
    put.queue.another::<Ends>(&mut put.pass);
    rest
}
