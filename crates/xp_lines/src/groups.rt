//! Which thread serves which lines.

ghost use Rattle.std.specs.Prelude.{◌≡◌, ◌+◌, ◌≤◌, ◌++◌, [], length, map, vec_capacity, vec_len};
ghost use Rattle.std.specs.Vec.Iter.{into_iter_items, into_iter_len};

use crate::served_line::{LineInputs, ServedLine};
use std::alloc::{AllocError, Global};
use std::vec::IntoIter;
use xp_links::{Bell, Clock, Poller, Port};
use xp_seats::Name;

/// The lines with these inputs, which have had no turn, where there is room for them.
pub(crate) fn served_of<N: Name, P: Port, C: Clock, B: Bell>(
    inputs: Vec<LineInputs<N, P, C, B>>,
    room: Vec<ServedLine<N, P, C, B>>,
) -> Vec<ServedLine<N, P, C, B>>
    requires room { vec_len room + vec_len inputs ≤ vec_capacity room }
    requires none { room.items ≡ [] }
    ensures lines { result.items ≡ map (λ line. line.pass) inputs.items }
    ensures count { vec_len result ≡ vec_len inputs }
{
    let mut served = room;
    for line in inputs {
        served.push_reserved(ServedLine::new(line));
    }
    served
}

/// A thread, and room for its lines.
#[derive(Drop)]
pub(crate) struct ThreadGroup<N: Name, P: Port, C: Clock, B: Bell, T: Poller> {
    pub(crate) poller: T,
    pub(crate) room: Vec<ServedLine<N, P, C, B>>,
}

/// The threads, each with room for its lines.
pub(crate) fn groups_of<N: Name, P: Port, C: Clock, B: Bell, T: Poller>(
    alloc: Global,
    pollers: Vec<T>,
) -> Result<Vec<ThreadGroup<N, P, C, B, T>>, AllocError> {
    let mut groups = Vec::with_capacity(alloc, pollers.len())?;
    for poller in pollers {
        let room = Vec::with_capacity(alloc, poller.lines())?;
        groups.push(ThreadGroup { poller, room })?;
    }
    Ok(groups)
}

/// Takes the next lines, so many at most, and no more than there is room for.
pub(crate) fn fill<N: Name, P: Port, C: Clock, B: Bell>(
    room: Vec<ServedLine<N, P, C, B>>,
    most: usize,
    left: &mut IntoIter<ServedLine<N, P, C, B>, Global>,
) -> Vec<ServedLine<N, P, C, B>>
    requires many { length (into_iter_items left.old) ≡ into_iter_len left.old }
    ensures lines { into_iter_items left.old ≡ result.items ++ into_iter_items left.new }
    ensures many { length (into_iter_items left.new) ≡ into_iter_len left.new }
{
    let mut lines = room;
    lines.clear();
    for _place in 0..most {
        if lines.len() >= lines.capacity() {
            return lines;
        }
        let Some(line) = left.next() else {
            return lines;
        };
        lines.push_reserved(line);
    }
    lines
}
