//! How the lines of a thread ended.

ghost use Rattle.std.specs.Prelude.{◌≡◌, ◌+◌, ◌≤◌, length, vec_capacity, vec_len};
ghost use Rattle.std.specs.Vec.Iter.{into_iter_items, into_iter_len};
ghost use Rattle.xp_lines.specs.Sessions.{AreMoved};
ghost use Rattle.xp_lines.specs.steps.Serving.{EndsSo};
ghost use Rattle.xp_lines.specs.steps.Threads.{Adds};

use crate::line::LineEnd;
use crate::served_line::ServedLine;
use std::alloc::Global;
use std::vec::IntoIter;
use xp_links::{Bell, Clock, Port};
use xp_seats::Name;

/// Adds how these lines ended.
pub(crate) fn add_ends<N: Name, P: Port, C: Clock, B: Bell>(
    lines: Vec<ServedLine<N, P, C, B>>,
    ends: Vec<LineEnd<N>>,
) -> Vec<LineEnd<N>>
    requires room { vec_len ends + vec_len lines ≤ vec_capacity ends }
    ensures adds { Adds (EndsSo N.subs (AreMoved P.Link.pushed P.Link.pulled)) ends.items lines.items result.items }
    ensures capacity { vec_capacity result ≡ vec_capacity ends }
    ensures len { vec_len result ≡ vec_len ends + vec_len lines }
{
    let mut ends = ends;
    for line in lines {
        ends.push_reserved(line.into_end());
    }
    ends
}

/// Adds that these lines ended as they have no thread, or that could not be started.
pub(crate) fn add_unstarted<N: Name, P: Port, C: Clock, B: Bell>(
    lines: IntoIter<ServedLine<N, P, C, B>, Global>,
    ends: Vec<LineEnd<N>>,
) -> Vec<LineEnd<N>>
    requires many { length (into_iter_items lines) ≡ into_iter_len lines }
    requires room { vec_len ends + length (into_iter_items lines) ≤ vec_capacity ends }
    ensures adds { Adds (EndsSo N.subs (AreMoved P.Link.pushed P.Link.pulled)) ends.items (into_iter_items lines) result.items }
    ensures capacity { vec_capacity result ≡ vec_capacity ends }
    ensures len { vec_len result ≡ vec_len ends + length (into_iter_items lines) }
{
    let mut ends = ends;
    for line in lines {
        ends.push_reserved(line.into_unstarted());
    }
    ends
}
