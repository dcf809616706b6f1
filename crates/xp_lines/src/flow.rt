//! The pushing of octets into a link.

ghost use Rattle.std.specs.Prelude.{◌≡◌, ◌≤◌, [], drop, length, take};
ghost use Rattle.std.specs.Io.KnownBytes.{Appends};
ghost use Rattle.std.specs.Vec.{vec_len};
ghost use Rattle.xp_lines.specs.Flow.{Leaves};

use std::alloc::Allocator;
use xp_links::{Link, Pushed};

/// Whether a link took all octets.
#[derive(Clone, Copy)]
pub enum Flow {
    /// It took all.
    Free,
    /// It takes no more now: the rest waits.
    Waits,
    /// It is broken.
    Broken,
}

// How many octets of a list were pushed, and whether the link took all.
struct Push {
    count: usize,
    flow: Flow,
}

/// Pushes the unwritten octets, as many as the link takes now, and keeps the others.
pub fn push_rest<L: Link, A: Allocator>(link: &mut L, unwritten: &mut Vec<u8, A>) -> Flow
    ensures leaves { Leaves (L.pushed link.old) (L.pushed link.new) unwritten.old.items unwritten.new.items }
    ensures pulled { L.pulled link.new ≡ L.pulled link.old }
    ensures free { result ≡ Flow.Free → unwritten.new.items ≡ [] }
{
    let Push { count, flow } = push_some(link, unwritten.as_slice());
    drop_front(unwritten, count);
    flow
}

/// Pushes octets, as many as the link takes now.
fn push_some<L: Link>(link: &mut L, octets: &[u8]) -> Push
    ensures within { result.count ≤ length octets.now }
    ensures pushed { Appends (L.pushed link.old) (L.pushed link.new) (take result.count octets.now) }
    ensures pulled { L.pulled link.new ≡ L.pulled link.old }
    ensures free { result.flow ≡ Flow.Free → result.count ≡ length octets.now }
{
    let mut count = 0;
    while count < octets.len() {
        match link.push(&octets[count..]) {
            Pushed::Took(0) | Pushed::Nothing => return Push {
                count,
                flow: Flow::Waits,
            },
            Pushed::Fault => return Push {
                count,
                flow: Flow::Broken,
            },
            Pushed::Took(taken) => count += taken,
        }
    }
    Push {
        count,
        flow: Flow::Free,
    }
}

/// Removes this many octets from the front.
fn drop_front<A: Allocator>(octets: &mut Vec<u8, A>, count: usize)
    requires { count ≤ vec_len octets.old }
    ensures { octets.new.items ≡ drop count octets.old.items }
{
    if count > 0 {
        let left = octets.len() - count;
        octets.copy_within(count.., 0);
        octets.truncate(left);
    }
}
