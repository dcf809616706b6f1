//! The laws of many turns and of many links: a function's contract is the law, and its body is empty.

ghost use Rattle.xp_lines.specs.AddUp.{LinksAddUp};
ghost use Rattle.xp_lines.specs.Together.{TurnsAddUp};

use std::alloc::Allocator;

/// All turns of a line on one link add up. The octets of the outputs that it took are those that it pushed, and then those
/// still unwritten. The octets that it pulled are the frames of packets that the exchange accepted in order, and then what waits.
/// The Down of the link comes last, and once. While the link stays nothing is lost, no output closed the connection, and no bad
/// frame header came.
pub fn turns_add_up<A: Allocator>()
    ensures { TurnsAddUp A }
{}

/// All links of a line add up. The entries of its own that its pass gained are the events of its links, one link after the other:
/// the Up of the link, the events of its turns, which add up, and at most one Down.
pub fn links_add_up<A: Allocator>()
    ensures { LinksAddUp A }
{}
