ghost use Rattle.xp_decide.specs.Laws.{TakenMayJoin, TakenIsFree, ToldCanBeWritten, ToldSizesAreIndicated, RefusalsAreKnown, RefusesWithoutIdleLine, IsDeterminedButLine, EveryRequestIsDecided, DecisionIsByOtherLines};

use std::alloc::Allocator;

/// Closed user groups permit the station of the line that rings to be joined with the caller's station, whether the
/// call was redirected or not.
pub fn taken_stations_may_join<A: Allocator>()
    ensures { TakenMayJoin A }
{}

/// A call is refused for the lack of an idle line only if it ends at an address that has no idle line.
pub fn refuses_without_idle_line_alone<A: Allocator>()
    ensures { RefusesWithoutIdleLine A }
{}

/// The line that rings was idle, and is not the caller's.
pub fn taken_line_is_free<A: Allocator>()
    ensures { TakenIsFree A }
{}

/// The facilities that the line receives can be written: some facility field of at most 107 octets indicates them,
/// and writing them can fail only because an allocation fails.
pub fn told_can_be_written<A: Allocator>()
    ensures { ToldCanBeWritten A }
{}

/// The line that rings receives packet sizes of 16 to 1,024 octets, and window sizes of 1 to the largest that both lines
/// may have: 7, or 15 if both number modulo 128.
pub fn told_sizes_are_indicated<A: Allocator>()
    ensures { ToldSizesAreIndicated A }
{}

/// A refusal is one of the refusals of call requests, with its cause and diagnostic.
pub fn refusals_are_known<A: Allocator>()
    ensures { RefusalsAreKnown A }
{}

/// A call request has only one outcome, except for which idle line rings, and for the windows that it receives, which are
/// the same for lines with the same modulus.
pub fn decision_is_determined_but_the_line<A: Allocator>()
    ensures { IsDeterminedButLine A }
{}

/// Every call request has an outcome, so an allocation failure hides no case.
pub fn every_request_is_decided<A: Allocator>()
    ensures { EveryRequestIsDecided A }
{}

/// The outcome depends on the states of all lines but the caller's, which is busy with the call itself.
pub fn decision_is_by_the_other_lines<A: Allocator>()
    ensures { DecisionIsByOtherLines A }
{}
