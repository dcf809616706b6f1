//! Links that fail at each pull and at each push in turn.

use crate::serving::serve;
use std::alloc::Global;
use std::sync::Wait;
use std::test::Fail;
use std::thread::Threads;
use xp_testing::number;
use xp_testing_wires::words_of;

/// a1 calls b1, which accepts; a1 clears the call, and b1 confirms it. A link fails at a pull, or at a push, each of which takes
/// one octet then: below the number `called` before a1 calls, and below the number `cleared` before a1 clears the call, so that
/// the call ends as the line does. From the number `met` on the run meets no fault: as many as there are turns on the link, or
/// octets that are wanted.
///
/// A line pulls once in a turn. a1 calls at its first pull and clears at its second; b1 accepts at its first and confirms at its
/// second. The first 15 octets for a1 are the call connected packet, and the first 26 for b1 the incoming call.
const PULLS: &str = "serve turns=9 records=9 called=1 cleared=2 met=8
a1 pull-fault >call <connected >clear <confirmation
b1 <incoming >accepted <clear >confirmation

serve turns=9 records=9 called=0 cleared=1 met=8
a1 >call <connected >clear <confirmation
b1 pull-fault <incoming >accepted <clear >confirmation";

/// The same at pushes.
const PUSHES: &str = "serve turns=9 records=9 called=0 cleared=15 met=22
a1 push-fault most=1 >call <connected >clear <confirmation
b1 most=1 <incoming >accepted <clear >confirmation

serve turns=9 records=9 called=0 cleared=26 met=35
a1 most=1 >call <connected >clear <confirmation
b1 push-fault most=1 <incoming >accepted <clear >confirmation";

/// The record of the call where the link fails at the pull or push of this number.
fn wanted_record(scene: &str, at: u64) -> &'static str {
    if at < number(scene, "called=", 0) {
        ""
    } else if at < number(scene, "cleared=", 0) {
        "record 1 a1 b1 2080020 caller 0 0 09 0 0\n"
    } else {
        "record 1 a1 b1 2080020 caller 0 0 00 0 0\n"
    }
}

/// What is told where the line whose link fails was given something that it was not to be given.
fn unfair_to(scene: &str) -> &'static str {
    if words_of(scene, "a1").contains("-fault") {
        "a1 wrong"
    } else {
        "b1 wrong"
    }
}

/// Serves the lines of a scene whose link fails at the pull or push of this number. What it took before is what it is to be given. Whether
/// all is as it is to be.
fn is_as_wanted(
    rt: &(impl Threads + Wait + Sync),
    alloc: Global,
    scene: &str,
    at: u64,
) -> Result<bool, Fail> {
    let fails = at < number(scene, "met=", 0);
    let text = serve(rt, alloc, scene, true, at)?;
    let (told, records) = text.split_once('\n').unwrap_or(("", ""));
    Ok(
        records == wanted_record(scene, at)
            && told.contains(" failed") == fails
            && !told.contains(unfair_to(scene))
            && (fails || told == "TTTTTT 8"),
    )
}

/// One link fails at the first pull or push, then in a new run at the second, until a run meets no fault.
#[test]
fn links_that_fail(rt: HostRuntime) -> Result<(), Fail> {
    for scenes in [PULLS, PUSHES] {
        for scene in scenes.split("\n\n") {
            for at in 0..=number(scene, "met=", 0).min(1_000) {
                assert!(rt; is_as_wanted(&rt, rt.alloc(), scene, at)?, "{at}: {scene}");
            }
        }
    }
    Ok(())
}
