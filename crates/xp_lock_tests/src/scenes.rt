//! An exchange under a lock that one thread plays with; and each request for memory refused in turn.

ghost use Rattle.std.specs.Prelude.{◌≡◌};

use crate::log::Log;
use crate::starting::{Scripts, scene};
use std::alloc::Global;
use std::marker::Brand;
use std::sync::Wait;
use std::test::Fail;
use xp_lock::prepare;
use xp_subs::Subs;
use xp_testing::{Refusing, THREE_STATIONS};

/// Scenes, and behind `= ` what is told of each. In the end there are the numbers of entries, of outputs that a1 and b1 took, and of
/// records; of each record that waits its number, the moment of its end, its segments and its seconds; how many records were taken;
/// and the line whose pass was missing, as the exchange was to be closed without the last.
///
/// The exchange is halted before b1 answers: its answer is refused, and it is rung. It is told whether the exchange was halted
/// before, and is.
///
/// Two calls end before a first take of records, one before another, and one after it: a1 calls b1, which is out of service.
///
/// A slow line: b1 takes none of forty packets, and is stalled by the fortieth. Then it comes up, before it takes what was kept for
/// it and after. There are two connections, the call and its answer, and the packets with thirty-nine acknowledgements between them.
/// a1 takes the answer, these acknowledgements and the clear indication, b1 the call, the packets and what closes its connection. The
/// call is connected at 10, and the stall has the moment of the fortieth packet. Of 86 events one Up is refused, and one entry is the
/// stall's.
///
/// A prompt line: b1 takes each of forty packets at once, and is not stalled.
const SCENES: &str = "a1 up b1 up at=1 a1 call halt at=2 b1 accepted takes
= 0 1 halted 1 call 0 0 3 0 1 0 received 0 missing 4

a1 up
records
at=1 a1 call confirmation drops at=2 call confirmation drops
records
records
at=3 a1 call confirmation drops
records
at=4 a1 call confirmation drops
= 0 2 2 3 9 4 0 4 4 4 0 0 0 received 3 missing 4

a1 up b1 up a1 ?call at=10 b1 accepted at=99
5x tick a1 drops data0 b1 ready1 tick a1 drops data1 b1 ready2 tick a1 drops data2 b1 ready3 tick a1 drops data3 b1 ready4 tick a1 drops data4 b1 ready5 tick a1 drops data5 b1 ready6 tick a1 drops data6 b1 ready7 tick a1 drops data7 b1 ready0
a1 takes at=200 b1 up takes up
= 1 1 clear 9 0 no-room 42 close 0 0 86 41 42 1 1 139 40 0 129 received 0 missing 4

a1 up b1 up a1 ?call at=10 b1 accepted at=99
5x tick a1 drops data0 b1 drops ready1 tick a1 drops data1 b1 drops ready2 tick a1 drops data2 b1 drops ready3 tick a1 drops data3 b1 drops ready4 tick a1 drops data4 b1 drops ready5 tick a1 drops data5 b1 drops ready6 tick a1 drops data6 b1 drops ready7 tick a1 drops data7 b1 drops ready0
a1 takes b1 drops at=200 b1 up takes up
= 1 1 other 0 0 0 none 0 0 86 41 41 0 received 0 missing 4";

/// b1 is stalled, and the record is taken.
const REFUSED: &str = "a1 up b1 up a1 call b1 accepted
5x tick a1 drops data0 b1 ready1 tick a1 drops data1 b1 ready2 tick a1 drops data2 b1 ready3 tick a1 drops data3 b1 ready4 tick a1 drops data4 b1 ready5 tick a1 drops data5 b1 ready6 tick a1 drops data6 b1 ready7 tick a1 drops data7 b1 ready0
a1 drops
records";

/// What is told of it.
const REFUSED_TOLD: &str = "1 85 41 0 1 received 1 missing 4 ";

/// Plays a scene with this memory for the exchange. Nothing is told where it is wanting at the start.
fn played(
    rt: &impl Wait,
    alloc: Global,
    scarce: &Refusing<Global>,
    scripts: &str,
) -> Result<Log, Fail> {
    let subs = Subs::read(alloc, THREE_STATIONS)?;
    let Ok(prepared) = prepare(scarce, subs) else {
        return Ok(Log::new(alloc));
    };
    let scripts = Scripts { text: scripts };
    let log = Log::new(alloc);
    Ok(scene::<Brand, _>(rt, scarce, prepared, scripts, log)?)
}

/// Whether a scene is as told.
fn is_as_told(rt: &impl Wait, alloc: Global, text: &str) -> Result<bool, Fail> {
    let (scripts, told) = text.split_once("= ").unwrap_or(("", text));
    let ample = Refusing::new(alloc, 0);
    let log = played(rt, alloc, &ample, scripts)?;
    Ok(log.told.as_str().trim_end() == told)
}

#[test]
fn scenes_as_told(rt: HostRuntime) -> Result<(), Fail> {
    for text in SCENES.split("\n\n") {
        assert!(rt; is_as_told(&rt, rt.alloc(), text)?, "{text}");
    }
    Ok(())
}

/// What comes of a scene of which a request for memory is refused.
#[derive(Clone, Copy)]
struct Refused {
    /// Whether it was told as with enough memory, or nothing since memory was wanting at the start.
    as_told: bool,
    /// How often an offer, and a taking of records, was made again.
    offers: u64,
    takes: u64,
    /// Whether no request was refused.
    is_whole: bool,
}

/// Refuses the request for memory of this number.
fn with_refusal(rt: &impl Wait, alloc: Global, number: u64) -> Result<Refused, Fail> {
    let scarce = Refusing::new(alloc, number);
    let log = played(rt, alloc, &scarce, REFUSED)?;
    let told = log.told.as_str();
    Ok(Refused {
        as_told: told.is_empty() || told == REFUSED_TOLD,
        offers: log.offers_again,
        takes: log.takes_again,
        is_whole: scarce.is_pending() && !told.is_empty(),
    })
}

#[test]
fn refused_offers_change_nothing(rt: HostRuntime) -> Result<(), Fail> {
    let (mut offers, mut takes) = (0u64, 0u64);
    for number in 1..5000u64 {
        let refused = with_refusal(&rt, rt.alloc(), number)?;
        assert!(rt; refused.as_told, "{number}");
        offers = offers.saturating_add(refused.offers);
        takes = takes.saturating_add(refused.takes);
        if refused.is_whole {
            break;
        }
    }
    assert!(rt; offers > 10 && takes == 1, "{offers} offers, {takes} takes");
    Ok(())
}
