//! Lines that are served: calls, an expiry, a halt, a broken port, a full journal, a slow link, records and stops.
//!
//! A scene tells how its lines are served, what their links do (`xp_testing_wires`), and behind `= ` what comes of it: why each line has
//! ended, how many entries there are, what differs from the plans, and the records. It is the same whether each line has a thread
//! (`threads`) or one thread serves them all (`together`).

use crate::serving::serve;
use std::alloc::Global;
use std::sync::Wait;
use std::test::Fail;
use std::thread::Threads;
use xp_testing::{number, setting};
use xp_testing_wires::words_of;

/// h1 calls b1, which accepts. Then a1 calls the other hunt group, whose first line is busy, and the link of the second
/// ends once it was given the call. The links of a1 and of h1 give nothing until the other has a packet to give too: lines that were
/// served one after another would end as late.
///
/// Then five links give packets at once, and end with their turns. a1 has four calls refused, of which each makes a record. The
/// others give clear confirmations: one where there is no call to confirm, and one that confirms the clear indication.
const AT_ONCE: &str = "serve threads
a1 meets=2 pulled=3 h1-took=15 >call-h <out-of-order
b1 <incoming-b >accepted
h1 meets=0 pulled=1 >call-b <connected
h2 <incoming-h >end
= HHHHHH 8
record 2 a1 h2 2080030 caller 0 0 09 0 0

serve threads turns=1000 records=9
a1 meets=01234 >call-nobody >confirmation >call-nobody >confirmation >call-nobody >confirmation >call-nobody >confirmation <not-obtainable <not-obtainable <not-obtainable <not-obtainable
b1 meets=01234 >confirmation >confirmation >confirmation >confirmation >confirmation >confirmation >confirmation >confirmation <confirmed-idle <confirmed-idle <confirmed-idle <confirmed-idle
h1 meets=01234 >confirmation >confirmation >confirmation >confirmation >confirmation >confirmation >confirmation >confirmation <confirmed-idle <confirmed-idle <confirmed-idle <confirmed-idle
h2 meets=01234 >confirmation >confirmation >confirmation >confirmation >confirmation >confirmation >confirmation >confirmation <confirmed-idle <confirmed-idle <confirmed-idle <confirmed-idle
h3 meets=01234 >confirmation >confirmation >confirmation >confirmation >confirmation >confirmation >confirmation >confirmation <confirmed-idle <confirmed-idle <confirmed-idle <confirmed-idle
= TTTTTT 50
record 1 a1 - 2080099 caller 0 0 0d 67 0
record 2 a1 - 2080099 caller 0 0 0d 67 0
record 3 a1 - 2080099 caller 0 0 0d 67 0
record 4 a1 - 2080099 caller 0 0 0d 67 0";

/// A call that is not answered in time. A link that fails within the incoming call. A halted exchange: nothing is taken from the
/// links, and nothing given. A broken port, which ends its line alone. Data in both directions of a call. A full journal: the
/// answer finds it full, and the caller is told nothing.
const SERVED: &str = "serve threads together step=1
a1 pulled=1234 >call <caller-expired
b1 <incoming <called-expired
h1
h2
h3
= HHHHHH 7
record 1 a1 b1 2080020 caller 0 0 11 49 0

serve threads together at=5
a1 pulled=1234 >call <out-of-order
b1 push-fault most=1 <incoming
h1
h2
h3
= HHHHHH 7 failed b1 5
record 1 a1 b1 2080020 caller 0 0 09 0 0

serve threads together halted=1
a1 pulled=1234 >call
b1
h1
h2
= HHHHHH 0

serve threads together
a1 pulled=1234 >call <connected >clear <confirmation
b1 <incoming >accepted <clear
h1
h2
h3 broken
= HHHHPH 7
record 1 a1 b1 2080020 caller 0 0 00 0 0

serve threads together
a1 pulled=1234 >call <connected >data0 <data0 >clear <confirmation
b1 <incoming >accepted <data0 >data0 <clear
h1
h2
h3
= HHHHHH 10
record 1 a1 b1 2080020 caller 1 1 00 0 0

serve threads together journal=9
a1 pulled=1234 >call
b1 <incoming >accepted
h1
h2
h3
= HJHHHH 6";

/// m1, modulo 128, calls b1, modulo 8, in turns of 100 seconds. b1 comes first in each round: it accepts in its second turn on the
/// link, and m1 clears in its third. Then a call of which the turns with nothing to read are counted: they let time pass. a1's call
/// and its clear wake b1, and b1's answer wakes a1: its confirmation puts nothing out.
///
/// Then b1's link takes nothing, and the line is stalled with its forty-first data packet. It took the incoming call alone.
const TURNS: &str = "serve together turns=6 records=9 read=100
m1 >call-128 <connected-128 >data-128 <ready-128 >clear-128 <confirmation-128
b1 <incoming-m >accepted <data0 >ready1 <clear >confirmation
= TTTTTT 10
record 1 m1 b1 2080020 caller 1 0 00 0 100

serve together turns=7 records=9
a1 counted >call <connected >clear <confirmation
b1 counted <incoming >accepted <clear >confirmation
h1 counted none
= TTTTTT 8 a1 counts 6 4 1 b1 counts 6 4 2 h1 counts 0 7 0
record 1 a1 b1 2080020 caller 0 0 00 0 0

serve together turns=51 records=9 taken=1
a1 >call >data0 >data1 >data2 >data3 >data4 >data5 >data6 >data7 >data0 >data1 >data2 >data3 >data4 >data5 >data6 >data7 >data0 >data1 >data2 >data3 >data4 >data5 >data6 >data7 >data0 >data1 >data2 >data3 >data4 >data5 >data6 >data7 >data0 >data1 >data2 >data3 >data4 >data5 >data6 >data7 >data0 <connected <ready1 <ready2 <ready3 <ready4 <ready5 <ready6 <ready7 <ready0 <ready1 <ready2 <ready3 <ready4 <ready5 <ready6 <ready7 <ready0 <ready1 <ready2 <ready3 <ready4 <ready5 <ready6 <ready7 <ready0 <ready1 <ready2 <ready3 <ready4 <ready5 <ready6 <ready7 <ready0 <ready1 <ready2 <ready3 <ready4 <ready5 <ready6 <ready7 <ready0 <out-of-order
b1 most=0 >accepted >ready1 >ready2 >ready3 >ready4 >ready5 >ready6 >ready7 >ready0 >ready1 >ready2 >ready3 >ready4 >ready5 >ready6 >ready7 >ready0 >ready1 >ready2 >ready3 >ready4 >ready5 >ready6 >ready7 >ready0 >ready1 >ready2 >ready3 >ready4 >ready5 >ready6 >ready7 >ready0 >ready1 >ready2 >ready3 >ready4 >ready5 >ready6 >ready7 >ready0 >ready1
= TTTTTT 89 taken 42 1
record 1 a1 b1 2080020 caller 41 0 09 0 0";

/// Calls to an address that nobody has, which make a record at once. One halts the exchange, or not where two are wanted. The sink
/// stops serving with its first record, though more are wanted. Then the links of the lines give nothing until the sink was given so
/// many records, so each call waits for the record of the one before: records that came only as all lines have ended would be waited
/// for in vain.
const RECORDED: &str = "serve threads
a1 >call-nobody <not-obtainable
= HHHHHH 2
record 1 a1 - 2080099 caller 0 0 0d 67 0

serve threads turns=10 records=2
a1 counted >call-nobody <not-obtainable
= TTTTTT 3 a1 counts 9 8 0
record 1 a1 - 2080099 caller 0 0 0d 67 0

serve threads records=1000 kept=1
a1 >call-nobody <not-obtainable
= SSSSSS 3
record 1 a1 - 2080099 caller 0 0 0d 67 0

serve threads records=4
a1 recorded=2 >call-nobody <not-obtainable
b1 >call-nobody <not-obtainable
h1 recorded=1 >call-nobody <not-obtainable
h2 recorded=3 >call-nobody <not-obtainable
= HHHHHH 8
record 1 b1 - 2080099 caller 0 0 0d 67 0
record 2 h1 - 2080099 caller 0 0 0d 67 0
record 3 a1 - 2080099 caller 0 0 0d 67 0
record 4 h2 - 2080099 caller 0 0 0d 67 0";

/// Lines that are asked to stop while a call of a1 to b1 is live: it rings, both have sent data, or b1 owes a reset confirmation.
/// The line that stops after the other is told a clear indication, out of order; one thread stops a1 before b1.
const STOPPED: &str = "serve threads together records=1000 stops=1
a1 pulled=1 >call | <out-of-order
b1 wakes=2 <incoming | <out-of-order
= SSSSSS 5 a1 0
record 1 a1 b1 2080020 caller 0 0 09 0 0

serve threads records=1000 stops=1
a1 pulled=1 wakes=1 >call | <out-of-order
b1 <incoming | <out-of-order
= SSSSSS 5 b1 26
record 1 a1 b1 2080020 caller 0 0 09 0 0

serve threads together records=1000 stops=1
a1 pulled=1 >call <connected >data0 >second <data0 | <out-of-order
b1 wakes=4 <incoming >accepted <data0 <second >data0 | <out-of-order
= SSSSSS 9 a1 23
record 1 a1 b1 2080020 caller 2 1 09 0 0

serve threads records=1000 stops=1
a1 pulled=1 wakes=3 >call <connected >data0 >second <data0 | <out-of-order
b1 <incoming >accepted <data0 <second >data0 | <out-of-order
= SSSSSS 9 b1 42
record 1 a1 b1 2080020 caller 2 1 09 0 0

serve threads together records=1000 stops=1
a1 pulled=1 >call <connected >data0 >reset <reset-confirmation | <out-of-order
b1 wakes=4 <incoming >accepted <data0 <reset | <out-of-order
= SSSSSS 8 a1 22
record 1 a1 b1 2080020 caller 1 0 09 0 0

serve threads records=1000 stops=1
a1 pulled=1 wakes=2 >call <connected >data0 >reset <reset-confirmation | <out-of-order
b1 <incoming >accepted <data0 <reset | <out-of-order
= SSSSSS 8 b1 43
record 1 a1 b1 2080020 caller 1 0 09 0 0";

/// b1's link takes the incoming call and no octet more: its line writes until 5 seconds have passed, or 10,000 times where the clock
/// stands still.
const BLOCKED: &str = "serve threads together records=1000 stops=1 pause=1
a1 pulled=1 >call | <out-of-order
b1 wakes=2 all=26 pushed <incoming | <out-of-order
= SSSSSS 5 a1 0 b1 26 b1 pushed 7
record 1 a1 b1 2080020 caller 0 0 09 0 0

serve threads together records=1000 stops=1
a1 pulled=1 >call | <out-of-order
b1 wakes=2 all=26 pushed <incoming | <out-of-order
= SSSSSS 5 a1 0 b1 26 b1 pushed 10001
record 1 a1 b1 2080020 caller 0 0 09 0 0";

/// Serves the lines of a scene, in each way that it names. What comes of a way in which it is not as told, or nothing.
fn told_otherwise(
    rt: &(impl Threads + Wait + Sync),
    alloc: Global,
    scene: &str,
) -> Result<String, Fail> {
    let (setup, told) = scene.split_once("= ").unwrap_or(("", scene));
    let words = words_of(setup, "serve");
    let at = number(words, "at=", u64::MAX);
    let mut otherwise = String::from_str(alloc, "it is not served")?;
    for together in [false, true] {
        let way = if together { "together" } else { "threads" };
        if setting(words, way).is_none() {
            continue;
        }
        otherwise = serve(rt, alloc, setup, together, at)?;
        if otherwise.as_str().trim_end() != told.trim_end() {
            break;
        }
        otherwise.clear();
    }
    Ok(otherwise)
}

#[test]
fn scenes_as_told(rt: HostRuntime) -> Result<(), Fail> {
    for scenes in [AT_ONCE, SERVED, TURNS, RECORDED, STOPPED, BLOCKED] {
        for scene in scenes.split("\n\n") {
            let otherwise = told_otherwise(&rt, rt.alloc(), scene)?;
            assert!(rt; otherwise.is_empty(), "{scene}: {otherwise}");
        }
    }
    Ok(())
}
