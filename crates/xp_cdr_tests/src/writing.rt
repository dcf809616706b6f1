//! Writing to a file that fails.
//!
//! A scene is words. `give` gives the writer the next call; `flush` and `follow` do what they say; `begin` begins the file of the 27th, and
//! tells 1 where it was begun, 0 where it was not, and 2 where that fails. `calls`, `cuts`, `begun` and `days` tell what the file counts.
//! Settings say how many octets the file takes at a time (`most=`), from which of its calls on so many fail (`from=`, `fails=`), and how
//! many octets a failed sync leaves (`leaves=`). Behind each word the file has whole lines on the disk, and a front of those that wait.

use crate::calls::{CALLS, DETAILS, DETAILS_OF_DAYS, LATER, LINE, THE_26TH, call, run};
use crate::failing::{Failing, FailingFile};
use std::alloc::Global;
use std::slice;
use std::test::Fail;
use xp_cdr::DetailWriter;
use xp_subs::Subs;
use xp_testing::{THREE_STATIONS, number};

/// Scenes, and behind ` = ` the numbers that are told. The file of a day is begun by the clock where nothing waits, and once; its calls are
/// a write, a sync, and the beginning.
///
/// Where the file has taken a part of what waits, or a sync has failed, no new one is begun until it is on the disk. Its calls: one to
/// begin a new one, two writes, a sync.
///
/// What waits is written by one call, and is then put on the disk by another. After a failed write it is written again. After a failed
/// sync the file is cut back first.
const SCENES: &str = "\
from=0 give begin flush flush begin begin days = 0 1 0 101
from=3 give begin flush flush begin begin days = 0 2 1 101
most=100 from=0 give follow begun flush follow begun flush follow begun = 1 2 3
most=100 from=1 give follow begun flush follow begun flush follow begun = 0 1 2
most=100 from=2 give follow begun flush follow begun flush follow begun = 1 2 3
most=100 from=3 give follow begun flush follow begun flush follow begun = 1 1 2
most=100 from=4 give follow begun flush follow begun flush follow begun = 1 1 2
from=0 give give calls flush calls flush calls cuts = 0 2 2 0
from=1 give give calls flush calls flush calls cuts = 0 1 3 0
from=2 give give calls flush calls flush calls cuts = 0 2 5 1";

/// Ways in which a file fails, at each of its calls in turn.
const WAYS: &str = "\
most=5 fails=1 leaves=0
most=100 fails=1 leaves=1000
most=4096 fails=1 leaves=0
most=4096 fails=1 leaves=146
most=4096 fails=1 leaves=1000
most=4096 fails=2 leaves=0
most=4096 fails=3 leaves=146
most=100 fails=4 leaves=7";

/// What is done then. In the end nothing new is there to write.
const ALL: &str =
    "give follow flush give follow flush give follow flush give follow flush follow flush follow flush follow flush follow flush calls flush calls";

/// The calls whose records are written.
#[derive(Clone, Copy)]
struct Calls<'a> {
    subs: &'a Subs,
    details: &'a [u8],
    /// How many days after the 26th each ends.
    later: [u64; CALLS],
    /// Which days are begun, as the file tells it, where all are written.
    days: u64,
}

/// What is told, and what is seen beside that.
#[derive(Clone, Copy)]
struct Told {
    numbers: [u64; 8],
    count: usize,
    /// How many calls were given, and how many follows and flushes failed.
    given: usize,
    failures: u64,
    /// Whether the file had each time what it is to have, and has all in the end.
    fits: bool,
    is_whole: bool,
}

impl Told {
    fn new() -> Told {
        Told {
            numbers: [0; 8],
            count: 0,
            given: 0,
            failures: 0,
            fits: true,
            is_whole: false,
        }
    }

    fn tell(&mut self, number: u64) {
        if let Some(place) = self.numbers.get_mut(self.count) {
            *place = number;
            self.count = self.count.saturating_add(1);
        }
    }

    /// Notes whether a follow or a flush failed.
    fn note(&mut self, failed: bool) {
        self.failures = self.failures.saturating_add(u64::from(failed));
    }
}

/// Whether the file has whole lines of the calls that were given on the disk, and behind them a front of those that wait.
fn has_front(writer: &DetailWriter<FailingFile>, details: &[u8], given: usize) -> bool {
    let file = writer.file();
    let synced = file.synced.as_slice();
    let whole = synced.len() / LINE;
    let length = LINE.saturating_mul(given);
    let waiting = details.get(synced.len()..length).unwrap_or(b"");
    details.starts_with(synced)
        && synced.len() % LINE == 0
        && waiting.starts_with(&file.behind)
        && writer.waiting_records() == given.saturating_sub(whole)
        && writer.waiting_octets() == waiting.len()
        && writer.unfinished_lines() == waiting
}

/// Gives the writer the next call.
fn give(writer: &mut DetailWriter<FailingFile>, calls: &Calls<'_>, told: &mut Told) {
    let later = calls.later.get(told.given).copied().unwrap_or(0);
    told.given = told.given.saturating_add(1);
    match call(calls.subs, told.given as u64, later) {
        Some(ended) => told.note(writer.give(slice::from_ref(&ended)).is_err()),
        None => told.fits = false,
    }
}

/// Does what a word says.
fn act(writer: &mut DetailWriter<FailingFile>, word: &str, told: &mut Told) {
    match word {
        "flush" => told.note(writer.flush().is_err()),
        "follow" => told.note(writer.follow().is_err()),
        "begin" => told.tell(match writer.begin(THE_26TH + 1) {
            Ok(begun) => u64::from(begun),
            Err(_) => 2,
        }),
        "calls" => told.tell(writer.file().calls),
        "cuts" => told.tell(writer.file().cuts),
        "begun" => told.tell(writer.file().begun),
        "days" => told.tell(writer.file().days),
        _ => {}
    }
}

/// Does what all words say.
fn act_all(
    writer: &mut DetailWriter<FailingFile>,
    calls: &Calls<'_>,
    words: &str,
    told: &mut Told,
) {
    for word in words.split_whitespace() {
        if word == "give" {
            give(writer, calls, told);
        } else {
            act(writer, word, told);
        }
        told.fits = told.fits && has_front(writer, calls.details, told.given);
    }
    let file = writer.file();
    told.is_whole = file.synced.as_slice() == calls.details && file.days == calls.days;
}

/// Plays a scene over a file that fails so.
fn play(alloc: Global, calls: &Calls<'_>, settings: &str, from: u64, words: &str) -> Told {
    let failing = Failing {
        from,
        calls: number(settings, "fails=", 1),
        leaves: number(settings, "leaves=", 0) as usize,
    };
    let most = number(settings, "most=", 4_096) as usize;
    let file = FailingFile::new(alloc, most.max(1), failing);
    let mut writer = DetailWriter::new(alloc, file, run());
    let mut told = Told::new();
    act_all(&mut writer, calls, words, &mut told);
    told
}

/// Writes all to a file of which each call fails in turn, with those that follow it. Whether it has all records in the end, each in the
/// file of its day, or in the one that was open as it came; each failure is told; and nothing more is written then.
fn fails_each(alloc: Global, calls: &Calls<'_>, way: &str) -> bool {
    let mut count = 1u64;
    for from in 1..1_000u64 {
        if from > count.saturating_add(1) {
            return true;
        }
        let told = play(alloc, calls, way, from, ALL);
        let [before, after, ..] = told.numbers;
        let reached = before.saturating_add(1).saturating_sub(from);
        let failures = reached.min(number(way, "fails=", 1));
        if !(told.fits && told.is_whole && told.failures == failures && before == after) {
            return false;
        }
        count = before;
    }
    false
}

/// Whether a scene is as told.
fn is_as_told(alloc: Global, calls: &Calls<'_>, scene: &str) -> bool {
    let (words, expected) = scene.split_once(" = ").unwrap_or((scene, ""));
    let told = play(alloc, calls, words, number(words, "from=", 0), words);
    let mut wanted = Told::new();
    for word in expected.split_whitespace() {
        wanted.tell(word.parse().unwrap_or(u64::MAX));
    }
    told.fits && told.count == wanted.count && told.numbers == wanted.numbers
}

/// The first scene that is not as told, or way in which not all is written: whichever calls of the file fail, it has all call detail records
/// in the end, once and in order.
fn first_wrong(alloc: Global, subs: &Subs) -> &'static str {
    let on_one_day = Calls {
        subs,
        details: DETAILS.as_bytes(),
        later: [0; CALLS],
        days: 0,
    };
    let on_several_days = Calls {
        subs,
        details: DETAILS_OF_DAYS.as_bytes(),
        later: LATER,
        days: 101_203,
    };
    for scene in SCENES.lines() {
        if !is_as_told(alloc, &on_one_day, scene) {
            return scene;
        }
    }
    for way in WAYS.lines() {
        if !fails_each(alloc, &on_one_day, way) || !fails_each(alloc, &on_several_days, way) {
            return way;
        }
    }
    ""
}

#[test]
fn files_that_fail(rt: HostRuntime) -> Result<(), Fail> {
    let subs = Subs::read(rt.alloc(), THREE_STATIONS)?;
    let wrong = first_wrong(rt.alloc(), &subs);
    drop(subs);
    assert!(rt; wrong.is_empty(), "{wrong}");
    Ok(())
}
