//! What is seen of the lines while their threads run.

use crate::plan::{Plan, words_of};
use std::alloc::{AllocError, Global};
use std::sync::atomic::{AtomicBool, AtomicU64, AtomicUsize, Ordering};
use std::thread;
use xp_subs::LineNo;
use xp_testing::{number, setting};

/// The names of the lines.
const NAMES: [&str; 6] = ["a1", "b1", "h1", "h2", "h3", "m1"];

/// How often something is looked for at most.
const MOST_LOOKS: u32 = 5_000_000;

/// What a line's link does, and what is seen of the line.
#[derive(Drop)]
pub struct Line {
    pub plan: Plan,
    /// How often its link was pulled from, or its broken port was asked, and how often it was pushed into.
    pub pulls: AtomicU64,
    pub pushes: AtomicU64,
    /// How many octets its link took, and whether one of them is not wanted there.
    pub got: AtomicUsize,
    pub wrong: AtomicBool,
    /// Whether its link met a fault.
    pub failed: AtomicBool,
    /// How often its clock let time pass, it was woken, its thread paused as its lines ended, and its link had a packet to give.
    pub idles: AtomicU64,
    pub wakes: AtomicU64,
    pub pauses: AtomicU64,
    pub asks: AtomicU64,
}

impl Line {
    fn new(alloc: Global, words: &str) -> Result<Line, AllocError> {
        let plan = Plan::new(alloc, words)?;
        Ok(Line {
            plan,
            pulls: AtomicU64::new(0),
            pushes: AtomicU64::new(0),
            got: AtomicUsize::new(0),
            wrong: AtomicBool::new(false),
            failed: AtomicBool::new(false),
            idles: AtomicU64::new(0),
            wakes: AtomicU64::new(0),
            pauses: AtomicU64::new(0),
            asks: AtomicU64::new(0),
        })
    }

    /// Whether the plan has this word.
    pub fn has(&self, word: &str) -> bool {
        setting(&self.plan.words, word).is_some()
    }

    /// How many octets the link took.
    pub fn got(&self) -> usize {
        self.got.load(Ordering::SeqCst)
    }

    /// The link takes these octets.
    pub fn take(&self, octets: &[u8]) {
        let place = self.got.fetch_add(octets.len(), Ordering::SeqCst);
        let wanted = self.plan.wants.get(place..).unwrap_or(&[]);
        if !wanted.starts_with(octets) {
            self.wrong.store(true, Ordering::SeqCst);
        }
    }

    /// Waits until the other line of the call has stopped, where this line stops after it.
    pub fn hold(&self) {
        if self.got() >= self.plan.before_stop {
            comes(&self.wakes, number(&self.plan.words, "wakes=", 0));
        }
    }

    /// Adds what differs from the plan, and what the plan asks to be told.
    fn tell(&self, alloc: Global, name: &str, text: &mut Vec<u8>) -> Result<(), AllocError> {
        let got = self.got();
        if self.wrong.load(Ordering::SeqCst) {
            text.extend_from_slice(format!(in alloc; " {name} wrong")?.as_bytes())?;
        }
        if self.failed.load(Ordering::SeqCst) {
            text.extend_from_slice(b" failed")?;
        }
        if got != self.plan.wants.len() {
            text.extend_from_slice(format!(in alloc; " {name} {got}")?.as_bytes())?;
        }
        if self.has("counted") {
            let pulls = self.pulls.load(Ordering::SeqCst);
            let idles = self.idles.load(Ordering::SeqCst);
            let wakes = self.wakes.load(Ordering::SeqCst);
            let counts = format!(in alloc; " {name} counts {pulls} {idles} {wakes}")?;
            text.extend_from_slice(counts.as_bytes())?;
        }
        if self.has("pushed") {
            let pushes = self.pushes.load(Ordering::SeqCst);
            text.extend_from_slice(format!(in alloc; " {name} pushed {pushes}")?.as_bytes())?;
        }
        Ok(())
    }
}

/// Whether the count comes to so many before the looks are used up.
fn comes(count: &AtomicU64, least: u64) -> bool {
    for _look in 0..MOST_LOOKS {
        if count.load(Ordering::SeqCst) >= least {
            return true;
        }
        thread::yield_now();
    }
    false
}

/// What all lines do, and what is seen of them.
#[derive(Drop)]
pub struct Board {
    /// The words for serving.
    words: String,
    /// By how many seconds a clock goes on where it is read, its line has nothing to do, and its thread pauses.
    pub read: u64,
    pub step: u64,
    pub pause: u64,
    /// Whether one thread serves all lines. Their links must not wait for one another then.
    pub together: bool,
    /// The number of the pull or push that meets a fault, from 0.
    pub at: u64,
    lines: Vec<Line>,
    /// A line that does nothing.
    spare: Line,
    /// How many charging records were handed to the sink.
    pub recorded: AtomicU64,
    /// Whether a link waited for another one in vain.
    pub late: AtomicBool,
}

impl Board {
    /// The board of a scene.
    pub fn new(alloc: Global, scene: &str, together: bool, at: u64) -> Result<Board, AllocError> {
        let serve = words_of(scene, "serve");
        let mut words = String::new(alloc);
        words.push_str(serve)?;
        let lines = lines_of(alloc, scene)?;
        let spare = Line::new(alloc, "none")?;
        Ok(Board {
            words,
            read: number(serve, "read=", 0),
            step: number(serve, "step=", 0),
            pause: number(serve, "pause=", 0),
            together,
            at,
            lines,
            spare,
            recorded: AtomicU64::new(0),
            late: AtomicBool::new(false),
        })
    }

    pub fn of(&self, line: LineNo) -> &Line {
        self.lines.get(usize::from(line)).unwrap_or(&self.spare)
    }

    /// The line with this digit.
    fn named(&self, digit: u8) -> &Line {
        self.of(LineNo::from(digit.saturating_sub(b'0')))
    }

    /// The number of a setting for serving.
    pub fn number(&self, key: &str, otherwise: u64) -> u64 {
        number(&self.words, key, otherwise)
    }

    /// Whether the link of this line, which has a packet to give, gives it now. With its first packet it waits for the links that it
    /// is to meet.
    pub fn lets(&self, line: &Line) -> bool {
        let words = line.plan.words.as_str();
        if line.asks.fetch_add(1, Ordering::SeqCst) == 0 {
            self.meet(setting(words, "meets=").unwrap_or(""));
        }
        self.are_pulled(setting(words, "pulled=").unwrap_or(""))
            && self.of(2).got() as u64 >= number(words, "h1-took=", 0)
            && self.recorded.load(Ordering::SeqCst) >= number(words, "recorded=", 0)
    }

    /// Waits until the links of all these lines had a packet to give.
    fn meet(&self, lines: &str) {
        for digit in lines.as_bytes() {
            if !comes(&self.named(*digit).asks, 1) {
                self.late.store(true, Ordering::SeqCst);
            }
        }
    }

    /// Whether all these lines were pulled from.
    fn are_pulled(&self, lines: &str) -> bool {
        for digit in lines.as_bytes() {
            if self.named(*digit).pulls.load(Ordering::SeqCst) == 0 {
                return false;
            }
        }
        true
    }

    /// Whether each line's link took all octets that it is given before a stop.
    pub fn may_stop(&self) -> bool {
        for line in &self.lines {
            if line.got() < line.plan.before_stop {
                return false;
            }
        }
        true
    }

    /// Adds what differs from the plans, and what they ask to be told.
    pub fn tell(&self, alloc: Global, text: &mut Vec<u8>) -> Result<(), AllocError> {
        for (line, name) in self.lines.iter().zip(&NAMES) {
            line.tell(alloc, name, text)?;
        }
        if self.late.load(Ordering::SeqCst) {
            text.extend_from_slice(b" late")?;
        }
        Ok(())
    }
}

/// The lines of a scene.
fn lines_of(alloc: Global, scene: &str) -> Result<Vec<Line>, AllocError> {
    let mut lines = Vec::new(alloc);
    for name in &NAMES {
        lines.push(Line::new(alloc, words_of(scene, name))?)?;
    }
    Ok(lines)
}
