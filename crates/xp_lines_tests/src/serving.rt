//! Lines that are served, each by a thread of its own or all by one.

ghost use Rattle.std.specs.Prelude.{◌≡◌, [], IfOk};
ghost use Rattle.xp_subs.specs.Tables.{line_count};

use crate::kept::Kept;
use crate::told::{tell_book, why_letter};
use std::alloc::{AllocError, Global};
use std::marker::Brand;
use std::snapshot::Snapshot;
use std::sync::{Arc, Wait};
use std::test::Fail;
use std::thread::Threads;
use xp_limits::{Limits, ServingThreads};
use xp_lines::{LineEnd, LineInputs, LinesServed, LinesToServe, RecordPath, serve_all};
use xp_lock::{Exchange, LinePass, PreparedExchange, prepare};
use xp_past::Past;
use xp_seats::Name;
use xp_subs::Subs;
use xp_testing_wires::{Board, Part};

/// The three stations with a1, b1, h1, h2 and h3, and 2080040 with m1, which numbers modulo 128: six lines.
const STATIONS: &str = r#"[[station]]
address = "2080010"
line = [{ name = "a1", port = 19981 }]
[[station]]
address = "2080020"
fast_select = true
line = [{ name = "b1", port = 19982 }]
[[station]]
address = "2080030"
line = [{ name = "h1", port = 19983 }, { name = "h2", port = 19984, address = "2080032" }, { name = "h3", port = 19985 }]
[[station]]
address = "2080040"
line = [{ name = "m1", port = 19986, modulus = 128 }]
"#;

/// A line that is served.
type Line<N> = LineInputs<N, Part, Part, Part>;

/// The subscriptions, with a journal of nine entries where that is asked for.
fn subs(alloc: Global, board: &Board) -> Result<Subs, Fail> {
    let mut text = String::new(alloc);
    if board.number("journal=", 0) == 9 {
        text.push_str("journal = 9\n")?;
    }
    text.push_str(STATIONS)?;
    Ok(Subs::read(alloc, text.as_str())?)
}

fn line<N: Name>(pass: LinePass<N>, board: &Arc<Board>) -> Result<Line<N>, AllocError> {
    let line = pass.line();
    Ok(LineInputs {
        pass,
        port: Part::new(board, line, 0)?,
        clock: Part::new(board, line, 0)?,
        bell: Part::new(board, line, 0)?,
    })
}

fn lines<N: Name>(
    alloc: Global,
    passes: Vec<LinePass<N>>,
    board: &Arc<Board>,
) -> Result<Vec<Line<N>>, AllocError> {
    let mut lines = Vec::new(alloc);
    for pass in passes {
        lines.push(line(pass, board)?)?;
    }
    Ok(lines)
}

/// The threads of the lines.
fn pollers(alloc: Global, board: &Arc<Board>) -> Result<Vec<Part>, AllocError> {
    let (threads, lines) = if board.together { (1, 6) } else { (6, 1) };
    let mut pollers = Vec::new(alloc);
    for first in 0..threads {
        pollers.push(Part::new(board, first, lines)?)?;
    }
    Ok(pollers)
}

/// Adds why each line has ended, and gives all passes back.
fn passes<N: Name>(
    alloc: Global,
    ends: Vec<LineEnd<N>>,
    text: &mut Vec<u8>,
) -> Result<Vec<LinePass<N>>, AllocError> {
    let mut passes = Vec::new(alloc);
    for end in ends {
        text.push(why_letter(end.why))?;
        passes.push(end.pass)?;
    }
    Ok(passes)
}

/// No text, where an allocation failed before a line was served.
fn serves<N: Name + Send + Sync, R: Threads + Wait + Sync>(
    rt: &R,
    alloc: Global,
    prepared: PreparedExchange<Global>,
    sink: Kept,
    pollers: Vec<Part>,
    board: &Arc<Board>,
) -> Result<Vec<u8>, AllocError>
    requires lines { line_count sink.subs ≡ line_count prepared.subs }
    requires tables { sink.shown.value ≡ prepared.subs }
    requires given { sink.given.items ≡ [] }
    requires subs { N.subs ≡ prepared.subs }
    requires seats { N.seats ≡ prepared.seats }
    requires queues { N.queues ≡ prepared.queues }
{
    let (exchange, passes, recorder) = Exchange::<N, Global>::start(alloc, prepared)?;
    if board.number("halted=", 0) == 1 {
        exchange.halt(rt);
    }
    let turns = board.number("turns=", 5_000_000);
    let records = board.number("records=", 1);
    let limits = Limits {
        records,
        turns,
        threads: ServingThreads::Chosen,
    };
    let lines = LinesToServe {
        lines: lines(alloc, passes, board)?,
        pollers,
    };
    let path = RecordPath { recorder, sink };
    match serve_all(rt, alloc, &exchange, lines, path, limits) {
        Ok(served) => close(rt, alloc, exchange, served),
        Err(fault) => {
            drop(fault);
            Ok(Vec::new(alloc))
        }
    }
}

/// Closes the exchange. No more than why each line has ended, where it could not be closed.
fn close<N: Name, R: Wait>(
    rt: &R,
    alloc: Global,
    exchange: Exchange<N>,
    served: LinesServed<N, Kept>,
) -> Result<Vec<u8>, AllocError> {
    let LinesServed { ends, path } = served;
    let RecordPath { recorder, sink } = path;
    let mut text = Vec::new(alloc);
    let all = passes(alloc, ends, &mut text)?;
    match exchange.close(rt, all, recorder) {
        Ok(book) => {
            let told = tell_book(alloc, &book, &sink, &mut text);
            drop(book);
            told?;
        }
        Err(fault) => drop(fault),
    }
    Ok(text)
}

/// A sink that keeps the records of a board's lines, and sees the exchange of these subscriptions.
fn sink(alloc: Global, board: &Arc<Board>, shown: &Subs) -> Result<Kept, Fail>
    ensures shown { IfOk result (λ kept. kept.shown.value ≡ shown.now) }
    ensures given { IfOk result (λ kept. kept.given.items ≡ []) }
{
    let board = Arc::try_clone(board)?;
    Ok(Kept {
        subs: subs(alloc, &board)?,
        shown: Snapshot::of(shown),
        text: Vec::new(alloc),
        board,
        seen_lines: 0,
        seen_entries: 0,
        given: Past::new(),
    })
}

/// Serves the lines of a scene: why each has ended, how many entries the closed book has, what differs from the plans of the lines,
/// and the charging records: those that the sink kept, and then those that the book still has.
pub fn serve<R: Threads + Wait + Sync>(
    rt: &R,
    alloc: Global,
    scene: &str,
    together: bool,
    at: u64,
) -> Result<String, Fail> {
    let board = Arc::new(alloc, Board::new(alloc, scene, together, at)?)?;
    let pollers = pollers(alloc, &board)?;
    let subs = subs(alloc, &board)?;
    let sink = sink(alloc, &board, &subs)?;
    if sink.subs.counts().lines != subs.counts().lines {
        return Err("the subscriptions differ".into());
    }
    let prepared = prepare(alloc, subs)?;
    let text = serves::<Brand, R>(rt, alloc, prepared, sink, pollers, &board)?;
    Ok(String::from_utf8(text)?)
}
