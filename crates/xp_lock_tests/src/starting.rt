//! An exchange from its start to its closed book.
//!
//! A function that starts or closes an exchange is dear to prove, and the more so the more ways lead out of it, so these are few.

ghost use Rattle.std.specs.Prelude.{◌≡◌};

use crate::log::Log;
use crate::playing::{play, take_records};
use std::alloc::{AllocError, Allocator};
use std::sync::Wait;
use xp_lock::{CloseFault, Exchange, LinePass, PreparedExchange};
use xp_seats::{Name, Recorder};

/// Scripts, a line each.
#[derive(Clone, Copy)]
pub struct Scripts<'a> {
    pub text: &'a str,
}

/// Plays a scene of scripts, a line each: `records` takes the records that wait, and tells the number of the last. Nothing is told where
/// memory is wanting at the start.
pub fn scene<N: Name, A: Allocator + Copy>(
    rt: &impl Wait,
    alloc: A,
    prepared: PreparedExchange<A>,
    scripts: Scripts<'_>,
    log: Log,
) -> Result<Log, AllocError>
    requires subs { N.subs ≡ prepared.subs }
    requires seats { N.seats ≡ prepared.seats }
    requires queues { N.queues ≡ prepared.queues }
{
    let mut log = log;
    let Ok((exchange, mut passes, mut recorder)) = Exchange::<N, A>::start(alloc, prepared) else {
        return Ok(log);
    };
    let mut played: Result<(), AllocError> = Ok(());
    for script in scripts.text.lines() {
        let done = match script {
            "records" => tell_records(rt, &exchange, &mut recorder, &mut log),
            _ => play(rt, alloc, &exchange, &mut passes, script, &mut log),
        };
        played = played.and(done);
    }
    let closed = close(rt, exchange, passes, recorder, &mut log);
    match played.and(closed) {
        Ok(()) => Ok(log),
        Err(refused) => Err(refused),
    }
}

/// Takes the records that wait, and tells the number of the last.
fn tell_records<N: Name, A: Allocator + Copy>(
    rt: &impl Wait,
    exchange: &Exchange<N, A>,
    recorder: &mut Recorder<N, A>,
    log: &mut Log,
) -> Result<(), AllocError> {
    take_records(rt, exchange, recorder, log)?;
    log.tell_numbers(&[log.record])
}

/// Tells how many records the recorder received. Closes the exchange without the last pass, and tells the line whose pass is
/// missing; then with it, and tells what the book has.
fn close<N: Name, A: Allocator + Copy>(
    rt: &impl Wait,
    exchange: Exchange<N, A>,
    passes: Vec<LinePass<N, A>, A>,
    recorder: Recorder<N, A>,
    log: &mut Log,
) -> Result<(), AllocError> {
    let mut passes = passes;
    let last = passes.pop();
    let received = recorder.received_count();
    match exchange.close(rt, passes, recorder) {
        Ok(book) => {
            drop(book);
            drop(last);
            log.tell("closed")
        }
        Err(fault) => {
            let line = u64::from(fault.line);
            let closed = close_after(rt, fault, last, log);
            log.tell("received")?;
            log.tell_numbers(&[received])?;
            log.tell("missing")?;
            log.tell_numbers(&[line])?;
            closed
        }
    }
}

fn close_after<N: Name, A: Allocator + Copy>(
    rt: &impl Wait,
    fault: CloseFault<N, A>,
    last: Option<LinePass<N, A>>,
    log: &mut Log,
) -> Result<(), AllocError> {
    let CloseFault {
        line: _,
        exchange,
        mut passes,
        recorder,
    } = fault;
    let added = passes.extend(last);
    match exchange.close(rt, passes, recorder) {
        Ok(book) => {
            let told = log.tell_book(&book);
            drop(book);
            told.and(added)
        }
        Err(fault) => {
            drop(fault);
            added
        }
    }
}
