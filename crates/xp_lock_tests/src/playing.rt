//! An exchange that is played with as a script tells.
//!
//! A script is words: `a1` and `b1` choose the line of the words behind them. `up`, or the name of a packet, is offered on it, and
//! `?NAME` tells the first line that is given something by it. `takes` takes all its outputs, and tells how many there were and
//! what the last is; `drops` tells nothing. `at=N` sets the moment, and `tick` lets a second pass. `halt` halts the exchange.

ghost use Rattle.std.specs.Prelude.{◌≡◌, false, IfOk};
ghost use Rattle.xp_step.specs.Exchange.{IsReadable};
ghost use Rattle.xp_step.specs.Stalls.{is_raised};

use crate::log::{Log, kind_of};
use std::alloc::{AllocError, Allocator};
use std::sync::Wait;
use xp_lock::{Exchange, LinePass, OfferFault};
use xp_packets::{Modulus, PacketFault, decode};
use xp_seats::{Name, Recorder};
use xp_step::{Event, What};
use xp_testing::octets_of;

/// Plays a script, behind `5x` five times.
pub fn play<N: Name, A: Allocator + Copy>(
    rt: &impl Wait,
    alloc: A,
    exchange: &Exchange<N, A>,
    passes: &mut [LinePass<N, A>],
    script: &str,
    log: &mut Log,
) -> Result<(), AllocError> {
    let (times, words) = match script.strip_prefix("5x ") {
        Some(words) => (5u64, words),
        None => (1, script),
    };
    let mut place = 0;
    for _time in 0..times {
        for word in words.split_whitespace() {
            match word {
                "a1" => place = 0,
                "b1" => place = 1,
                "tick" => log.moment = log.moment.saturating_add(1),
                _ => {
                    if let Some(pass) = passes.get_mut(place) {
                        act(rt, alloc, exchange, pass, word, log)?;
                    }
                }
            }
        }
    }
    Ok(())
}

/// Does what a word says on the pass's line.
fn act<N: Name, A: Allocator + Copy>(
    rt: &impl Wait,
    alloc: A,
    exchange: &Exchange<N, A>,
    pass: &mut LinePass<N, A>,
    word: &str,
    log: &mut Log,
) -> Result<(), AllocError> {
    if word == "halt" {
        return halt(rt, exchange, log);
    }
    if word == "takes" || word == "drops" {
        return take(rt, exchange, pass, word == "takes", log);
    }
    if let Some(moment) = word.strip_prefix("at=") {
        log.moment = moment.parse().unwrap_or(0);
        return Ok(());
    }
    if let Some(name) = word.strip_prefix('?') {
        offer(rt, alloc, exchange, pass, name, log)?;
        return log.tell_numbers(&[log.given]);
    }
    offer(rt, alloc, exchange, pass, word, log)
}

/// Halts the exchange, and tells whether it was and is halted.
fn halt<N: Name, A: Allocator + Copy>(
    rt: &impl Wait,
    exchange: &Exchange<N, A>,
    log: &mut Log,
) -> Result<(), AllocError> {
    let before = exchange.halted();
    exchange.halt(rt);
    log.tell_numbers(&[u64::from(before), u64::from(exchange.halted())])
}

/// Takes all outputs of the pass's line.
fn take<N: Name, A: Allocator + Copy>(
    rt: &impl Wait,
    exchange: &Exchange<N, A>,
    pass: &mut LinePass<N, A>,
    tells: bool,
    log: &mut Log,
) -> Result<(), AllocError> {
    let mut count = 0u64;
    let mut last = ("none", 0, 0);
    for taken in 1..100u64 {
        let Some(item) = exchange.next_out(rt, pass) else {
            break;
        };
        last = kind_of(&item);
        drop(item);
        count = taken;
    }
    if tells {
        let (kind, cause, diagnostic) = last;
        log.tell_numbers(&[count])?;
        log.tell(kind)?;
        log.tell_numbers(&[cause, diagnostic])?;
    }
    Ok(())
}

/// Offers what has this name on the pass's line, again where memory was wanting.
fn offer<N: Name, A: Allocator + Copy>(
    rt: &impl Wait,
    alloc: A,
    exchange: &Exchange<N, A>,
    pass: &mut LinePass<N, A>,
    name: &str,
    log: &mut Log,
) -> Result<(), AllocError> {
    let (line, moment) = (pass.line(), log.moment);
    let what = named(alloc, name, log)?;
    match exchange.offer(rt, pass, Event { line, moment, what }) {
        Err(OfferFault::Memory(event)) => {
            log.offers_again = log.offers_again.saturating_add(1);
            let tried = exchange.offer(rt, pass, event);
            let noted = log.note(&tried);
            drop(tried);
            noted
        }
        tried => {
            let noted = log.note(&tried);
            drop(tried);
            noted
        }
    }
}

/// What has this name, made again where memory was wanting.
fn named<A: Allocator + Copy>(alloc: A, name: &str, log: &Log) -> Result<What<A>, AllocError>
    ensures readable { IfOk result (λ what. IsReadable what) }
    ensures kind { IfOk result (λ what. is_raised what ≡ false) }
{
    if name == "up" {
        return Ok(What::Up);
    }
    let octets = octets_of(log.alloc, name)?;
    if let Ok(what) = packet(alloc, &octets) {
        return Ok(what);
    }
    match packet(alloc, &octets) {
        Ok(what) => Ok(what),
        Err(_) => Err(AllocError),
    }
}

/// The packet of these octets comes on a line, which numbers modulo 8.
fn packet<A: Allocator + Copy>(alloc: A, octets: &[u8]) -> Result<What<A>, PacketFault>
    ensures readable { IfOk result (λ what. IsReadable what) }
    ensures kind { IfOk result (λ what. is_raised what ≡ false) }
{
    let (identifier, packet) = decode(alloc, Modulus::Eight, octets)?;
    Ok(What::frame(identifier, packet))
}

/// Takes the records that wait, again where memory was wanting.
pub fn take_records<N: Name, A: Allocator + Copy>(
    rt: &impl Wait,
    exchange: &Exchange<N, A>,
    recorder: &mut Recorder<N, A>,
    log: &mut Log,
) -> Result<(), AllocError> {
    let taken = exchange.lock(rt).take_records(recorder);
    if let Ok(records) = taken {
        return log.note_records(&records);
    }
    log.takes_again = log.takes_again.saturating_add(1);
    let records = exchange.lock(rt).take_records(recorder)?;
    log.note_records(&records)
}
