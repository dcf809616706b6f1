//! Ended calls of the three stations, and their call detail records.

ghost use Rattle.std.specs.Prelude.{IfSome};
ghost use Rattle.xp_charge.specs.Lines.{HasLines};
ghost use Rattle.xp_subs.specs.Tables.{line_count};

use xp_cdr::{EndedBy, EndedCall, ExchangeName, ExchangeRun};
use xp_charge::Record;
use xp_packets::{Digits, End};
use xp_subs::Subs;

/// The 26th of November 2026, by the number of days since the first of January 1970.
pub const THE_26TH: u64 = 20_783;

/// How many calls there are.
pub const CALLS: usize = 4;

/// How many days after the 26th they end, where they end on several.
pub const LATER: [u64; CALLS] = [0, 1, 0, 2];

/// How long a call detail record is.
pub const LINE: usize = 185;

/// The call detail records of the calls.
pub const DETAILS: &str = "\
2026-11-26T12:00:00Z,18446744073709551612,a1,2080010,b1,2080020,2080020,called,99999999,99999999,2026-11-26T23:59:59Z,2026-11-27T00:00:00Z,2026-11-26T23:59:58Z,0,ff,255,x-1.net,partial
2026-11-26T12:00:00Z,18446744073709551613,a1,2080010,b1,2080020,2080020,called,99999999,99999999,2026-11-26T23:59:59Z,2026-11-27T00:00:00Z,2026-11-26T23:59:58Z,0,ff,255,x-1.net,partial
2026-11-26T12:00:00Z,18446744073709551614,a1,2080010,b1,2080020,2080020,called,99999999,99999999,2026-11-26T23:59:59Z,2026-11-27T00:00:00Z,2026-11-26T23:59:58Z,0,ff,255,x-1.net,partial
2026-11-26T12:00:00Z,18446744073709551615,a1,2080010,b1,2080020,2080020,called,99999999,99999999,2026-11-26T23:59:59Z,2026-11-27T00:00:00Z,2026-11-26T23:59:58Z,0,ff,255,x-1.net,partial
";

/// The same where they end on several days.
pub const DETAILS_OF_DAYS: &str = "\
2026-11-26T12:00:00Z,18446744073709551612,a1,2080010,b1,2080020,2080020,called,99999999,99999999,2026-11-26T23:59:59Z,2026-11-27T00:00:00Z,2026-11-26T23:59:58Z,0,ff,255,x-1.net,partial
2026-11-26T12:00:00Z,18446744073709551613,a1,2080010,b1,2080020,2080020,called,99999999,99999999,2026-11-27T23:59:59Z,2026-11-28T00:00:00Z,2026-11-27T23:59:58Z,0,ff,255,x-1.net,partial
2026-11-26T12:00:00Z,18446744073709551614,a1,2080010,b1,2080020,2080020,called,99999999,99999999,2026-11-26T23:59:59Z,2026-11-27T00:00:00Z,2026-11-26T23:59:58Z,0,ff,255,x-1.net,partial
2026-11-26T12:00:00Z,18446744073709551615,a1,2080010,b1,2080020,2080020,called,99999999,99999999,2026-11-28T23:59:59Z,2026-11-29T00:00:00Z,2026-11-28T23:59:58Z,0,ff,255,x-1.net,partial
";

/// A call from a1 to b1 over midnight, so many days after the 26th, with the greatest of each number, whose clock goes back. Its number is
/// this one of four up to the greatest. Its lines are as these subscriptions name them.
pub fn call(subs: &Subs, number: u64, days: u64) -> Option<EndedCall> {
    let charging = record(subs, number, days.saturating_mul(86_400))?;
    Some(EndedCall::of(subs, &charging, EndedBy::Partial))
}

/// The charging record of that call, so many seconds later.
fn record(subs: &Subs, number: u64, later: u64) -> Option<Record>
    ensures { IfSome result (HasLines (line_count subs.now)) }
{
    let caller = subs.line_named("a1")?;
    let called = subs.line_named("b1")?;
    Some(Record {
        number: number.saturating_add(18_446_744_073_709_551_611),
        caller,
        called: Some(called),
        dialled: Digits::from_text("2080020")?,
        payer: End::Called,
        from_caller: 99_999_999,
        from_called: 99_999_999,
        cause: 0xff,
        diagnostic: 255,
        requested: later.saturating_add(1_795_737_599),
        connected: Some(later.saturating_add(1_795_737_600)),
        ended: later.saturating_add(1_795_737_598),
    })
}

/// The run of the exchange `x-1.net`, which began at 2026-11-26T12:00:00Z.
pub fn run() -> ExchangeRun {
    ExchangeRun {
        started: 1_795_694_400,
        exchange: ExchangeName::of_host(b"x-1.net"),
    }
}
