//! How the lines are to be served.

ghost use Rattle.std.specs.Prelude.{◌≡◌, IfNone, IfSome, Option, option_map};
ghost use Rattle.clap.specs.Words.{Text, first_of, found_of, rows_of};
ghost use Rattle.xp_arguments.specs.Commands.{HasLimits, HasLive, HasName, HasTrace, IsLive, IsNamed, IsOrder, IsTrace, either};

use crate::details_order::{DetailsOrder, details_of};
use crate::names::{
    CDR, CDR_DIR, CONSOLE, LIVE, NAME, NO_LIVE, QUIET, RECORDS, THREADS, TRACE, TRACE_LINES, TURNS,
    UNTIL_EOF, is_true,
};
use clap::ArgMatches;
use xp_cdr::ExchangeName;
use xp_limits::Limits;

/// What is to be traced as lines are served.
#[derive(Clone, Copy)]
pub struct TraceOrder<'a> {
    /// The name of the file of the trace.
    pub path: &'a str,
    /// The names of the lines that are traced, with commas between them; where absent all are.
    pub lines: Option<&'a str>,
}

/// How the lines are to be served.
#[derive(Clone, Copy)]
pub struct ServeOrder<'a> {
    pub limits: Limits,
    /// Where call detail records go, if they are to be written.
    pub details: Option<DetailsOrder<'a>>,
    /// The name of the file of live calls, if it is given one. Only where call detail records are written.
    pub live: Option<&'a str>,
    /// Whether live calls are not kept.
    pub no_live: bool,
    /// The name of the exchange, if it is given one. It is that of an exchange.
    pub exchange: Option<&'a str>,
    /// What is to be traced, if anything.
    pub trace: Option<TraceOrder<'a>>,
    /// The address at which the console is to be, if there is to be one.
    pub console: Option<&'a str>,
    /// Whether only failures are told on standard error.
    pub quiet: bool,
    /// Whether serving ends cleanly as standard input ends.
    pub until_eof: bool,
}

/// How the arguments ask the lines to be served.
pub(crate) fn order_of<'a>(matches: &ArgMatches<'a>) -> Option<ServeOrder<'a>>
    ensures found { IfSome result (λ order. IsOrder (rows_of (found_of matches.now)) order) }
    ensures none { IfNone result ((order : ServeOrder) → IsOrder (rows_of (found_of matches.now)) order → ⊥) }
{
    let limits = limits_of(matches)?;
    let trace = trace_of(matches)?;
    let exchange = exchange_of(matches)?;
    let details = details_of(matches)?;
    let live = live_of(matches)?;
    let no_live = is_true(matches, NO_LIVE);
    let console = matches.get_str(CONSOLE);
    let quiet = is_true(matches, QUIET);
    let until_eof = is_true(matches, UNTIL_EOF);
    Some(ServeOrder {
        limits,
        details,
        live,
        no_live,
        exchange,
        trace,
        console,
        quiet,
        until_eof,
    })
}

/// The name that the arguments give the exchange, if they do. `None` where they give a text that is none.
fn exchange_of<'a>(matches: &ArgMatches<'a>) -> Option<Option<&'a str>>
    ensures found { IfSome result (λ name. HasName (rows_of (found_of matches.now)) (option_map (λ name. name.now) name)) }
    ensures none { IfNone result ((name : Option Text) → HasName (rows_of (found_of matches.now)) name → ⊥) }
{
    let name = matches.get_str(NAME);
    named_so(name)
}

/// This name, where it is that of an exchange.
fn named_so<'a>(name: Option<&'a str>) -> Option<Option<&'a str>>
    ensures found { IfSome result (λ named. IsNamed (option_map (λ text. text.now) name.entry) (option_map (λ text. text.now) named)) }
    ensures none { IfNone result ((named : Option Text) → IsNamed (option_map (λ text. text.now) name.entry) named → ⊥) }
{
    match name {
        Some(text) if ExchangeName::is_name(text) => Some(Some(text)),
        Some(_) => None,
        None => Some(None),
    }
}

/// The path that the arguments give the file of live calls, if they do. `None` where no call detail records are written beside it, or
/// live calls are not to be kept.
fn live_of<'a>(matches: &ArgMatches<'a>) -> Option<Option<&'a str>>
    ensures found { IfSome result (λ path. HasLive (rows_of (found_of matches.now)) (option_map (λ path. path.now) path)) }
    ensures none { IfNone result ((path : Option Text) → HasLive (rows_of (found_of matches.now)) path → ⊥) }
{
    let path = matches.get_str(LIVE);
    let file = matches.get_str(CDR);
    let directory = matches.get_str(CDR_DIR);
    let details = either_of(file, directory);
    let is_off = is_true(matches, NO_LIVE);
    live_at(path, details, is_off)
}

/// The first of two texts that is there.
fn either_of<'a>(text: Option<&'a str>, other: Option<&'a str>) -> Option<&'a str>
    ensures { option_map (λ text. text.now) result ≡ either (option_map (λ text. text.now) text.entry) (option_map (λ text. text.now) other.entry) }
{
    match text {
        Some(text) => Some(text),
        None => other,
    }
}

/// This path of a file of live calls, where it goes together with the others.
fn live_at<'a>(
    path: Option<&'a str>,
    details: Option<&'a str>,
    is_off: bool,
) -> Option<Option<&'a str>>
    ensures found { IfSome result (λ live. IsLive (option_map (λ text. text.now) path.entry) (option_map (λ text. text.now) details.entry) is_off (option_map (λ text. text.now) live)) }
    ensures none { IfNone result ((live : Option Text) → IsLive (option_map (λ text. text.now) path.entry) (option_map (λ text. text.now) details.entry) is_off live → ⊥) }
{
    match (path, details, is_off) {
        (None, _, _) => Some(None),
        (Some(path), Some(_), false) => Some(Some(path)),
        (Some(_), _, _) => None,
    }
}

/// What the arguments ask to be traced, if anything. `None` where they name lines and no file.
fn trace_of<'a>(matches: &ArgMatches<'a>) -> Option<Option<TraceOrder<'a>>>
    ensures found { IfSome result (λ trace. HasTrace (rows_of (found_of matches.now)) trace) }
    ensures none { IfNone result ((trace : Option TraceOrder) → HasTrace (rows_of (found_of matches.now)) trace → ⊥) }
{
    let path = matches.get_str(TRACE);
    let lines = matches.get_str(TRACE_LINES);
    trace_into(path, lines)
}

/// What is traced into a file, of these lines. `None` where there are lines and no file.
fn trace_into<'a>(path: Option<&'a str>, lines: Option<&'a str>) -> Option<Option<TraceOrder<'a>>>
    ensures found { IfSome result (IsTrace (option_map (λ path. path.now) path.entry) (option_map (λ names. names.now) lines.entry)) }
    ensures none { IfNone result ((trace : Option TraceOrder) → IsTrace (option_map (λ path. path.now) path.entry) (option_map (λ names. names.now) lines.entry) trace → ⊥) }
{
    match (path, lines) {
        (Some(path), lines) => Some(Some(TraceOrder { path, lines })),
        (None, None) => Some(None),
        (None, Some(_)) => None,
    }
}

/// The limits that the arguments set to serving, with its threads.
fn limits_of(matches: &ArgMatches) -> Option<Limits>
    ensures found { IfSome result (λ limits. HasLimits (rows_of (found_of matches.now)) limits) }
    ensures none { IfNone result ((limits : Limits) → HasLimits (rows_of (found_of matches.now)) limits → ⊥) }
{
    let records = matches.get_str(RECORDS);
    let turns = matches.get_str(TURNS);
    let threads = matches.get_str(THREADS);
    Limits::read(records, turns, threads)
}
