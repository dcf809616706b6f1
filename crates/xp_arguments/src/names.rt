//! The names of the arguments.

ghost use Rattle.std.specs.Prelude.{◌≡◌};
ghost use Rattle.clap.specs.Words.{first_of, found_of, rows_of};
ghost use Rattle.xp_arguments.specs.Commands.{says_true};

use clap::ArgMatches;

/// The name of the subscription file.
pub const FILE: &str = "FILE";

/// The address of a console.
pub const ADDRESS: &str = "ADDRESS";

/// The name of the calling line.
pub const CALLER: &str = "CALLER";

/// The address that is called.
pub const DIALLED: &str = "DIALLED";

/// The argument by which words for people are printed.
pub const WORDS: &str = "words";

/// The argument by which a check looks at what serving needs.
pub const SERVE: &str = "serve";

/// The argument by which a check tries the ports too.
pub const PORTS: &str = "ports";

/// The argument for the subscription file that was in force before.
pub const AFTER: &str = "after";

/// The argument by which a ladder diagram is printed.
pub const LADDER: &str = "ladder";

/// The argument for the file of a capture.
pub const PCAP: &str = "pcap";

/// The argument for a file of subscriptions that a script may put into force, with its name.
pub const TABLES: &str = "tables";

/// The argument for the facility field of a call request.
pub const FACILITIES: &str = "facilities";

/// The argument for the user data of a call request.
pub const USER: &str = "user";

/// The argument for the lines that are in service.
pub const UP: &str = "up";

/// The argument for the lines that are in a call.
pub const BUSY: &str = "busy";

/// The argument by which the exit status tells whether a call request is refused.
pub const STATUS: &str = "status";

/// The argument for the file of call detail records.
pub const CDR: &str = "cdr";

/// The argument for the directory of call detail records by the day.
pub const CDR_DIR: &str = "cdr-dir";

/// The argument for the file of live calls.
pub const LIVE: &str = "live";

/// The argument by which live calls are not kept.
pub const NO_LIVE: &str = "no-live";

/// The argument for the name of the exchange.
pub const NAME: &str = "name";

/// The argument for the file of the trace.
pub const TRACE: &str = "trace";

/// The argument for the lines that are traced.
pub const TRACE_LINES: &str = "trace-lines";

/// The argument for the address of the console.
pub const CONSOLE: &str = "console";

/// The argument by which only failures are told.
pub const QUIET: &str = "quiet";

/// The argument for the number of records after which serving ends.
pub const RECORDS: &str = "records";

/// The argument for the number of turns after which a line ends.
pub const TURNS: &str = "turns";

/// The argument for the number of threads that serve the lines.
pub const THREADS: &str = "threads";

/// The argument by which serving ends cleanly as standard input ends.
pub const UNTIL_EOF: &str = "until-eof";

/// Whether an argument that is there or not is there.
pub(crate) fn is_true(matches: &ArgMatches, name: &str) -> bool
    ensures { result ≡ says_true (first_of name.now (rows_of (found_of matches.now))) }
{
    match matches.get_str(name) {
        Some(text) => text == "true",
        None => false,
    }
}
