//! What the help of the program says, and its version.

/// The version, which is the newest heading of CHANGELOG.md.
pub(crate) const VERSION: &str = "2026-12-01";

pub(crate) const ABOUT: &str = "The call-control exchange of an X.25 packet network.";

pub(crate) const PROGRAM_DETAILS: &str = "\
Examples:
  xp check examples/three-stations.toml
  xp replay examples/three-stations.toml --words < examples/call.script
  xp explain examples/three-stations.toml a1 2080030
  xp serve examples/three-stations.toml --cdr calls.csv --console 127.0.0.1:9980
  xp status 127.0.0.1:9980

The exit status is 0 when all was done, 1 for a call that is refused where
explain --status asks, 2 for wrong arguments or a faulty line of a script, 3 for
a subscription file that cannot be read, is refused or needs a stop, 4 for a
full journal or want of memory, and 5 for input, output or a port that fails.";

pub(crate) const CHECK_ABOUT: &str = "Checks a subscription file, and counts what it sets up";

pub(crate) const CHECK_DETAILS: &str = "\
Prints one line, as: stations 3 lines 5 groups 0
A group that several stations share counts once. With --words it prints a
summary: stations, lines, groups, who may call whom, and what looks wrong.

With --serve the addresses in the FILE are looked at too, as `xp serve` does,
and refused as there, with status 5. With --ports each port is listened on for
a moment as well: it has to be free, so nobody may be serving this FILE.

With --after it tells what changes where FILE comes into force after OLD, and
what each change does to calls. The exit status is 3 where this needs a stop of
the exchange, and else 0: then `xp reload` brings it into force.

Examples:
  xp check examples/three-stations.toml --words --serve
  xp check new.toml --after old.toml";

pub(crate) const EXPLAIN_ABOUT: &str = "Explains how a call request is decided, rule by rule";

pub(crate) const EXPLAIN_DETAILS: &str = "\
CALLER is the name of the calling line, DIALLED the address that it calls. Of a
call that a router brings CALLER is its calling address, or nothing, an @, and
the router's IP address. All lines are in service and idle where --up and --busy
do not say otherwise. With --status the exit status is 1 where the call is
refused, and else 0.

Example:
  xp explain examples/three-stations.toml a1 2080030 --busy h1,h2";

pub(crate) const REPLAY_ABOUT: &str =
    "Replays a script from standard input, and prints what comes of it";

pub(crate) const REPLAY_DETAILS: &str = "\
A line of a script is one of these, where NAME is a line of the FILE:
  up NAME         a connection of the line comes
  down NAME       the connection goes
  expire NAME     the line's time to answer an incoming call is over
  in NAME DIGITS  octets come in, as hexadecimal digits: frames (RFC 1613)
  at N            the moment of the lines behind it is N, in seconds
  tables NAME     the subscriptions of this NAME come into force (--tables)
Empty lines, and those that begin with #, do nothing.

Prints `out NAME DIGITS` for each frame that the exchange puts out, and
`record ..` for each call that ended. One of --words, --ladder and --pcap shows
the same in another form.

Example:
  xp replay examples/three-stations.toml < examples/call.script";

pub(crate) const SERVE_ABOUT: &str =
    "Serves the lines over TCP, and writes a charging record as each call ends";

pub(crate) const SERVE_DETAILS: &str = "\
Listens on the port of each line of the FILE, for connections that carry X.25
packets in TCP (RFC 1613). As each call ends, its record is written: with --cdr
as a line of CSV at the end of that file, else as `record ..` on standard
output. Serving goes on until Ctrl-C or SIGTERM: then all calls are ended, and
their records are written. A second Ctrl-C ends it at once.

Lines of facts with their moments go to standard error. Where the file of
--cdr can't be written, the records wait, and are tried again each second.
Beside that file PATH.live has the live calls, as of a second ago. After a kill
or a power cut the next start gives each of them a record from it.
With --console a page at that address shows the lines and the live calls.

Example:
  xp serve examples/three-stations.toml --cdr calls.csv";

pub(crate) const CHECK_WORDS_HELP: &str = "Prints a summary for a person";

pub(crate) const CHECK_SERVE_HELP: &str = "Looks also at the addresses in it, as `xp serve` does";

pub(crate) const CHECK_PORTS_HELP: &str = "Tries also to listen on its ports";

pub(crate) const REPLAY_WORDS_HELP: &str = "Prints each event, packet and record in words";

pub(crate) const LADDER_HELP: &str = "Prints the packets as a ladder diagram, 80 columns wide";

pub(crate) const PCAP_HELP: &str =
    "Writes the packets into this file, as a capture that Wireshark reads";

pub(crate) const TABLES_HELP: &str =
    "Lets the script put the subscription file PATH into force by this NAME; may be given again";

pub(crate) const AFTER_HELP: &str = "Tells what changes where OLD was in force before";

pub(crate) const CALLER_HELP: &str = "The name of the calling line, or ADDRESS@ROUTER";

pub(crate) const DIALLED_HELP: &str = "The address that it calls, in digits";

pub(crate) const FACILITIES_HELP: &str =
    "The facility field of the call request, in hexadecimal digits";

pub(crate) const USER_HELP: &str = "Its user data, in hexadecimal digits";

pub(crate) const UP_HELP: &str = "The lines in service, as a1,b1; '' for none";

pub(crate) const BUSY_HELP: &str = "The lines that are in a call, as h1,h2";

pub(crate) const STATUS_HELP: &str = "Ends with status 1 where the call is refused";

pub(crate) const CDR_HELP: &str = "Writes call detail records at the end of this file (CSV)";

pub(crate) const CDR_DIR_HELP: &str =
    "Writes them into this directory instead, a file for each day (UTC)";

pub(crate) const LIVE_HELP: &str =
    "Keeps the live calls in this file (default: beside the records, PATH.live or DIRECTORY/calls.live)";

pub(crate) const NO_LIVE_HELP: &str = "Keeps no live calls: a kill loses them";

pub(crate) const NAME_HELP: &str =
    "Names the exchange so in its records, not by its file or host: letters, digits, - and .";

pub(crate) const TRACE_HELP: &str = "Writes what passes on the lines into this file";

pub(crate) const TRACE_LINES_HELP: &str = "Traces these lines alone, as a1,b1; needs --trace";

pub(crate) const THREADS_HELP: &str =
    "Serves the lines by so many threads, 1 to 4096, or by one for each line: lines";

pub(crate) const RECORDS_HELP: &str =
    "For tests: ends with so many charging records, 1 to 1000000000000";

pub(crate) const TURNS_HELP: &str =
    "For tests: ends each line after so many turns, 1 to 1000000000000";

pub(crate) const UNTIL_EOF_HELP: &str = "Ends cleanly as standard input ends";

pub(crate) const CONSOLE_HELP: &str =
    "Shows the exchange at this address, as 127.0.0.1:9980: see it in a browser";

pub(crate) const QUIET_HELP: &str = "Tells only failures on standard error";

pub(crate) const STATUS_ABOUT: &str =
    "Shows a serving exchange: its lines, live calls and last records";

pub(crate) const STATUS_DETAILS: &str = "\
ADDRESS is that of `xp serve --console ADDRESS`.

Example:
  xp status 127.0.0.1:9980";

pub(crate) const STOP_ABOUT: &str = "Stops a serving exchange cleanly";

pub(crate) const STOP_DETAILS: &str = "\
ADDRESS is that of `xp serve --console ADDRESS`. All calls are ended, and their
records are written, as at Ctrl-C.

Example:
  xp stop 127.0.0.1:9980";

pub(crate) const RELOAD_ABOUT: &str =
    "Lets a serving exchange read its subscription file again, while calls go on";

pub(crate) const RELOAD_DETAILS: &str = "\
ADDRESS is that of `xp serve --console ADDRESS`. The exchange reads the file with
which it was started. What changes in it is in force from the next call request
on, and calls go on. Where it is refused, or needs a stop, nothing changes, and
the exit status is 3. `xp check NEW --after OLD` tells so before.

Example:
  xp reload 127.0.0.1:9980";

pub(crate) const FILE_HELP: &str = "The subscription file (TOML): the stations and their lines";

pub(crate) const FILE_OR_INPUT_HELP: &str = "The subscription file (TOML), or - for standard input";

pub(crate) const ADDRESS_HELP: &str = "The address of the console, as 127.0.0.1:9980";
