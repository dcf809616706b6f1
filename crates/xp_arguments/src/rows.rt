//! The arguments of each subcommand, and what help tells of it.

ghost use Rattle.std.specs.Prelude.{◌≡◌, false};
ghost use Rattle.clap.specs.Words.{new_app, rule_of};
ghost use Rattle.xp_arguments.specs.Commands.{word_of};
ghost use Rattle.xp_arguments.specs.steps.Rows.{command_with, rule_in, with_rules};

use crate::names::{
    ADDRESS, AFTER, BUSY, CALLER, CDR, CDR_DIR, CONSOLE, DIALLED, FACILITIES, FILE, LADDER, LIVE,
    NAME, NO_LIVE, PCAP, PORTS, QUIET, RECORDS, SERVE, STATUS, TABLES, THREADS, TRACE, TRACE_LINES,
    TURNS, UNTIL_EOF, UP, USER, WORDS,
};
use crate::subcommand::Verb;
use crate::texts;
use clap::{Arg, ArgAction};
use std::alloc::Global;

/// How an argument is given.
pub(crate) enum ArgumentForm {
    /// By its place, as FILE: it has to be there.
    Placed,
    /// With a value, of which this is the name in the help, as `--records N`.
    Valued(&'static str),
    /// The same, and it may be given again, as `--tables NAME=PATH`.
    Repeated(&'static str),
    /// It is there or not, as `--until-eof`.
    Flag,
}

/// An argument of a subcommand.
pub(crate) struct ArgumentRow {
    form: ArgumentForm,
    name: &'static str,
    help: &'static str,
}

/// The arguments by which a file is checked.
static CHECK: [ArgumentRow; 5] = [
    ArgumentRow {
        form: ArgumentForm::Placed,
        name: FILE,
        help: texts::FILE_OR_INPUT_HELP,
    },
    ArgumentRow {
        form: ArgumentForm::Flag,
        name: WORDS,
        help: texts::CHECK_WORDS_HELP,
    },
    ArgumentRow {
        form: ArgumentForm::Flag,
        name: SERVE,
        help: texts::CHECK_SERVE_HELP,
    },
    ArgumentRow {
        form: ArgumentForm::Flag,
        name: PORTS,
        help: texts::CHECK_PORTS_HELP,
    },
    ArgumentRow {
        form: ArgumentForm::Valued("OLD"),
        name: AFTER,
        help: texts::AFTER_HELP,
    },
];

/// The arguments by which a script is replayed.
static REPLAY: [ArgumentRow; 5] = [
    ArgumentRow {
        form: ArgumentForm::Placed,
        name: FILE,
        help: texts::FILE_HELP,
    },
    ArgumentRow {
        form: ArgumentForm::Flag,
        name: WORDS,
        help: texts::REPLAY_WORDS_HELP,
    },
    ArgumentRow {
        form: ArgumentForm::Flag,
        name: LADDER,
        help: texts::LADDER_HELP,
    },
    ArgumentRow {
        form: ArgumentForm::Valued("PATH"),
        name: PCAP,
        help: texts::PCAP_HELP,
    },
    ArgumentRow {
        form: ArgumentForm::Repeated("NAME=PATH"),
        name: TABLES,
        help: texts::TABLES_HELP,
    },
];

/// The arguments by which a decision is explained.
static EXPLAIN: [ArgumentRow; 8] = [
    ArgumentRow {
        form: ArgumentForm::Placed,
        name: FILE,
        help: texts::FILE_OR_INPUT_HELP,
    },
    ArgumentRow {
        form: ArgumentForm::Placed,
        name: CALLER,
        help: texts::CALLER_HELP,
    },
    ArgumentRow {
        form: ArgumentForm::Placed,
        name: DIALLED,
        help: texts::DIALLED_HELP,
    },
    ArgumentRow {
        form: ArgumentForm::Valued("HEX"),
        name: FACILITIES,
        help: texts::FACILITIES_HELP,
    },
    ArgumentRow {
        form: ArgumentForm::Valued("HEX"),
        name: USER,
        help: texts::USER_HELP,
    },
    ArgumentRow {
        form: ArgumentForm::Valued("LINES"),
        name: UP,
        help: texts::UP_HELP,
    },
    ArgumentRow {
        form: ArgumentForm::Valued("LINES"),
        name: BUSY,
        help: texts::BUSY_HELP,
    },
    ArgumentRow {
        form: ArgumentForm::Flag,
        name: STATUS,
        help: texts::STATUS_HELP,
    },
];

/// The arguments by which the lines are served.
static SERVING: [ArgumentRow; 14] = [
    ArgumentRow {
        form: ArgumentForm::Placed,
        name: FILE,
        help: texts::FILE_HELP,
    },
    ArgumentRow {
        form: ArgumentForm::Valued("PATH"),
        name: CDR,
        help: texts::CDR_HELP,
    },
    ArgumentRow {
        form: ArgumentForm::Valued("DIRECTORY"),
        name: CDR_DIR,
        help: texts::CDR_DIR_HELP,
    },
    ArgumentRow {
        form: ArgumentForm::Valued("PATH"),
        name: LIVE,
        help: texts::LIVE_HELP,
    },
    ArgumentRow {
        form: ArgumentForm::Flag,
        name: NO_LIVE,
        help: texts::NO_LIVE_HELP,
    },
    ArgumentRow {
        form: ArgumentForm::Valued("NAME"),
        name: NAME,
        help: texts::NAME_HELP,
    },
    ArgumentRow {
        form: ArgumentForm::Valued("N"),
        name: RECORDS,
        help: texts::RECORDS_HELP,
    },
    ArgumentRow {
        form: ArgumentForm::Valued("PATH"),
        name: TRACE,
        help: texts::TRACE_HELP,
    },
    ArgumentRow {
        form: ArgumentForm::Valued("LINES"),
        name: TRACE_LINES,
        help: texts::TRACE_LINES_HELP,
    },
    ArgumentRow {
        form: ArgumentForm::Valued("N"),
        name: THREADS,
        help: texts::THREADS_HELP,
    },
    ArgumentRow {
        form: ArgumentForm::Valued("M"),
        name: TURNS,
        help: texts::TURNS_HELP,
    },
    ArgumentRow {
        form: ArgumentForm::Valued("ADDRESS"),
        name: CONSOLE,
        help: texts::CONSOLE_HELP,
    },
    ArgumentRow {
        form: ArgumentForm::Flag,
        name: QUIET,
        help: texts::QUIET_HELP,
    },
    ArgumentRow {
        form: ArgumentForm::Flag,
        name: UNTIL_EOF,
        help: texts::UNTIL_EOF_HELP,
    },
];

/// The argument by which a console is asked.
static CONSOLE_ADDRESS: [ArgumentRow; 1] = [ArgumentRow {
    form: ArgumentForm::Placed,
    name: ADDRESS,
    help: texts::ADDRESS_HELP,
}];

/// The arguments of a verb, the first of which it has to be given.
pub(crate) fn arguments_of(verb: Verb) -> &'static [ArgumentRow]
    ensures { with_rules (new_app (word_of verb)) result.now ≡ command_with verb }
{
    match verb {
        Verb::Check => &CHECK,
        Verb::Replay => &REPLAY,
        Verb::Explain => &EXPLAIN,
        Verb::Serve => &SERVING,
        Verb::Status | Verb::Stop | Verb::Reload => &CONSOLE_ADDRESS,
    }
}

/// What help tells of a verb before its arguments and after them.
pub(crate) fn help_of(verb: Verb) -> (&'static str, &'static str) {
    match verb {
        Verb::Check => (texts::CHECK_ABOUT, texts::CHECK_DETAILS),
        Verb::Replay => (texts::REPLAY_ABOUT, texts::REPLAY_DETAILS),
        Verb::Explain => (texts::EXPLAIN_ABOUT, texts::EXPLAIN_DETAILS),
        Verb::Serve => (texts::SERVE_ABOUT, texts::SERVE_DETAILS),
        Verb::Status => (texts::STATUS_ABOUT, texts::STATUS_DETAILS),
        Verb::Stop => (texts::STOP_ABOUT, texts::STOP_DETAILS),
        Verb::Reload => (texts::RELOAD_ABOUT, texts::RELOAD_DETAILS),
    }
}

impl ArgumentRow {
    /// The argument, as it is read.
    pub(crate) fn arg<'a>(&self, alloc: Global) -> Arg<'a>
        ensures rule { rule_of result ≡ rule_in self.now }
        ensures local { result.global ≡ false }
    {
        let arg = Arg::new(alloc, self.name).help(self.help);
        match self.form {
            ArgumentForm::Placed => arg.required(true),
            ArgumentForm::Valued(value) => arg.long(self.name).value_name(value),
            ArgumentForm::Repeated(value) => arg
                .long(self.name)
                .value_name(value)
                .action(ArgAction::Append),
            ArgumentForm::Flag => arg.long(self.name).action(ArgAction::SetTrue),
        }
    }
}
