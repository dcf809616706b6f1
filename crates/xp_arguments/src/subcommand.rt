//! The subcommands of the program.

ghost use Rattle.std.specs.Prelude.{◌≡◌, ◌≢◌, IfNone, IfOk, IfSome, codes, option_map};
ghost use Rattle.clap.specs.Words.{found_of, rows_of};
ghost use Rattle.xp_arguments.specs.Commands.{HasCheckForm, HasDepth, IsCheck, IsQuestion, Suits, operand_of, verb_of, word_of};

use crate::names::{
    ADDRESS, AFTER, BUSY, CALLER, DIALLED, FACILITIES, FILE, PORTS, SERVE, STATUS, UP, USER, WORDS,
    is_true,
};
use crate::replay_order::{ReplayOrder, replay_of};
use crate::serve_order::{ServeOrder, order_of};
use clap::ArgMatches;
use std::alloc::{AllocError, Global};

/// What a subcommand does.
#[derive(Clone, Copy)]
pub enum Verb {
    Check,
    Replay,
    Explain,
    Serve,
    Status,
    Stop,
    Reload,
}

impl Verb {
    ghost use Rattle.xp_arguments.specs.declared.subcommand.Verb.{Verb};

    /// The verbs, in the order in which help tells them.
    pub(crate) const ALL: [Verb; 7] = [
        Verb::Check,
        Verb::Replay,
        Verb::Explain,
        Verb::Serve,
        Verb::Status,
        Verb::Stop,
        Verb::Reload,
    ];

    /// Its word on the command line.
    pub fn word<'a>(self) -> &'a str
        ensures { result.now ≡ word_of self }
    {
        match self {
            Verb::Check => "check",
            Verb::Replay => "replay",
            Verb::Explain => "explain",
            Verb::Serve => "serve",
            Verb::Status => "status",
            Verb::Stop => "stop",
            Verb::Reload => "reload",
        }
    }

    /// The verb of a word of the command line.
    pub fn named(word: &str) -> Option<Verb>
        ensures found { IfSome result (λ verb. word.now ≡ word_of verb) }
        ensures none { IfNone result ((verb : Verb) → word.now ≡ word_of verb → ⊥) }
    {
        match word {
            "check" => Some(Verb::Check),
            "replay" => Some(Verb::Replay),
            "explain" => Some(Verb::Explain),
            "serve" => Some(Verb::Serve),
            "status" => Some(Verb::Status),
            "stop" => Some(Verb::Stop),
            "reload" => Some(Verb::Reload),
            _ => None,
        }
    }

    /// The name of the argument that it has to be given first: a file, or the address of a console.
    pub fn operand<'a>(self) -> &'a str
        ensures { result.now ≡ operand_of self }
    {
        match self {
            Verb::Check | Verb::Replay | Verb::Explain | Verb::Serve => FILE,
            Verb::Status | Verb::Stop | Verb::Reload => ADDRESS,
        }
    }
}

/// The form in which a subscription file that sets up is told.
#[derive(Clone, Copy)]
pub enum CheckForm {
    /// A line of counts.
    Counts,
    /// A summary for a person.
    Words,
}

/// How much a check looks at.
#[derive(Clone, Copy, PartialEq, Eq)]
pub enum CheckDepth {
    /// The subscription file.
    File,
    /// What serving needs without any port: the addresses in the file too.
    Serving,
    /// What serving needs: the ports too, which are listened on for a moment.
    Ports,
}

/// How a subscription file is to be checked.
#[derive(Clone, Copy)]
pub struct CheckOrder<'a> {
    pub form: CheckForm,
    pub depth: CheckDepth,
    /// The name of the subscription file that was in force before, where the changes are to be told.
    pub after: Option<&'a str>,
}

/// A call request whose decision is to be explained.
#[derive(Clone, Copy)]
pub struct QuestionOrder<'a> {
    /// The name of the calling line.
    pub caller: &'a str,
    /// The address that is called, in digits.
    pub dialled: &'a str,
    /// The facility field, in hexadecimal digits.
    pub facilities: Option<&'a str>,
    /// The user data, in hexadecimal digits.
    pub user: Option<&'a str>,
    /// The names of the lines that are in service, with commas between them; where absent all are.
    pub up: Option<&'a str>,
    /// The names of the lines that are in a call, with commas between them; where absent none is.
    pub busy: Option<&'a str>,
    /// Whether the exit status tells that the call request is refused.
    pub status: bool,
}
/// What a console is asked for.
#[derive(Clone, Copy)]
pub enum ConsoleRequest {
    /// To show the exchange.
    Status,
    /// To stop the exchange.
    Stop,
    /// To read its subscription file again.
    Reload,
}

/// A subcommand of the program.
#[derive(Drop)]
pub enum Subcommand<'a> {
    /// Checks a subscription file.
    Check(CheckOrder<'a>),
    /// Replays a script from standard input.
    Replay(ReplayOrder<'a>),
    /// Explains how a call request is decided.
    Explain(QuestionOrder<'a>),
    /// Serves the lines over TCP.
    Serve(ServeOrder<'a>),
    /// Asks the console of a serving exchange.
    Ask(ConsoleRequest),
}

impl<'a> Subcommand<'a> {
    /// The subcommand of a verb, with its arguments.
    ///
    /// # Errors
    ///
    /// An allocation failed.
    pub(crate) fn of(
        alloc: Global,
        verb: Verb,
        matches: &ArgMatches<'a>,
    ) -> Result<Option<Subcommand<'a>>, AllocError>
        ensures found { IfOk result (λ found. IfSome found (λ subcommand. (verb_of subcommand ≡ verb) × Suits (rows_of (found_of matches.now)) subcommand)) }
        ensures none { IfOk result (λ found. IfNone found ((subcommand : Subcommand) → verb_of subcommand ≡ verb → Suits (rows_of (found_of matches.now)) subcommand → ⊥)) }
    {
        if !matches!(verb, Verb::Replay) {
            return Ok(Subcommand::without_replay(verb, matches));
        }
        match replay_of(alloc, matches)? {
            Some(order) => Ok(Some(Subcommand::Replay(order))),
            None => Ok(None),
        }
    }

    /// The subcommand of a verb that does not replay a script, with its arguments.
    fn without_replay(verb: Verb, matches: &ArgMatches<'a>) -> Option<Subcommand<'a>>
        ensures found { verb ≢ Verb.Replay → IfSome result (λ subcommand. (verb_of subcommand ≡ verb) × Suits (rows_of (found_of matches.now)) subcommand) }
        ensures none { verb ≢ Verb.Replay → IfNone result ((subcommand : Subcommand) → verb_of subcommand ≡ verb → Suits (rows_of (found_of matches.now)) subcommand → ⊥) }
    {
        match verb {
            Verb::Check => Some(Subcommand::Check(check_of(matches))),
            Verb::Explain => Some(Subcommand::Explain(question_of(matches)?)),
            Verb::Serve => Some(Subcommand::Serve(order_of(matches)?)),
            Verb::Status => Some(Subcommand::Ask(ConsoleRequest::Status)),
            Verb::Stop => Some(Subcommand::Ask(ConsoleRequest::Stop)),
            Verb::Reload => Some(Subcommand::Ask(ConsoleRequest::Reload)),
            Verb::Replay => None,
        }
    }

    /// What it does.
    pub fn verb(&self) -> Verb
        ensures { result ≡ verb_of self.now }
    {
        match self {
            Subcommand::Check(_) => Verb::Check,
            Subcommand::Replay(_) => Verb::Replay,
            Subcommand::Explain(_) => Verb::Explain,
            Subcommand::Serve(_) => Verb::Serve,
            Subcommand::Ask(ConsoleRequest::Status) => Verb::Status,
            Subcommand::Ask(ConsoleRequest::Stop) => Verb::Stop,
            Subcommand::Ask(ConsoleRequest::Reload) => Verb::Reload,
        }
    }
}

/// How the arguments ask a subscription file to be checked.
fn check_of<'a>(matches: &ArgMatches<'a>) -> CheckOrder<'a>
    ensures { IsCheck (rows_of (found_of matches.now)) result }
{
    let form = check_form(matches);
    let depth = check_depth(matches);
    let after = matches.get_str(AFTER);
    CheckOrder { form, depth, after }
}

/// The form in which the arguments ask for what a subscription file sets up.
fn check_form(matches: &ArgMatches) -> CheckForm
    ensures { HasCheckForm (rows_of (found_of matches.now)) result }
{
    if is_true(matches, WORDS) {
        CheckForm::Words
    } else {
        CheckForm::Counts
    }
}

/// How much the arguments ask to be looked at. Who asks for the ports asks for all.
fn check_depth(matches: &ArgMatches) -> CheckDepth
    ensures { HasDepth (rows_of (found_of matches.now)) result }
{
    if is_true(matches, PORTS) {
        CheckDepth::Ports
    } else if is_true(matches, SERVE) {
        CheckDepth::Serving
    } else {
        CheckDepth::File
    }
}

/// The call request whose decision the arguments ask to be explained.
fn question_of<'a>(matches: &ArgMatches<'a>) -> Option<QuestionOrder<'a>>
    ensures found { IfSome result (λ question. IsQuestion (rows_of (found_of matches.now)) question) }
    ensures none { IfNone result ((question : QuestionOrder) → IsQuestion (rows_of (found_of matches.now)) question → ⊥) }
{
    let caller = matches.get_str(CALLER)?;
    let dialled = matches.get_str(DIALLED)?;
    let facilities = matches.get_str(FACILITIES);
    let user = matches.get_str(USER);
    let up = matches.get_str(UP);
    let busy = matches.get_str(BUSY);
    let status = is_true(matches, STATUS);
    Some(QuestionOrder {
        caller,
        dialled,
        facilities,
        user,
        up,
        busy,
        status,
    })
}
