//! The words of the command line.

ghost use Rattle.std.specs.Prelude.{◌≡◌, ◌∷◌, [], ℕ, List, IfSome, IfNone, IfOk, IfErr, false, map, string_bytes};
ghost use Rattle.clap.specs.Words.{HasKind, app_of, kind_of, subcommand_rows_of, with_subcommand};
ghost use Rattle.clap.specs.declared.error.kind.ErrorKind.TheVariants.{InvalidValue, OutOfMemory};
ghost use Rattle.clap.specs.declared.builder.command.Command.TheViews.{out-Command as fields_of};
ghost use Rattle.xp_arguments.specs.Commands.{AreRight, Ask, AsksFor, kinds_of, program};
ghost use Rattle.xp_arguments.specs.steps.Rows.{AskForOne, bare, command_with};

use crate::misfits::misfit;
use crate::rows::{arguments_of, help_of};
use crate::subcommand::{Subcommand, Verb};
use crate::texts;
use clap::error::ErrorKind;
use clap::{ArgMatches, Command, Error};
use std::alloc::{AllocError, Global};

/// The arguments of the program: a subcommand, and what it has to be given.
#[derive(Drop)]
pub struct Arguments<'a> {
    pub subcommand: Subcommand<'a>,
    /// The name of the subscription file, or the address of the console that is asked.
    pub operand: &'a str,
}

impl<'a> Arguments<'a> {
    /// Reads the words of a command line; the first is the program's own name. Correct words fail only if an allocation
    /// fails. The error's kind tells whether the words ask for help or for the version, or what is wrong with them.
    pub fn read(alloc: Global, words: &'a [String]) -> Result<Arguments<'a>, Error>
        ensures asked { IfOk result (λ arguments. Ask (map string_bytes words.now) arguments.subcommand arguments.operand.now) }
        ensures taken { IfErr result (λ error. AreRight (map string_bytes words.now) → kind_of error ≡ OutOfMemory) }
        ensures kind { IfErr result (HasKind (kinds_of (map string_bytes words.now))) }
    {
        let matches = command(alloc)?.try_get_matches_from(words)?;
        Arguments::found_in(alloc, &matches)
    }

    /// The subcommand in the words, with its file or address, where they ask for one.
    fn found_in(alloc: Global, matches: &ArgMatches<'a>) -> Result<Arguments<'a>, Error>
        ensures asked { IfOk result (λ arguments. AsksFor (subcommand_rows_of matches.now) arguments.subcommand arguments.operand.now) }
        ensures taken { IfErr result (λ error. AskForOne (subcommand_rows_of matches.now) → kind_of error ≡ OutOfMemory) }
        ensures kind { IfErr result (HasKind (InvalidValue ∷ [])) }
    {
        match Arguments::named(alloc, matches)? {
            Some(arguments) => Ok(arguments),
            None => Err(unfit(alloc, matches)?),
        }
    }

    /// The subcommand in the words, with its file or address.
    ///
    /// # Errors
    ///
    /// An allocation failed.
    fn named(alloc: Global, matches: &ArgMatches<'a>) -> Result<Option<Arguments<'a>>, AllocError>
        ensures found { IfOk result (λ found. IfSome found (λ arguments. AsksFor (subcommand_rows_of matches.now) arguments.subcommand arguments.operand.now)) }
        ensures none { IfOk result (λ found. IfNone found ((subcommand : Subcommand) (name : List ℕ) → AsksFor (subcommand_rows_of matches.now) subcommand name → ⊥)) }
    {
        let Some((word, matches)) = matches.subcommand() else {
            return Ok(None);
        };
        let Some(verb) = Verb::named(word) else {
            return Ok(None);
        };
        let Some(operand) = matches.get_str(verb.operand()) else {
            return Ok(None);
        };
        match Subcommand::of(alloc, verb, matches)? {
            Some(subcommand) => Ok(Some(Arguments {
                subcommand,
                operand,
            })),
            None => Ok(None),
        }
    }
}

/// The error for arguments that were found, and ask for nothing.
fn unfit(alloc: Global, matches: &ArgMatches<'_>) -> Result<Error, Error>
    ensures refused { IfOk result (λ error. kind_of error ≡ InvalidValue) }
    ensures memory { IfErr result (λ error. kind_of error ≡ OutOfMemory) }
{
    match matches.subcommand() {
        Some((_, found)) => {
            let reason = misfit(alloc, found)?;
            refused(alloc, &reason)
        }
        None => refused(alloc, "no subcommand was found"),
    }
}

/// The error for words that are refused for this reason.
pub fn refused(alloc: Global, reason: &str) -> Result<Error, Error>
    ensures refused { IfOk result (λ error. kind_of error ≡ InvalidValue) }
    ensures memory { IfErr result (λ error. kind_of error ≡ OutOfMemory) }
{
    let mut command = command(alloc)?;
    let error = command.error(ErrorKind::InvalidValue, reason);
    drop(command);
    Ok(error?)
}

/// The program's command line.
fn command<'a>(alloc: Global) -> Result<Command<'a>, AllocError>
    ensures { IfOk result (λ command. app_of command ≡ program) }
{
    let mut command = without_subcommands(alloc);
    for verb in &Verb::ALL {
        command = command.subcommand(subcommand(alloc, *verb)?)?;
    }
    command.bin_name("xp")
}

/// The program's command line before its first subcommand.
fn without_subcommands<'a>(alloc: Global) -> Command<'a>
    ensures shape { app_of result ≡ bare }
    ensures local { (fields_of result).has_globals ≡ false }
{
    Command::new(alloc, "xp")
        .about(texts::ABOUT)
        .version(texts::VERSION)
        .after_help(texts::PROGRAM_DETAILS)
        .subcommand_required(true)
        .arg_required_else_help(true)
}

/// The subcommand of a verb, with its arguments and its help.
fn subcommand<'a>(alloc: Global, verb: Verb) -> Result<Command<'a>, AllocError>
    ensures shape { IfOk result (λ command. app_of command ≡ command_with verb) }
    ensures local { IfOk result (λ command. (fields_of command).has_globals ≡ false) }
{
    let (about, details) = help_of(verb);
    let mut command = Command::new(alloc, verb.word())
        .about(about)
        .after_help(details);
    for row in arguments_of(verb) {
        command = command.arg(row.arg(alloc))?;
    }
    Ok(command)
}
