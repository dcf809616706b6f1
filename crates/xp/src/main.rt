//! The exchange as a program: it checks a subscription file, replays a script of events, and serves lines over TCP.
#![tactic(auto)]

ghost use Rattle.std.specs.Prelude.{◌≡◌, IfOk};

mod attending;
mod beside;
mod into_file;
mod live;
mod ordered_run;
mod runtime;
mod served_console;
mod serving;
mod status_feed;

use crate::runtime::ServingRuntime;
use crate::serving::{CopiedSubs, serve_lines};
use std::fs::{File, Files};
use std::io::ErrorKind;
use std::net::{Net, TcpListener, TcpStream};
use std::process::ExitCode;
use std::rt::Env;
use std::{env, fs, io};
use xp_arguments::{
    Arguments, CheckOrder, QuestionOrder, ReplayOrder, ServeOrder, Subcommand, refused,
};
use xp_changes::ToldChanges;
use xp_commands::{
    CommandFailure, ask_console, changes_after, check_file, explain_call, file_text, named_file,
    print_changes, print_text, replay_script, subscriptions_of,
};
use xp_readiness::{Failure, check_readiness, explained, refusal_warning};
use xp_renewal::SubscriptionFile;
use xp_subs::Subs;
use xp_tasks::TaskFailure;

fn main(rt: HostRuntime) -> ExitCode {
    match run(&rt, rt) {
        Ok(()) => ExitCode::SUCCESS,
        Err(failure) => {
            // If standard error fails too, nobody is left to read it.
            let _ = failure.tell(&rt);
            ExitCode::from(failure.status())
        }
    }
}

/// Performs what the words of the command line ask for.
fn run<
    R: ServingRuntime
        + Net<Listener = TcpListener, Stream = TcpStream>
        + Files<File = File>
        + Env
        + Input
        + Print,
>(rt: &R, host: HostRuntime) -> Result<(), Failure> {
    let words = words(rt)?;
    match Arguments::read(rt.alloc(), &words) {
        Ok(arguments) => perform(rt, host, arguments),
        Err(told) => Ok(tell_version(rt, told)?),
    }
}

/// Performs the subcommand on the file, or at the console, that the arguments name.
fn perform<
    R: ServingRuntime
        + Net<Listener = TcpListener, Stream = TcpStream>
        + Files<File = File>
        + Input
        + Print,
>(rt: &R, host: HostRuntime, arguments: Arguments<'_>) -> Result<(), Failure> {
    let operand = arguments.operand;
    match arguments.subcommand {
        Subcommand::Check(order) => check(rt, &order, operand),
        Subcommand::Replay(order) => replay(rt, &order, operand),
        Subcommand::Explain(question) => explain(rt, &question, operand),
        Subcommand::Serve(order) => {
            let file = named_file(rt.alloc(), operand, "standard input stops the exchange")?;
            serve_file(rt, host, &order, file)
        }
        Subcommand::Ask(request) => Ok(ask_console(rt, request, operand)?),
    }
}

/// Checks a subscription file.
fn check<R: AllocGlobal + Files<File = File> + Input + Net + Print>(
    rt: &R,
    order: &CheckOrder<'_>,
    file: &str,
) -> Result<(), Failure> {
    let text = file_text(rt, file);
    let subs = subscriptions_of(rt, file, &text)?;
    match changes_of(rt, order, file, &text)? {
        Some(told) => {
            check_alone(rt, order, subs)?;
            Ok(print_changes(rt, &told)?)
        }
        None => check_alone(rt, order, subs),
    }
}

/// Checks these subscriptions, without what changes.
fn check_alone<R: AllocGlobal + Net + Print>(
    rt: &R,
    order: &CheckOrder<'_>,
    subs: Subs,
) -> Result<(), Failure> {
    check_readiness(rt, &subs, order.depth)?;
    let warning = refusal_warning(rt, &subs, order.form)?;
    check_file(rt, order.form, subs)?;
    Ok(print_text(rt, &warning)?)
}

/// What changes as the subscriptions of a file of this text come into force after those of another one, if one is named.
fn changes_of<R: AllocGlobal + Files<File = File>>(
    rt: &R,
    order: &CheckOrder<'_>,
    file: &str,
    text: &io::Result<String>,
) -> Result<Option<ToldChanges>, CommandFailure> {
    match order.after {
        Some(old) => {
            let new = subscriptions_of(rt, file, text)?;
            Ok(Some(changes_after(rt, old, new)?))
        }
        None => Ok(None),
    }
}

/// Replays the script on standard input.
fn replay<R: AllocGlobal + Files<File = File> + Input + Print>(
    rt: &R,
    order: &ReplayOrder<'_>,
    file: &str,
) -> Result<(), Failure> {
    let file = named_file(rt.alloc(), file, "standard input is the script")?;
    Ok(replay_script(rt, order, file)?)
}

/// Explains how a call request is decided.
fn explain<R: AllocGlobal + Files<File = File> + Input + Print>(
    rt: &R,
    question: &QuestionOrder<'_>,
    file: &str,
) -> Result<(), Failure> {
    let subs = subscriptions_in(rt, file)?;
    Ok(explain_call(rt, &subs, question)?)
}

/// Prints the version where these words asked for it. All else that is told of words is a failure.
fn tell_version<R: AllocGlobal + Print>(rt: &R, told: clap::Error) -> Result<(), CommandFailure> {
    match told.kind() {
        clap::error::ErrorKind::DisplayVersion => print_told(rt, &told),
        _ => Err(CommandFailure::from(told)),
    }
}

/// Prints what is told of words on standard output.
fn print_told<R: AllocGlobal + Print>(rt: &R, told: &clap::Error) -> Result<(), CommandFailure> {
    print_text(rt, &told.to_string(rt.alloc())?)
}

/// Serves the lines of a subscription file.
fn serve_file<
    R: ServingRuntime + Net<Listener = TcpListener, Stream = TcpStream> + Files<File = File>,
>(rt: &R, host: HostRuntime, order: &ServeOrder<'_>, file: &str) -> Result<(), Failure> {
    let text = fs::read_to_string(rt, file);
    let subs = copied_subs(rt, host, file, &text)?;
    match serve_lines(rt, host, order, subs) {
        Ok(()) => Ok(()),
        Err(failure) => Err(with_reason(rt, file, &text, failure)),
    }
}

/// The subscriptions of a file of this text, once for each who needs them.
fn copied_subs<R: AllocGlobal + Files<File = File>>(
    rt: &R,
    host: HostRuntime,
    file: &str,
    text: &io::Result<String>,
) -> Result<CopiedSubs, CommandFailure>
    ensures names { IfOk result (λ subs. subs.names ≡ subs.own) }
    ensures live { IfOk result (λ subs. subs.live ≡ subs.own) }
{
    let path = file.to_string(rt.alloc())?;
    let own = subscriptions_of(rt, file, text)?;
    let names = subscriptions_of(rt, file, text)?;
    let live = subscriptions_of(rt, file, text)?;
    let kept = subscriptions_of(rt, file, text)?;
    Ok(CopiedSubs {
        own,
        names,
        live,
        file: SubscriptionFile::new(host, path, kept),
    })
}

/// This failure to serve the lines of a file of this text, with which, where and why if that is found.
fn with_reason<R: AllocGlobal + Files<File = File> + Net>(
    rt: &R,
    file: &str,
    text: &io::Result<String>,
    failure: Failure,
) -> Failure {
    let Failure::Serve(failure) = failure else {
        return failure;
    };
    match subscriptions_of(rt, file, text) {
        Ok(subs) => explained(rt, &subs, failure),
        Err(_) => Failure::Serve(failure),
    }
}

/// The subscriptions of the file that a word names, which may be standard input.
fn subscriptions_in<R: AllocGlobal + Files<File = File> + Input>(
    rt: &R,
    file: &str,
) -> Result<Subs, CommandFailure> {
    subscriptions_of(rt, file, &file_text(rt, file))
}

/// The words of the command line.
fn words<R: AllocGlobal + Env>(rt: &R) -> Result<Vec<String>, CommandFailure> {
    let alloc = rt.alloc();
    match env::args(rt) {
        Ok(words) => Ok(words.collect(alloc)?),
        Err(error) if error.kind() == ErrorKind::OutOfMemory => {
            Err(CommandFailure::Task(TaskFailure::Memory))
        }
        Err(_) => Err(CommandFailure::from(refused(alloc, "an argument is not UTF-8")?)),
    }
}
