//! Asking the console of a serving exchange.

use crate::failure::CommandFailure;
use crate::output::print_text;
use std::alloc::{AllocGlobal, Global};
use std::net::{Net, SocketAddr, TcpStream};
use std::time::Clock;
use xp_arguments::{ConsoleRequest, console_address, no_console_address};
use xp_console::{AskFault, ReloadAnswer, ask_reload, ask_status, ask_stop};

/// The status of HTTP by which a console says that it is busy.
const BUSY: u16 = 503;

/// Asks the console at this address, and prints what it shows.
pub fn ask_console<R: AllocGlobal + Clock + Net<Stream = TcpStream> + Print>(
    rt: &R,
    request: ConsoleRequest,
    address: &str,
) -> Result<(), CommandFailure> {
    let address = address_of(rt.alloc(), address)?;
    match request {
        ConsoleRequest::Status => {
            let status = ask_status(rt, rt.alloc(), address)?;
            print_text(rt, &status)
        }
        ConsoleRequest::Stop => {
            ask_stop(rt, rt.alloc(), address)?;
            Ok(())
        }
        ConsoleRequest::Reload => {
            let answer = ask_reload(rt, rt.alloc(), address)?;
            tell_reload(rt, answer)
        }
    }
}

/// Prints what a reload has changed.
///
/// # Errors
///
/// `Reload` where the exchange refuses it, and `Ask` where it is busy.
fn tell_reload<R: AllocGlobal + Print>(rt: &R, answer: ReloadAnswer) -> Result<(), CommandFailure> {
    match answer {
        ReloadAnswer::Done(told) => print_text(rt, &format!(in rt.alloc(); "{told}\n")?),
        ReloadAnswer::Refused(reason) => Err(CommandFailure::Reload(reason)),
        ReloadAnswer::Busy => Err(CommandFailure::Ask(AskFault::Refused(BUSY))),
    }
}

/// The address of a console that a text writes.
///
/// # Errors
///
/// `Address` where it writes none, and want of memory.
pub fn address_of(alloc: Global, text: &str) -> Result<SocketAddr, CommandFailure> {
    match console_address(alloc, text)? {
        Some(address) => Ok(address),
        None => Err(CommandFailure::Address(no_console_address(alloc, text)?)),
    }
}
