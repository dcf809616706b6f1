//! The address of a console, as an operator writes it.

ghost use Rattle.std.specs.Prelude.{◌≡◌, IfNone, IfOk, IfSome};
ghost use Rattle.std.specs.declared.net.socket_addr.SocketAddr.{SocketAddr};
ghost use Rattle.xp_arguments.specs.Addresses.{IsConsoleAddress, Writes, bare, in_numbers, without_end, without_front};

use std::alloc::{AllocError, Global};
use std::fmt::Write;
use std::net::SocketAddr;

/// What may stand in front of an address, as a browser shows it.
const SCHEME: &[u8] = b"http://";

/// What may stand behind an address.
const SLASH: &[u8] = b"/";

/// The one name of a host that is known, before a port. It stands for 127.0.0.1.
const LOCALHOST: &[u8] = b"localhost:";

/// What it stands for.
const LOOPBACK: &[u8] = b"127.0.0.1:";

/// The address of a console that a text writes: `ADDRESS:PORT`, where ADDRESS is an IPv4 address, an IPv6 address in brackets, or
/// `localhost`, which is 127.0.0.1, and PORT is 1 to 65535. `http://` may stand in front of it, and a slash behind it. No other name
/// is looked up. `None` for any other text.
///
/// # Errors
///
/// An allocation failed.
pub fn console_address(alloc: Global, text: &str) -> Result<Option<SocketAddr>, AllocError>
    ensures found { IfOk result (λ found. IfSome found (IsConsoleAddress text.now)) }
    ensures none { IfOk result (λ found. IfNone found ((address : SocketAddr) → IsConsoleAddress text.now address → ⊥)) }
{
    let numbers = in_numbers(alloc, bare(text.as_bytes()))?;
    Ok(written_address(numbers.as_slice()))
}

/// Why a text is no address of a console, in words for a person: `"127.0.0.1" is no ADDRESS:PORT`. A port out of its range is told on
/// a second line. No contract says what is told.
///
/// # Errors
///
/// An allocation failed.
pub fn no_console_address(alloc: Global, text: &str) -> Result<String, AllocError> {
    let faulty_port = faulty_port(alloc, text)?;
    let mut told = format!(in alloc; "{text:?} is no ADDRESS:PORT")?;
    if let Some(port) = faulty_port {
        write!(told, "\na port from 1 to 65535 is wanted, found {port}")?;
    }
    Ok(told)
}

/// The port of a text, where it is a number and the text would be the address of a console with another one.
fn faulty_port(alloc: Global, text: &str) -> Result<Option<&str>, AllocError> {
    let Some((front, port)) = text.rsplit_once(':') else {
        return Ok(None);
    };
    let port = port.strip_suffix('/').unwrap_or(port);
    if port.is_empty() || !port.as_bytes().iter().all(|octet| octet.is_ascii_digit()) {
        return Ok(None);
    }
    Ok(is_before_port(alloc, front)?.then_some(port))
}

/// Whether the address of a console has this before the colon and the port.
fn is_before_port(alloc: Global, front: &str) -> Result<bool, AllocError> {
    let text = format!(in alloc; "{front}:1")?;
    Ok(console_address(alloc, &text)?.is_some())
}

/// The address and the port that a text writes in numbers, if it does.
fn written_address(text: &[u8]) -> Option<SocketAddr>
    ensures found { IfSome result (Writes text.now) }
    ensures none { IfNone result ((address : SocketAddr) → Writes text.now address → ⊥) }
{
    match SocketAddr::parse_ascii(text) {
        Ok(address) if address.port() > 0 => Some(address),
        _ => None,
    }
}

/// The text with 127.0.0.1 where it has `localhost` before a port.
fn in_numbers(alloc: Global, text: &[u8]) -> Result<Vec<u8>, AllocError>
    ensures { IfOk result (λ numbers. numbers.items ≡ in_numbers text.now) }
{
    if !text.starts_with(LOCALHOST) {
        return Vec::from_slice(alloc, text);
    }
    let mut numbers = Vec::from_slice(alloc, LOOPBACK)?;
    numbers.extend_from_slice(&text[LOCALHOST.len()..])?;
    Ok(numbers)
}

/// The text without `http://` in front of it and without a slash behind it.
fn bare(text: &[u8]) -> &[u8]
    ensures { result.now ≡ bare text.now }
{
    without_end(without_front(text, SCHEME), SLASH)
}

/// The text without this front, where it has it.
fn without_front<'a>(text: &'a [u8], front: &[u8]) -> &'a [u8]
    ensures { result.now ≡ without_front text.now front.now }
{
    if text.starts_with(front) {
        &text[front.len()..]
    } else {
        text
    }
}

/// The text without this end, where it has it.
fn without_end<'a>(text: &'a [u8], tail: &[u8]) -> &'a [u8]
    ensures { result.now ≡ without_end text.now tail.now }
{
    if text.ends_with(tail) {
        &text[..text.len() - tail.len()]
    } else {
        text
    }
}
