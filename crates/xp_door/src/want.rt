//! Want of descriptors or of memory.

ghost use Rattle.std.specs.Prelude.{◌≡◌, ◌↔◌, Some, true};
ghost use Rattle.std.specs.IoError.{raw_os_error};
ghost use Rattle.xp_door.specs.Wants.{IsWant};

use std::io;
use std::io::ErrorKind;

/// The errors of Linux that the system has no descriptors, or no room for buffers.
const ENFILE: i32 = 23;

const ENOBUFS: i32 = 105;

/// Whether no connection can be accepted for want of descriptors or of memory. `None` where the error does not tell.
pub fn is_in_want(error: &io::Error) -> Option<bool>
    ensures { (result ≡ Some true) ↔ IsWant (raw_os_error error.now) }
{
    match error.raw_os_error() {
        Some(libc::EMFILE | ENFILE | ENOBUFS | libc::ENOMEM) => Some(true),
        _ if error.kind() == ErrorKind::WouldBlock => Some(false),
        _ => None,
    }
}
