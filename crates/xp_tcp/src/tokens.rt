//! The names of a line's sockets among what its thread waits for.

use mio::Token;
use xp_subs::LineNo;

/// A line has this many of them.
const SOCKETS_OF_LINE: usize = 2;

/// Of so many sockets a thread hears at most in one look.
pub(crate) const MOST_SOCKETS: usize = 1024;

/// The wakes of other threads.
pub(crate) const WAKER: Token = Token(usize::MAX);

/// The socket that listens for a line.
pub(crate) fn listener_of(line: LineNo) -> Token {
    Token(line as usize * SOCKETS_OF_LINE)
}

/// The connection of a line.
pub(crate) fn stream_of(line: LineNo) -> Token {
    Token(line as usize * SOCKETS_OF_LINE + 1)
}

/// The line of a socket. `None` for the wakes of other threads.
pub(crate) fn line_of(token: Token) -> Option<LineNo> {
    LineNo::try_from(token.0 / SOCKETS_OF_LINE).ok()
}

/// Whether a socket listens.
pub(crate) fn is_listener(token: Token) -> bool {
    token.0 % SOCKETS_OF_LINE == 0
}
