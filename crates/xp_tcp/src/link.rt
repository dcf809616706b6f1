//! A line's connection.

ghost use Rattle.std.specs.Prelude.{◌≡◌, ◌≢◌, ◌<◌, ◌≤◌, ◌↔◌, ◌⊎◌, IsTrue, length};
ghost use Rattle.std.specs.IoError.{error_kind};
ghost use Rattle.xp_links.specs.Counts.{pulled_count, pushed_count};

use crate::connection_notes::ConnectionNotes;
use crate::line_place::LinePlace;
use crate::options::{Patience, notice_dead_peer};
use crate::tokens::stream_of;
use mio::net::TcpStream;
use mio::{Interest, Registry};
use std::io;
use std::io::{ErrorKind, Read, Write};
use std::sync::Arc;
use xp_door::{Arrival, DownReason, LineShare, LineWaker, Notice};
use xp_links::{Link, Pulled, Pushed};

/// A TCP connection of a line. It tells the notice that the line is up as it is made, and that the line is down, and why, as it is
/// dropped. A peer that is gone ends it within some 90 seconds. It ends where another connection takes its place.
pub(crate) struct TcpLink {
    stream: TcpStream,
    pub(crate) place: Arc<LinePlace>,
    notes: ConnectionNotes,
}

impl Drop for TcpLink {
    fn drop(self) {
        let TcpLink {
            stream,
            place,
            notes,
        } = self;
        let line = place.line;
        let reason = notes.reason();
        place.own.share.tell_down(Notice::Down { line, reason });
        place.links.let_go(stream);
    }
}

impl TcpLink {
    /// The link of a connection of the line in this place, for which the line's thread waits from now on.
    pub(crate) fn new(arrival: Arrival, place: Arc<LinePlace>) -> io::Result<TcpLink> {
        let Arrival { stream, peer } = arrival;
        let mut stream = stream;
        let share = &place.own.share;
        wait_for(&mut stream, &place.links.waits, share, Patience::Line)?;
        let line = place.line;
        share.tell_up(Notice::Up { line, peer });
        let notes = ConnectionNotes::new(share, Patience::Line);
        Ok(TcpLink {
            stream,
            place,
            notes,
        })
    }
}

/// Lets a line's thread wait for a connection from now on.
pub(crate) fn wait_for(
    stream: &mut TcpStream,
    waits: &Registry,
    share: &LineShare,
    patience: Patience,
) -> io::Result<()> {
    // A packet is to go at once, however short it is.
    stream.set_nodelay(true)?;
    notice_dead_peer(stream, patience)?;
    let interests = Interest::READABLE | Interest::WRITABLE;
    waits.register(stream, stream_of(share.line), interests)?;
    if let Some(waker) = share.waker() {
        waker.begin_connection();
    }
    Ok(())
}

/// Whether a call failed only because it would have had to wait.
pub(crate) fn is_early(error: &io::Error) -> bool
    ensures { IsTrue result ↔ (error_kind error.now ≡ ErrorKind.WouldBlock) ⊎ (error_kind error.now ≡ ErrorKind.Interrupted) }
{
    matches!(error.kind(), ErrorKind::WouldBlock | ErrorKind::Interrupted)
}

/// Reads from a connection, unless all octets that were there are read. There is room for some. An error is noted.
pub(crate) fn read_from(
    stream: &mut TcpStream,
    waker: &LineWaker,
    notes: &mut ConnectionNotes,
    into: &mut [u8],
) -> Pulled
    requires { 0 < length into.old }
    ensures bound { pulled_count result ≤ length into.new }
    ensures some { result ≢ Pulled.Octets 0 }
{
    if waker.is_emptied() {
        return Pulled::Nothing;
    }
    match stream.read(into) {
        Ok(0) => Pulled::Ended,
        Ok(count) => {
            // A read that had room to spare has left no octets.
            if count < into.len() {
                waker.empty();
            }
            Pulled::Octets(count)
        }
        Err(error) if error.kind() == ErrorKind::WouldBlock => {
            waker.empty();
            Pulled::Nothing
        }
        Err(error) if is_early(&error) => Pulled::Nothing,
        Err(error) => {
            notes.fail(&error);
            Pulled::Fault
        }
    }
}

/// Writes to a connection as many octets as it takes now. An error is noted.
pub(crate) fn write_to(stream: &mut TcpStream, notes: &mut ConnectionNotes, from: &[u8]) -> Pushed
    ensures bound { pushed_count result ≤ length from.now }
{
    if from.is_empty() {
        return Pushed::Took(0);
    }
    match stream.write(from) {
        Ok(count) => Pushed::Took(count),
        Err(error) if is_early(&error) => Pushed::Nothing,
        Err(error) => {
            notes.fail(&error);
            Pushed::Fault
        }
    }
}

impl Link for TcpLink {
    fn pull(&mut self, into: &mut [u8]) -> Pulled
        ensures bound { pulled_count result ≤ length into.new }
        ensures some { result ≢ Pulled.Octets 0 }
    {
        // A read into no room gives 0, as one at the end of the octets does.
        if into.is_empty() {
            return Pulled::Nothing;
        }
        if self.place.own.is_replaced() {
            self.notes.end(DownReason::Replaced);
            return Pulled::Ended;
        }
        let share = &self.place.own.share;
        let Some(waker) = share.waker() else {
            return Pulled::Fault;
        };
        let pulled = read_from(&mut self.stream, waker, &mut self.notes, into);
        self.notes.note_pulled(share, into, pulled);
        pulled
    }

    fn push(&mut self, from: &[u8]) -> Pushed {
        let pushed = write_to(&mut self.stream, &mut self.notes, from);
        self.notes.note_pushed(&self.place.own.share, from, pushed);
        pushed
    }
}
