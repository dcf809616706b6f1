//! What an operator is to know of the lines' connections.

ghost use Rattle.std.specs.Prelude.{◌≡◌, ◌<◌, ◌↔◌, ◌∷◌, [], ◌++◌, IfOk, IsTrue, codes, length};
ghost use Rattle.std.specs.Bool.{OnFalse, OnTrue};
ghost use Rattle.std.specs.Net.Text.{socket_text};
ghost use Rattle.xp_door.specs.Notices.{line_of};
ghost use Rattle.xp_door.specs.steps.Notices.{subject_text, text_of, words_text};

use crate::calls::ClearedCall;
use crate::connect_fault::ConnectFault;
use crate::down_reason::DownReason;
use crate::locks::hold;
use crate::notice_words::Subject::{Call, Count, Fault, Nothing, Peer, Reason};
use crate::notice_words::{Subject, Words};
use crate::tap::Tap;
use crate::trace::Trace;
use crate::traffic::Traffic;
use circular_buffer::HeapCircularBuffer;
use std::alloc::{AllocError, Global};
use std::fmt;
use std::net::SocketAddr;
use std::sync::atomic::AtomicU64;
use std::sync::atomic::Ordering::SeqCst;
use std::sync::{Arc, Mutex};
use xp_clock::Start;
use xp_subs::LineNo;

/// How many notices wait at most.
const MOST_WAITING: usize = 1_024;

/// What has become of a line's connections.
#[derive(Clone, Copy)]
pub enum Notice {
    /// A connection from an address that is not admitted was closed.
    Refused { line: LineNo, peer: SocketAddr },
    /// A connection to the line's port was closed, since the line has one, and none of its connections is named.
    HasOne { line: LineNo, peer: SocketAddr },
    /// So many more connections to the line's port were closed, since one was last told.
    MoreRefused { line: LineNo, count: u64 },
    /// A connection took the place of the one that the line had.
    Replaced { line: LineNo, peer: SocketAddr },
    /// The line has a connection.
    Up { line: LineNo, peer: SocketAddr },
    /// The line has lost its connection, or has closed it.
    Down { line: LineNo, reason: DownReason },
    /// The line behind a router has a connection that the exchange has made to the router.
    Connected { line: LineNo, peer: SocketAddr },
    /// The line behind a router has closed its connection, over which no call goes any more. It stays in service.
    Closed { line: LineNo },
    /// The line behind a router could not be connected to it.
    NotConnected { line: LineNo, fault: ConnectFault },
    /// A call that the line has asked for was refused, or cleared for a fault.
    CallCleared { line: LineNo, call: ClearedCall },
    /// The line's port can take no connections, for want of descriptors or of memory.
    PortFailing { line: LineNo },
    /// The line's port takes connections again.
    PortWorks { line: LineNo },
    /// A connection to the routers' port was closed: its address is that of no line's router.
    NoRouter { peer: SocketAddr },
    /// A connection to the routers' port was refused: each line that may take its call has one.
    NoFreeLine { peer: SocketAddr },
    /// A call of a router was refused: no line behind it is of the calling address.
    NoCaller { peer: SocketAddr },
    /// A connection to the routers' port was closed: too many wait for their first frame.
    NoRoom { peer: SocketAddr },
    /// A connection to the routers' port was closed: its first frame was not whole in 10 seconds.
    NoFrame { peer: SocketAddr },
    /// A connection to the routers' port was closed: it began with a header that no frame has.
    NoFraming { peer: SocketAddr },
    /// A connection to the routers' port ended before its first frame was whole.
    EndedEarly { peer: SocketAddr },
    /// The routers' port can take no connections, for want of descriptors or of memory.
    DoorFailing,
    /// The routers' port takes connections again.
    DoorWorks,
}

impl Notice {
    /// The line that it is of. `None` where it is of the routers' port.
    pub fn line(&self) -> Option<LineNo>
        ensures { result ≡ line_of self.now }
    {
        match self {
            Notice::Refused { line, .. }
            | Notice::HasOne { line, .. }
            | Notice::MoreRefused { line, .. }
            | Notice::Replaced { line, .. }
            | Notice::Up { line, .. }
            | Notice::Down { line, .. }
            | Notice::Connected { line, .. }
            | Notice::Closed { line }
            | Notice::NotConnected { line, .. }
            | Notice::CallCleared { line, .. }
            | Notice::PortFailing { line }
            | Notice::PortWorks { line } => Some(*line),
            Notice::NoRouter { .. }
            | Notice::NoFreeLine { .. }
            | Notice::NoCaller { .. }
            | Notice::NoRoom { .. }
            | Notice::NoFrame { .. }
            | Notice::NoFraming { .. }
            | Notice::EndedEarly { .. }
            | Notice::DoorFailing
            | Notice::DoorWorks => None,
        }
    }

    /// The words of its text, without its line.
    fn words(&self) -> Words
        ensures { words_text result ≡ text_of self.now }
    {
        match self {
            Notice::Refused { peer, .. } => connection_from(peer, " refused"),
            Notice::HasOne { peer, .. } => connection_from(peer, " refused: the line has one"),
            Notice::MoreRefused { count, .. } => {
                Words("", Count(*count), " more connections refused")
            }
            Notice::Replaced { peer, .. } => {
                ending_in("replaced by a connection from ", Peer(*peer))
            }
            Notice::Up { peer, .. } => ending_in("up from ", Peer(*peer)),
            Notice::Down { reason, .. } => ending_in("down: ", Reason(*reason)),
            Notice::Connected { peer, .. } => ending_in("connected to ", Peer(*peer)),
            Notice::Closed { .. } => ending_in("connection closed", Nothing),
            Notice::NotConnected { fault, .. } => {
                ending_in("no connection to the router: ", Fault(*fault))
            }
            Notice::CallCleared { call, .. } => ending_in("", Call(*call)),
            Notice::PortFailing { .. } | Notice::DoorFailing => {
                ending_in("port fails: no connection can be accepted", Nothing)
            }
            Notice::PortWorks { .. } | Notice::DoorWorks => ending_in("port works again", Nothing),
            Notice::NoRouter { peer } => {
                connection_from(peer, " refused: no line is behind this router")
            }
            Notice::NoFreeLine { peer } => connection_from(peer, " refused: no line is free"),
            Notice::NoCaller { peer } => {
                Words(
                    "call from ",
                    Peer(*peer),
                    " refused: no line is of its calling address",
                )
            }
            Notice::NoRoom { peer } => {
                connection_from(peer, " refused: too many wait for their first frame")
            }
            Notice::NoFrame { peer } => {
                connection_from(peer, " closed: no whole frame came in 10 seconds")
            }
            Notice::NoFraming { peer } => connection_from(peer, " closed: no frame of RFC 1613"),
            Notice::EndedEarly { peer } => {
                connection_from(peer, " ended before its first frame was whole")
            }
        }
    }
}

/// The words of a notice of a connection from this peer.
fn connection_from(peer: &SocketAddr, what: &'static str) -> Words
    ensures { words_text result ≡ codes "connection from " ++ (socket_text peer.now ++ what.now) }
{
    Words("connection from ", Peer(*peer), what)
}

/// The words of a notice whose text ends in what it tells of.
fn ending_in(before: &'static str, subject: Subject) -> Words
    ensures { words_text result ≡ before.now ++ subject_text subject }
{
    Words(before, subject, "")
}

/// The text of the notice, without its line, such as `up from 10.0.0.9:40000`.
impl fmt::Display for Notice {
    ghost use Rattle.std.specs.Prelude.{Some};

    ghost output = { λ notice. Some (text_of notice) };

    fn fmt<W: fmt::Write>(&self, f: &mut fmt::Formatter<W>) -> fmt::Result {
        let Words(before, subject, after) = self.words();
        write!(f, "{before}{subject}{after}")
    }
}

/// The notices that wait to be taken, oldest first, at most 1,024, the octets that the connections have moved, and the trace of
/// what they move, if there is one. The threads of all lines share them.
#[derive(Drop)]
pub struct Notices {
    alloc: Global,
    /// When the run began: the clocks of all lines count from then.
    pub start: Start,
    waiting: Mutex<HeapCircularBuffer<Notice>>,
    /// How many were lost since that was last asked for.
    lost: AtomicU64,
    traffic: Traffic,
    trace: Option<Arc<Trace>>,
}

impl Notices {
    /// No notices yet, of a run that began then. No line is traced.
    pub fn new(alloc: Global, start: Start) -> Result<Notices, AllocError>
        ensures { IfOk result (λ notices. notices.start ≡ start) }
    {
        Notices::with_trace(alloc, start, None)
    }

    /// No notices yet, of a run that began then. What the lines of a trace receive and send goes there.
    pub fn with_trace(
        alloc: Global,
        start: Start,
        trace: Option<Arc<Trace>>,
    ) -> Result<Notices, AllocError>
        ensures { IfOk result (λ notices. notices.start ≡ start) }
    {
        Ok(Notices {
            alloc,
            start,
            waiting: Mutex::new(HeapCircularBuffer::with_capacity(alloc, MOST_WAITING)?),
            lost: AtomicU64::new(0),
            traffic: Traffic::new(alloc)?,
            trace,
        })
    }

    /// Tells a notice. It never waits: where 1,024 wait already, or other threads keep the notices for too long, the notice is lost,
    /// which is counted.
    pub fn tell(&self, notice: Notice) {
        let is_kept = match hold(&self.waiting) {
            Some(mut waiting) => keep(&mut waiting, notice),
            None => false,
        };
        if !is_kept {
            self.lost.fetch_add(1, SeqCst);
        }
    }

    /// Takes the notice that was told first. `None` where none waits, or where other threads keep the notices for too long.
    pub fn take(&self) -> Option<Notice> {
        hold(&self.waiting)?.pop_front()
    }

    /// Counts octets that a line has received.
    pub(crate) fn receive(&self, line: LineNo, octets: usize) {
        self.traffic.receive(line, octets);
    }

    /// Counts octets that a line has sent.
    pub(crate) fn send(&self, line: LineNo, octets: usize) {
        self.traffic.send(line, octets);
    }

    /// The tap of a line's next connection. `None` where the line is not traced.
    pub(crate) fn tap(&self, line: LineNo) -> Option<Tap> {
        match &self.trace {
            Some(trace) => Tap::of(self.alloc, trace, line),
            None => None,
        }
    }

    /// The line with this number is gone, and another one may take the number.
    pub(crate) fn line_goes(&self, line: LineNo) {
        if let Some(trace) = &self.trace {
            trace.line_goes(line);
        }
    }

    /// How many octets the connections of all lines have received so far, and how many they have sent.
    pub fn traffic(&self) -> (u64, u64) {
        self.traffic.sums()
    }

    /// How many notices were lost since the last call.
    pub fn take_lost(&self) -> u64 {
        self.lost.swap(0, SeqCst)
    }
}

/// Puts a notice behind those that wait, if there is room. Whether there was.
fn keep(waiting: &mut HeapCircularBuffer<Notice>, notice: Notice) -> bool
    ensures room { IsTrue result ↔ (length waiting.old.items < waiting.old.capacity) }
    ensures kept { OnTrue result (waiting.new.items ≡ waiting.old.items ++ notice ∷ []) }
    ensures lost { OnFalse result (waiting.new.items ≡ waiting.old.items) }
{
    waiting.fill_from_slice(&[notice]) == 1
}
