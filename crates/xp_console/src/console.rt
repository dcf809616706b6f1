//! The console: its listening socket, and the thread that serves its clients.

ghost use Rattle.std.specs.Prelude.{◌≡◌, ◌<◌, IfOk};
ghost use Rattle.std.specs.Net.Socket.{socket_port};
ghost use Rattle.xp_console.specs.Clients.{IsAnswered};
ghost use Rattle.xp_console.specs.declared.console.ConsoleFault.TheVariants.{Address as NoAddress, Memory as OutOfMemory};

use crate::clients::Clients;
use http_server::Service;
use mio::net::{TcpListener, TcpStream};
use mio::{Events, Interest, Poll, Token};
use std::alloc::{AllocError, Global};
use std::hash::RandomState;
use std::io;
use std::io::ErrorKind;
use std::marker::Model;
use std::net::{Net, SocketAddr};
use std::random::RandomSource;
use std::sync::atomic::AtomicBool;
use std::sync::atomic::Ordering::SeqCst;
use std::time::{Clock, Duration};
use thiserror::Error;

/// Names the listening socket and the connections among what is waited for. Which of them has something is not looked at: each
/// turn tries all, of which there are few.
const ANY: Token = Token(0);

/// How many events a wait takes.
const MOST_EVENTS: usize = 64;

/// How long a wait lasts at most, in milliseconds.
const LONGEST_WAIT: u64 = 500;

/// How many connections are taken in one turn.
const MOST_TAKEN: u32 = 64;

/// Why the console can't be served.
#[derive(Clone, Copy, Debug, Drop, Error)]
pub enum ConsoleFault {
    /// Its address can't be listened on.
    #[error("the console's address can't be listened on")]
    Address,
    /// The system fails to tell the time, or what has come.
    #[error("the system fails")]
    System,
    #[error("out of memory")]
    Memory,
}

impl From<AllocError> for ConsoleFault {
    ghost from_gives = { λ _ fault. fault ≡ OutOfMemory };

    fn from(_refused: AllocError) -> ConsoleFault {
        ConsoleFault::Memory
    }
}

/// The listening socket of the console, with the connections of its clients. Contracts see its address.
#[derive(Drop)]
pub struct Console {
    poll: Poll,
    events: Events,
    listener: TcpListener,
    address: SocketAddr,
    clients: Clients<TcpStream>,
    /// More may have come than the last turn has looked at.
    has_more: bool,
}

impl Model for Console {
    ghost use Rattle.std.specs.declared.net.socket_addr.SocketAddr.{SocketAddr};

    ghost Value = { SocketAddr };

    ghost view = { λ console. console.address };
}

impl Console {
    /// Listens at an address of the machine. At port 0 the system picks one.
    ///
    /// # Errors
    ///
    /// `Address` where the address can't be had, `System`, `Memory`.
    pub fn listen<R: Net + RandomSource>(
        rt: &R,
        alloc: Global,
        address: SocketAddr,
    ) -> Result<Console, ConsoleFault>
        ensures { IfOk result (λ console. 0 < socket_port address → console ≡ address) }
    {
        let events = Events::with_capacity(alloc, MOST_EVENTS)?;
        let Ok(keys) = RandomState::new(rt) else {
            return Err(ConsoleFault::System);
        };
        let Ok((poll, listener, address)) = open(rt, address) else {
            return Err(ConsoleFault::Address);
        };
        Ok(Console {
            poll,
            events,
            listener,
            address,
            clients: Clients::new(alloc, keys),
            has_more: false,
        })
    }

    /// The address at which the console listens.
    pub fn address(&self) -> SocketAddr
        ensures { result ≡ self.now }
    {
        self.address
    }

    /// Serves clients until the flag is set, at which it looks each half second.
    ///
    /// # Errors
    ///
    /// `System`.
    pub fn run<R: Clock, S: Service>(
        &mut self,
        rt: &R,
        service: &mut S,
        stop: &AtomicBool,
    ) -> Result<(), ConsoleFault>
        ensures answered { IsAnswered S.answers service.old service.new }
        ensures same { self.new ≡ self.old }
    {
        // A loop is proved to end, so this one counts its turns.
        for _turn in 0..u64::MAX {
            if stop.load(SeqCst) {
                break;
            }
            self.turn(rt, service)?;
        }
        Ok(())
    }

    /// Waits half a second at most for something to come, and answers what has come by the service.
    ///
    /// # Errors
    ///
    /// `System`.
    #[tactic(auto, using(crate::proofs::Answered::none_answered))]
    pub fn turn<R: Clock, S: Service>(
        &mut self,
        rt: &R,
        service: &mut S,
    ) -> Result<(), ConsoleFault>
        ensures answered { IsAnswered S.answers service.old service.new }
        ensures same { self.new ≡ self.old }
    {
        let wait = if self.has_more { 0 } else { LONGEST_WAIT };
        let most = Some(Duration::from_millis(wait));
        if self.poll.poll(&mut self.events, most).is_err() {
            return Err(ConsoleFault::System);
        }
        let Ok(uptime) = rt.monotonic() else {
            return Err(ConsoleFault::System);
        };
        let moment = u64::try_from(uptime.as_millis()).unwrap_or(u64::MAX);
        let taken_all = self.take_clients(moment);
        let answered_all = !self.clients.look(service, moment);
        self.has_more = !(taken_all && answered_all);
        Ok(())
    }

    /// Takes the connections that wait. Whether it took all.
    fn take_clients(&mut self, moment: u64) -> bool
        ensures { self.new ≡ self.old }
    {
        for _taken in 0..MOST_TAKEN {
            match self.listener.accept() {
                Ok((stream, _peer)) => self.take_client(stream, moment),
                Err(error) if error.kind() == ErrorKind::ConnectionAborted => {}
                // There are no more, or no more can be had now.
                Err(_) => return true,
            }
        }
        false
    }

    /// Takes a connection. Where there are 32 already, or memory is wanting, it is closed.
    fn take_client(&mut self, mut stream: TcpStream, moment: u64)
        ensures { self.new ≡ self.old }
    {
        let interest = Interest::READABLE | Interest::WRITABLE;
        let waits = self.poll.registry();
        if waits.register(&mut stream, ANY, interest).is_ok() {
            let _ = self.clients.admit(stream, moment);
        }
    }
}

/// Listens at an address, with what waits for it.
fn open<R: Net>(rt: &R, address: SocketAddr) -> io::Result<(Poll, TcpListener, SocketAddr)>
    ensures { IfOk result (λ opened. 0 < socket_port address → opened.2 ≡ address) }
{
    let mut listener = TcpListener::bind(rt, address)?;
    let address = match address.port() {
        0 => listener.local_addr()?,
        _ => address,
    };
    let poll = Poll::new(rt)?;
    poll.registry()
        .register(&mut listener, ANY, Interest::READABLE)?;
    Ok((poll, listener, address))
}
