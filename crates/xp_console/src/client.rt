//! A client's connection.

ghost use Rattle.std.specs.Prelude.{◌≡◌};
ghost use Rattle.xp_console.specs.Clients.{IsAnswered};
ghost use Rattle.xp_console.specs.steps.Clients.{StaysYoung};

use crate::client_stream::ClientStream;
use http_server::{Config, Connection, Service};
use std::alloc::Global;
use std::hash::RandomState;
use std::io;
use std::io::ErrorKind;

/// How often a connection's octets are moved in one look at it, so that those of others are looked at too.
const MOST_MOVES: u32 = 64;

/// How many octets are dropped at once.
const PIECE: usize = 1_024;

/// What became of a connection as it was looked at.
#[derive(Clone, Copy)]
pub(crate) enum Look {
    /// Its peer has nothing more to give or takes nothing more now.
    Waits,
    /// There was more to do than one look may.
    Goes,
    /// It is over.
    Over,
}

/// A client's connection.
#[derive(Drop)]
pub(crate) struct Client<T> {
    stream: T,
    connection: Connection,
    /// All was said, and what still comes is dropped. To close the stream before its peer has read what was said could take that away.
    is_told: bool,
    /// The moment at which it ends.
    pub ends: u64,
}

impl<T: ClientStream> Client<T> {
    pub(crate) fn new(alloc: Global, keys: RandomState, stream: T, ends: u64) -> Client<T>
        ensures { result.ends ≡ ends }
    {
        Client {
            stream,
            connection: Connection::new(alloc, keys, Config::default()),
            is_told: false,
            ends,
        }
    }

    /// Moves octets, and answers by the service, as far as that goes without waiting. A connection that has come to its end is over.
    #[tactic(auto, using(crate::proofs::Young::stays_young))]
    pub(crate) fn look<S: Service>(&mut self, service: &mut S, moment: u64) -> Look
        ensures young { StaysYoung result moment self.new.ends }
        ensures ends { self.new.ends ≡ self.old.ends }
        ensures answered { IsAnswered S.answers service.old service.new }
    {
        let look = self.advance(service);
        if self.ends <= moment {
            Look::Over
        } else {
            look
        }
    }

    /// Moves octets, and answers by the service, as far as that goes without waiting.
    fn advance<S: Service>(&mut self, service: &mut S) -> Look
        ensures ends { self.new.ends ≡ self.old.ends }
        ensures answered { IsAnswered S.answers service.old service.new }
    {
        for _move in 0..MOST_MOVES {
            match self.step(service) {
                Ok(true) => {}
                Ok(false) => return Look::Over,
                Err(error) => return after(&error),
            }
        }
        Look::Goes
    }

    /// Answers what has come, and moves octets once. Whether the connection goes on.
    fn step<S: Service>(&mut self, service: &mut S) -> io::Result<bool>
        ensures ends { self.new.ends ≡ self.old.ends }
        ensures answered { IsAnswered S.answers service.old service.new }
    {
        self.connection.advance(service);
        self.move_octets()
    }

    /// Reads or writes once. Whether the connection goes on.
    fn move_octets(&mut self) -> io::Result<bool>
        ensures { self.new.ends ≡ self.old.ends }
    {
        if self.is_told {
            return Ok(self.stream.read(&mut [0; PIECE])? > 0);
        }
        if self.connection.wants_write() {
            return Ok(self.connection.write_to(&mut self.stream)? > 0);
        }
        if self.connection.is_done() {
            self.is_told = true;
            self.stream.finish()?;
            return Ok(true);
        }
        self.connection.read_from(&mut self.stream)?;
        Ok(true)
    }
}

/// What becomes of a connection after an error: some only say that a call would have had to wait.
fn after(error: &io::Error) -> Look {
    match error.kind() {
        ErrorKind::WouldBlock | ErrorKind::Interrupted => Look::Waits,
        _ => Look::Over,
    }
}
