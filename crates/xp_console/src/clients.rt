//! The connections of the console's clients.

ghost use Rattle.std.specs.Prelude.{◌≡◌, [], IfOk, OnErr, length, map};
ghost use Rattle.xp_console.specs.Clients.{Admits, IsAnswered, KeepsYoung};

use crate::client::{Client, Look};
use crate::client_stream::ClientStream;
use http_server::Service;
use std::alloc::{AllocError, Global};
use std::hash::RandomState;
use std::marker::Model;

/// How many connections there are at most.
pub const MOST_CLIENTS: usize = 32;

/// How long a connection lasts at most, in milliseconds.
pub const LONGEST: u64 = 10_000;

/// The connections of the console's clients, at most 32. Contracts see at which moments they end, in milliseconds.
#[derive(Drop)]
pub struct Clients<T> {
    alloc: Global,
    keys: RandomState,
    clients: Vec<Client<T>>,
}

impl<T> Model for Clients<T> {
    ghost use Rattle.std.specs.Prelude.{ℕ, ◌≤◌, List, length, map};

    ghost Value = { List ℕ };

    ghost view = { λ clients. map (λ client. client.ends) clients.clients.items };

    ghost invariant = { λ clients. length clients.clients.items ≤ 32 };
}

impl<T: ClientStream> Clients<T> {
    /// No connections yet. Clients choose the names of header fields, so the keys of their maps are to be secret.
    pub fn new(alloc: Global, keys: RandomState) -> Clients<T>
        ensures { result ≡ [] }
    {
        Clients {
            alloc,
            keys,
            clients: Vec::new(alloc),
        }
    }

    /// How many connections there are.
    pub fn count(&self) -> usize
        ensures { result ≡ length self.now }
    {
        self.clients.len()
    }

    /// Takes a connection that began at this moment. Whether there was room: where there are 32 already, it is closed.
    ///
    /// # Errors
    ///
    /// `AllocError` if an allocation fails. The connection is closed then.
    pub fn admit(&mut self, stream: T, moment: u64) -> Result<bool, AllocError>
        ensures ok { IfOk result (λ taken. Admits self.old moment taken self.new) }
        ensures err { OnErr result (self.new ≡ self.old) }
    {
        if self.clients.len() >= MOST_CLIENTS {
            return Ok(false);
        }
        self.clients.reserve(1)?;
        let ends = moment.saturating_add(LONGEST);
        self.clients
            .push_reserved(Client::new(self.alloc, self.keys, stream, ends));
        Ok(true)
    }

    /// Looks at each connection once: it answers what has come by the service, as far as that goes without waiting. It closes
    /// those that are over, or have come to their end. Whether there is more to do at once.
    pub fn look<S: Service>(&mut self, service: &mut S, moment: u64) -> bool
        ensures kept { KeepsYoung self.old moment self.new }
        ensures answered { IsAnswered S.answers service.old service.new }
    {
        look_at_all(&mut self.clients, service, moment)
    }
}

fn look_at_all<T: ClientStream, S: Service>(
    clients: &mut Vec<Client<T>>,
    service: &mut S,
    moment: u64,
) -> bool
    ensures kept { KeepsYoung (map (λ client. client.ends) clients.old.items) moment (map (λ client. client.ends) clients.new.items) }
    ensures answered { IsAnswered S.answers service.old service.new }
{
    let mut more = false;
    let mut place = 0;
    while place < clients.len() {
        match clients[place].look(service, moment) {
            Look::Over => drop(clients.remove(place)),
            Look::Waits => place += 1,
            Look::Goes => {
                more = true;
                place += 1;
            }
        }
    }
    more
}
