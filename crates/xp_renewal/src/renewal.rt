//! How other subscriptions come into force while the exchange serves.

ghost use Rattle.std.specs.Prelude.{◌≡◌, IfOk, Some, option_map};
ghost use Rattle.xp_subs.specs.Tables.{Tables, line_count};

use crate::not_read::NotRead;
use crate::subscription_file::{ReadSubs, SubscriptionFile};
use crate::telling::{reason_told, text_of};
use std::alloc::{AllocGlobal, Global};
use std::fs::{File, Files};
use std::net::{Net, TcpListener, TcpStream};
use std::sync::{Arc, Wait};
use xp_listening::{NextPorts, prepare};
use xp_serve::{OfferedSubs, SubsSource};
use xp_sink::NotInForce;
use xp_subs::Subs;
use xp_tcp::LinePlaces;

/// How other subscriptions come into force while the exchange serves: their file, and the places of the lines, whose ports and routers
/// follow them. The file is read by `F`, and ports are listened on by `R`.
pub struct Renewal<F, R> {
    file: SubscriptionFile<F>,
    rt: R,
    places: Arc<LinePlaces>,
    /// What was read last, until it is known what became of it.
    read: Option<PreparedSubs>,
}

/// Subscriptions that were read, and the ports that are listened on for them.
#[derive(Drop)]
struct PreparedSubs {
    read: ReadSubs,
    ports: NextPorts,
}

impl<F: Drop, R: Drop> Drop for Renewal<F, R> {
    fn drop(self) {
        let Renewal {
            file: _,
            rt: _,
            places: _,
            read: _,
        } = self;
    }
}

impl<F, R> Renewal<F, R> {
    /// The renewal of lines at these places from this file.
    pub fn new(file: SubscriptionFile<F>, rt: R, places: Arc<LinePlaces>) -> Renewal<F, R>
        ensures { result.file ≡ file }
    {
        Renewal {
            file,
            rt,
            places,
            read: None,
        }
    }
}

impl<
    F: AllocGlobal + Drop + Files<File = File>,
    R: Drop + Net<Listener = TcpListener, Stream = TcpStream> + Wait,
> Renewal<F, R> {
    /// Reads the file once for each who needs it, and listens on the ports that its lines need besides.
    fn read_each(&mut self, alloc: Global, moment: u64) -> Result<OfferedSubs, NotRead>
        ensures next { IfOk result (λ offered. option_map (λ prepared. prepared.read.subs) self.new.read ≡ Some offered.next.subs) }
        ensures names { IfOk result (λ offered. offered.names ≡ offered.next.subs) }
        ensures live { IfOk result (λ offered. offered.live ≡ Some offered.next.subs) }
        ensures in_force { self.new.file ≡ self.old.file }
    {
        // What is left of a read before is let go first: it may hold ports.
        self.read = None;
        let text = self.file.text();
        let read = self.file.read(alloc, &text)?;
        let offered = self.file.copies(alloc, &text, &read, moment)?;
        let prepared = self.prepared(alloc, read)?;
        self.read = Some(prepared);
        Ok(offered)
    }

    /// These subscriptions, with the ports that their lines need besides.
    fn prepared(&self, alloc: Global, read: ReadSubs) -> Result<PreparedSubs, NotRead>
        requires { line_count read.subs ≡ line_count self.now.file.in_force }
        ensures { IfOk result (λ prepared. prepared.read ≡ read) }
    {
        let in_force = &self.file.in_force;
        let ports = prepare(&self.rt, alloc, &self.places, in_force, &read.subs)?;
        Ok(PreparedSubs { read, ports })
    }
}

impl<
    F: AllocGlobal + Drop + Files<File = File>,
    R: Drop + Net<Listener = TcpListener, Stream = TcpStream> + Wait,
> SubsSource for Renewal<F, R> {
    ghost use Rattle.std.specs.Prelude.{◌≡◌, Some, option_map};

    ghost in_force = { λ renewal. renewal.file.in_force };

    ghost has_read = { λ renewal next. option_map (λ prepared. prepared.read.subs) renewal.read ≡ Some next };

    fn read(&mut self, alloc: Global, moment: u64) -> Result<OfferedSubs, String> {
        match self.read_each(alloc, moment) {
            Ok(offered) => Ok(offered),
            Err(why) => Err(text_of(alloc, &why)),
        }
    }

    fn let_go(&mut self) {
        if let Some(prepared) = &mut self.read {
            prepared.ports.close_old(&self.rt);
        }
    }

    fn take_note(
        &mut self,
        alloc: Global,
        outcome: Result<(), NotInForce>,
    ) -> Result<String, String> {
        let read = self.read.take();
        match outcome {
            Ok(()) => Ok(self.put_into_force(alloc, read)),
            Err(why) => Err(reason_told(alloc, &self.file.in_force, why)),
        }
    }

    fn subs(&self) -> &Subs {
        &self.file.in_force
    }
}

impl<F, R: Wait> Renewal<F, R> {
    /// Takes note that these are in force, gives their lines the ports, and returns what is told of them.
    fn put_into_force(&mut self, alloc: Global, prepared: Option<PreparedSubs>) -> String
        ensures { (next : Tables) → option_map (λ prepared. prepared.read.subs) prepared ≡ Some next → self.new.file.in_force ≡ next }
    {
        let Some(PreparedSubs { read, ports }) = prepared else {
            return String::new(alloc);
        };
        let ReadSubs { subs, told } = read;
        self.file.in_force = subs;
        ports.put(&self.rt);
        told
    }
}
