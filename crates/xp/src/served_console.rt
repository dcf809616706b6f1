//! The console of the exchange that is served.

use std::alloc::{AllocGlobal, Global};
use std::net::{IpAddr, Net};
use std::random::RandomSource;
use std::sync::Wait;
use std::sync::atomic::AtomicBool;
use std::time::Clock;
use xp_commands::address_of;
use xp_console::{Console, ConsoleService};
use xp_observer::{BoardName, BoardSource, StatusBoard};
use xp_readiness::Failure;

/// A console that listens at its address.
pub(crate) struct ServedConsole {
    console: Console,
    /// The address at which it listens.
    own: IpAddr,
    alloc: Global,
}

impl Drop for ServedConsole {
    fn drop(self) {
        let ServedConsole {
            console: _,
            own: _,
            alloc: _,
        } = self;
    }
}

impl ServedConsole {
    /// Listens at this address.
    pub(crate) fn listen<R: AllocGlobal + Net + RandomSource>(
        rt: &R,
        address: &str,
    ) -> Result<ServedConsole, Failure> {
        let alloc = rt.alloc();
        let console = Console::listen(rt, alloc, address_of(alloc, address)?)?;
        Ok(ServedConsole {
            own: console.address().ip(),
            console,
            alloc,
        })
    }

    /// Serves clients until the flag is set, with what stands on the board. Where the system fails there is no console any more.
    pub(crate) fn run<B: BoardName, R: Clock + Wait>(
        self,
        rt: &R,
        board: &StatusBoard<B>,
        is_over: &AtomicBool,
    ) {
        let ServedConsole {
            console,
            own,
            alloc,
        } = self;
        let mut console = console;
        let mut service = ConsoleService {
            alloc,
            own,
            source: BoardSource::new(rt, board),
        };
        let _ = console.run(rt, &mut service, is_over);
    }
}
