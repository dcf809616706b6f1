//! A link to a router over which no call goes.

use std::alloc::Global;
use std::net::{Ipv4Addr, Net, SocketAddr, SocketAddrV4};
use std::num::NonZeroUsize;
use std::sync::Arc;
use std::test::Fail;
use xp_clock::Start;
use xp_links::{Arrived, Link, Port, Pushed};
use xp_packets::{Digits, Modulus};
use xp_tcp::{Caller, Ends, LinePlaces, Notices, Sockets};

/// A clear request, as a frame (RFC 1613).
const CLEAR: &[u8] = b"\x00\x00\x00\x05\x10\x01\x13\x00\x00";

/// The ends of a line behind a router.
fn ends_of<R: Net>(rt: &R, alloc: Global) -> Result<Ends, Fail> {
    let router = SocketAddr::V4(SocketAddrV4::new(Ipv4Addr::LOCALHOST, 1998));
    let notices = Arc::new(alloc, Notices::new(alloc, Start::read())?)?;
    let places = Arc::new(alloc, LinePlaces::new(notices))?;
    let mut sockets = Sockets::new(alloc, 1, NonZeroUsize::MIN, places)?;
    let caller = Caller {
        modulus: Modulus::Eight,
        station: 0,
        own_address: None,
        address: Digits::new(),
        is_default: false,
    };
    sockets.add_router(rt, router, caller)?;
    Ok(sockets.into_ends(alloc)?)
}

/// What comes of a clear request on the link of the first line.
fn pushed(ends: &mut Ends) -> Option<Pushed> {
    let line = ends.lines.first_mut()?;
    match line.port.next() {
        Arrived::Came(mut link) => Some(link.push(CLEAR)),
        _ => None,
    }
}

/// Only a call begins a connection to the router.
#[test]
fn clear_without_a_call(rt: HostRuntime) -> Result<(), Fail> {
    let mut ends = ends_of(&rt, rt.alloc())?;
    let pushed = pushed(&mut ends);
    drop(ends);
    assert!(rt; pushed == Some(Pushed::Fault));
    Ok(())
}
