//! How lines and stations are named by subscriptions.

ghost use Rattle.std.specs.Prelude.{◌≡◌, IfOk, map};
ghost use Rattle.xp_observer.specs.Shown.{names_in, names_of};

use crate::lines::NamedLine;
use crate::routers::Routers;
use crate::stations::Stations;
use std::alloc::{AllocError, Global};
use std::marker::Model;
use xp_subs::{LineNo, Subs};

/// The names and addresses of lines, their routers, and the addresses of stations, by subscriptions. Contracts see how the lines are named.
#[derive(Drop)]
pub struct Naming {
    pub(crate) lines: Vec<NamedLine>,
    pub(crate) stations: Stations,
    pub(crate) routers: Routers,
}

impl Model for Naming {
    ghost use Rattle.std.specs.Prelude.{List, map};
    ghost use Rattle.xp_observer.specs.Shown.{LineNames, names_in};

    ghost Value = { List LineNames };

    ghost view = { λ naming. map names_in naming.lines.items };
}

impl Naming {
    /// How these subscriptions name lines and stations.
    ///
    /// # Errors
    ///
    /// `AllocError` if an allocation fails.
    pub fn of(alloc: Global, subs: &Subs) -> Result<Naming, AllocError>
        ensures { IfOk result (λ naming. naming ≡ names_of subs.now) }
    {
        let stations = Stations::new(alloc, subs)?;
        let routers = Routers::new(alloc, subs)?;
        let lines = named_lines(alloc, subs)?;
        Ok(Naming {
            lines,
            stations,
            routers,
        })
    }
}

/// The lines of these subscriptions, by their places. A spare place has no name and no address.
pub(crate) fn named_lines(alloc: Global, subs: &Subs) -> Result<Vec<NamedLine>, AllocError>
    ensures { IfOk result (λ lines. map names_in lines.items ≡ names_of subs.now) }
{
    let count = subs.counts().lines;
    let mut lines = Vec::with_capacity(alloc, count)?;
    for place in 0..count {
        let number = place as LineNo;
        let line = subs.line(number);
        let named = NamedLine {
            name: line.name.copy(),
            address: subs.address_of(number).copy(),
            station: subs.station(line.station).address.copy(),
        };
        lines.push(named)?;
    }
    Ok(lines)
}
