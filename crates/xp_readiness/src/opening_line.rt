//! The first line of the log of a run: what is served, and where.

use std::alloc::{AllocError, Global};
use std::fmt::Write;
use xp_arguments::{DetailsOrder, ServeOrder};
use xp_subs::{Access, LineNo, Subs};
use xp_summary::spare_count;

/// The ports of lines that have one of their own.
#[derive(Clone, Copy, Default)]
struct OwnPorts {
    count: usize,
    lowest: u16,
    highest: u16,
}

impl OwnPorts {
    /// Those of these subscriptions.
    fn of(subs: &Subs) -> OwnPorts {
        let mut ports = OwnPorts::default();
        for line in 0..subs.counts().lines {
            if let Access::Port(port) = subs.access_of(line as LineNo) {
                ports.add(*port);
            }
        }
        ports
    }

    fn add(&mut self, port: u16) {
        if self.count == 0 {
            self.lowest = port;
        }
        self.count = self.count.saturating_add(1);
        self.lowest = self.lowest.min(port);
        self.highest = self.highest.max(port);
    }
}

/// What is served, and where, such as `serving 5 lines at 127.0.0.1, on ports 19981 to 19985, 2 spare lines; records in calls.csv`.
pub fn opening(alloc: Global, order: &ServeOrder<'_>, subs: &Subs) -> Result<String, AllocError> {
    let mut told = String::new(alloc);
    push_ports(&mut told, subs)?;
    push_spare(&mut told, subs)?;
    push_outputs(&mut told, order)?;
    Ok(told)
}

/// Appends how many lines are served, and on which ports.
fn push_ports(told: &mut String, subs: &Subs) -> Result<(), AllocError> {
    let lines = subs.counts().lines.saturating_sub(spare_count(subs));
    let noun = noun_for(lines);
    write!(told, "serving {lines} {noun} at {}", subs.host())?;
    let ports = OwnPorts::of(subs);
    match ports.count {
        0 => {}
        1 => write!(told, ", on port {}", ports.lowest)?,
        _ => write!(told, ", on ports {} to {}", ports.lowest, ports.highest)?,
    }
    if subs.has_routers() {
        write!(told, ", routers on port {}", subs.xot_port())?;
    }
    Ok(())
}

/// Appends how many places are spare, if any are.
fn push_spare(told: &mut String, subs: &Subs) -> Result<(), AllocError> {
    let spare = spare_count(subs);
    if spare > 0 {
        write!(told, ", {spare} spare {}", noun_for(spare))?;
    }
    Ok(())
}

/// What so many lines are called.
fn noun_for(count: usize) -> &'static str {
    if count == 1 { "line" } else { "lines" }
}

/// Appends where the records go, and where the console is.
fn push_outputs(told: &mut String, order: &ServeOrder<'_>) -> Result<(), AllocError> {
    match order.details {
        Some(DetailsOrder::File(path)) => write!(told, "; records in {path}")?,
        Some(DetailsOrder::Directory(path)) => write!(told, "; records by the day in {path}")?,
        None => told.push_str("; records on standard output")?,
    }
    if let Some(address) = order.console {
        write!(told, "; console at {address}")?;
    }
    Ok(())
}
