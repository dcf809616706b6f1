//! The addresses, names and ports of a subscription file. None of them may be used twice.
ghost use Rattle.std.specs.Prelude.{◌≡◌, ◌≢◌, ◌+◌, ◌≤◌, Ok, Err, OnOk, IfErr, length};
ghost use Rattle.xp_file.specs.declared.fault.SubscriptionFault.TheVariants.{Memory as OutOfMemory};

use crate::target::Target;
use crate::{LineNo, StationNo};
use indexmap::{IndexMap, IndexSet};
use std::alloc::Global;
use std::marker::Model;
use xp_file::{Access, Key, LineEntry, Name, StationEntry, SubscriptionFault};
use xp_packets::Digits;

/// The values that are used so far.
#[derive(Drop)]
pub(crate) struct UsedValues {
    pub(crate) targets: IndexMap<Digits, Target>,
    pub(crate) names: IndexMap<Name, LineNo>,
    ports: IndexSet<u16>,
}

impl Model for UsedValues {
    ghost use Rattle.xp_subs.specs.steps.Passes.{Used};

    ghost Value = { Used };

    ghost view = { λ uses. record {
      targets = uses.targets.entries;
      names = uses.names.entries;
      ports = uses.ports.keys;
    } };
}

impl UsedValues {
    ghost use Rattle.xp_subs.specs.Bounds.{most_lines};
    ghost use Rattle.xp_subs.specs.steps.WithinLimits.{AreWithinLimits};
    ghost use Rattle.xp_subs.specs.steps.Passes.{with_address, with_name, with_names, with_port, with_access, with_ports, with_own, with_addresses, with_station, with_stations, nothing_used};

    /// No value.
    pub(crate) fn new(alloc: Global) -> UsedValues
        ensures { result ≡ nothing_used }
    {
        UsedValues {
            targets: IndexMap::new(alloc),
            names: IndexMap::new(alloc),
            ports: IndexSet::new(alloc),
        }
    }

    fn enter_address(&mut self, address: &Digits, target: Target) -> Result<(), SubscriptionFault>
        ensures ok { OnOk result (with_address target address.now self.old ≡ Ok self.new) }
        ensures refused { IfErr result (λ fault. fault ≢ OutOfMemory → with_address target address.now self.old ≡ Err fault) }
    {
        if self.targets.insert(address.copy(), target)?.is_some() {
            return Err(SubscriptionFault::TwiceUsed(Key::Address));
        }
        Ok(())
    }

    fn enter_name(&mut self, name: &Name, line: LineNo) -> Result<(), SubscriptionFault>
        ensures ok { OnOk result (with_name line name.now self.old ≡ Ok self.new) }
        ensures refused { IfErr result (λ fault. fault ≢ OutOfMemory → with_name line name.now self.old ≡ Err fault) }
    {
        if self.names.insert(name.copy(), line)?.is_some() {
            return Err(SubscriptionFault::TwiceUsed(Key::Name));
        }
        Ok(())
    }

    fn enter_port(&mut self, port: u16) -> Result<(), SubscriptionFault>
        ensures ok { OnOk result (with_port port self.old ≡ Ok self.new) }
        ensures refused { IfErr result (λ fault. fault ≢ OutOfMemory → with_port port self.old ≡ Err fault) }
    {
        if !self.ports.insert(port)? {
            return Err(SubscriptionFault::TwiceUsed(Key::Port));
        }
        Ok(())
    }

    fn enter_access(&mut self, access: &Access) -> Result<(), SubscriptionFault>
        ensures ok { OnOk result (with_access access.now self.old ≡ Ok self.new) }
        ensures refused { IfErr result (λ fault. fault ≢ OutOfMemory → with_access access.now self.old ≡ Err fault) }
    {
        match access {
            Access::Port(port) => self.enter_port(*port),
            Access::Router(_) | Access::Spare => Ok(()),
        }
    }

    fn enter_names(&mut self, first: LineNo, lines: &[LineEntry]) -> Result<(), SubscriptionFault>
        requires { first + length lines.now ≤ most_lines }
        ensures ok { OnOk result (with_names first lines.now self.old ≡ Ok self.new) }
        ensures refused { IfErr result (λ fault. fault ≢ OutOfMemory → with_names first lines.now self.old ≡ Err fault) }
    {
        let mut line = first;
        for entry in lines {
            self.enter_name(&entry.name, line)?;
            line += 1;
        }
        Ok(())
    }

    fn enter_ports(&mut self, lines: &[LineEntry]) -> Result<(), SubscriptionFault>
        ensures ok { OnOk result (with_ports lines.now self.old ≡ Ok self.new) }
        ensures refused { IfErr result (λ fault. fault ≢ OutOfMemory → with_ports lines.now self.old ≡ Err fault) }
    {
        for entry in lines {
            self.enter_access(&entry.access)?;
        }
        Ok(())
    }

    fn enter_addresses(
        &mut self,
        station: StationNo,
        first: LineNo,
        lines: &[LineEntry],
    ) -> Result<(), SubscriptionFault>
        requires { first + length lines.now ≤ most_lines }
        ensures ok { OnOk result (with_addresses station first lines.now self.old ≡ Ok self.new) }
        ensures refused { IfErr result (λ fault. fault ≢ OutOfMemory → with_addresses station first lines.now self.old ≡ Err fault) }
    {
        let mut line = first;
        for entry in lines {
            self.enter_own(station, line, &entry.address)?;
            line += 1;
        }
        Ok(())
    }

    fn enter_own(
        &mut self,
        station: StationNo,
        line: LineNo,
        address: &Option<Digits>,
    ) -> Result<(), SubscriptionFault>
        ensures ok { OnOk result (with_own station line address.now self.old ≡ Ok self.new) }
        ensures refused { IfErr result (λ fault. fault ≢ OutOfMemory → with_own station line address.now self.old ≡ Err fault) }
    {
        match address {
            Some(address) => {
                let target = Target {
                    station,
                    line: Some(line),
                };
                self.enter_address(address, target)
            }
            None => Ok(()),
        }
    }

    #[tactic(auto, unfolding(crate::specs::steps::Passes::with_station))]
    fn enter_station(
        &mut self,
        number: StationNo,
        first: LineNo,
        station: &StationEntry,
    ) -> Result<(), SubscriptionFault>
        requires { first + length station.now.lines ≤ most_lines }
        ensures ok { OnOk result (with_station number first station.now self.old ≡ Ok self.new) }
        ensures refused { IfErr result (λ fault. fault ≢ OutOfMemory → with_station number first station.now self.old ≡ Err fault) }
    {
        let whole = Target {
            station: number,
            line: None,
        };
        self.enter_address(&station.address, whole)?;
        self.enter_names(first, &station.lines)?;
        self.enter_ports(&station.lines)?;
        self.enter_addresses(number, first, &station.lines)
    }

    /// Enters the values that the stations use. Stops at the first address, name or port that is used twice.
    pub(crate) fn enter_stations(
        &mut self,
        stations: &[StationEntry],
    ) -> Result<(), SubscriptionFault>
        requires { AreWithinLimits stations.now }
        ensures ok { OnOk result (with_stations 0 0 stations.now self.old ≡ Ok self.new) }
        ensures refused { IfErr result (λ fault. fault ≢ OutOfMemory → with_stations 0 0 stations.now self.old ≡ Err fault) }
    {
        let mut number = 0;
        let mut line = 0;
        for station in stations {
            self.enter_station(number, line, station)?;
            number += 1;
            line += station.lines.len() as LineNo;
        }
        Ok(())
    }
}
