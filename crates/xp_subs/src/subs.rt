ghost use Rattle.std.specs.Prelude.{◌≡◌, ◌<◌, false, IfSome, option_map, slice_get};
ghost use Rattle.xp_subs.specs.Sound.{IsSound, IsTarget};
ghost use Rattle.xp_subs.specs.Tables.{line_count, station_count, group_count, station_at, line_at, is_spare, IsThere, station_of, address_of, modulus_of, target_of, line_named_of, has_routers};

use crate::line::Line;
use crate::station::Station;
use crate::target::{Counts, Target};
use crate::{GroupNo, LineNo, StationNo};
use indexmap::{IndexMap, IndexSet};
use std::marker::Model;
use xp_file::{Access, Name, Sources};
use xp_packets::{Digits, Modulus};

/// The subscriptions of an exchange: its stations, with their lines, facilities and groups.
pub struct Subs {
    pub(crate) stations: Vec<Station>,
    pub(crate) lines: Vec<Line>,
    pub(crate) groups: IndexSet<Name>,
    pub(crate) segment_limit: u32,
    pub(crate) journal: u64,
    pub(crate) host: String,
    pub(crate) xot_port: u16,
    pub(crate) name: Option<Name>,
    pub(crate) targets: IndexMap<Digits, Target>,
    pub(crate) names: IndexMap<Name, LineNo>,
    /// The result for the number of a station that does not exist.
    pub(crate) nobody: Station,
}

impl Drop for Subs {
    fn drop(self) {
        let Subs {
            stations: _,
            lines: _,
            groups: _,
            segment_limit: _,
            journal: _,
            host: _,
            xot_port: _,
            name: _,
            targets: _,
            names: _,
            nobody: _,
        } = self;
    }
}

impl Model for Subs {
    ghost use Rattle.xp_subs.specs.Consistency.{tables};
    ghost use Rattle.xp_subs.specs.steps.Consistency.{IsConsistent};
    ghost use Rattle.xp_subs.specs.Tables.{Tables};

    ghost Value = { Tables };

    ghost view = { tables };

    ghost invariant = { IsConsistent };
}

impl Subs {
    /// The station or the line with this address.
    pub fn find(&self, address: &Digits) -> Option<Target>
        ensures found { result ≡ target_of self.now address.now }
        ensures target { IfSome result (IsTarget self.now) }
    {
        self.targets.get(address).copied()
    }

    /// The line with this name.
    pub fn line_named(&self, name: &str) -> Option<LineNo>
        ensures found { result ≡ line_named_of self.now name.now }
        ensures line { IfSome result (λ line. line < line_count self.now) }
        ensures there { IfSome result (λ line. is_spare (line_at self.now line) ≡ false) }
    {
        self.names.get(&Name::of_line(name)?).copied()
    }

    /// The station with this number. For a number that no station has, as that of a place without a line, one that has no
    /// address and no lines and that calls neither leave nor reach.
    pub fn station(&self, station: StationNo) -> &Station
        ensures { result.now ≡ station_at self.now station }
    {
        self.stations
            .get(usize::from(station))
            .unwrap_or(&self.nobody)
    }

    /// The line with this number, or the place that is kept for one.
    pub fn line(&self, line: LineNo) -> &Line
        requires { line < line_count self.now }
        ensures line { result.now ≡ line_at self.now line }
        ensures placed { IsThere self.now line → station_of self.now line < station_count self.now }
    {
        &self.lines[usize::from(line)]
    }

    /// Whether there is no line at this place.
    pub fn is_spare(&self, line: LineNo) -> bool
        requires { line < line_count self.now }
        ensures { result ≡ is_spare (line_at self.now line) }
    {
        self.line(line).is_spare()
    }

    /// The number of a line's station. For a place without a line, a number that no station has.
    pub fn station_of(&self, line: LineNo) -> StationNo
        requires { line < line_count self.now }
        ensures station { result ≡ station_of self.now line }
        ensures range { IsThere self.now line → result < station_count self.now }
    {
        self.line(line).station
    }

    /// The line's own address if it has one, otherwise its station's.
    pub fn address_of(&self, line: LineNo) -> &Digits
        requires { line < line_count self.now }
        ensures { result.now ≡ address_of self.now line }
    {
        let line = self.line(line);
        match &line.address {
            Some(address) => address,
            None => &self.station(line.station).address,
        }
    }

    /// The name of a line.
    pub fn name_of(&self, line: LineNo) -> &str
        requires { line < line_count self.now }
        ensures { result.now ≡ (line_at self.now line).name }
    {
        self.line(line).name.as_str()
    }

    /// The name of a closed user group. `None` for a number that no group has.
    pub fn group_name(&self, group: GroupNo) -> Option<&str>
        ensures { option_map (λ name. name.now) result ≡ slice_get self.now.groups group }
    {
        let name = self.groups.get_index(group as usize)?;
        Some(name.as_str())
    }

    /// The port or the router of a line.
    pub fn access_of(&self, line: LineNo) -> &Access
        requires { line < line_count self.now }
        ensures { result.now ≡ (line_at self.now line).access }
    {
        &self.line(line).access
    }

    /// The addresses from which the connections of a line may come, 1 to 8; none where any address may.
    pub fn sources_of(&self, line: LineNo) -> &Sources
        requires { line < line_count self.now }
        ensures { result.now ≡ (line_at self.now line).from }
    {
        &self.line(line).from
    }

    /// The modulus of a line's packet numbers.
    pub fn modulus_of(&self, line: LineNo) -> Modulus
        requires { line < line_count self.now }
        ensures { result ≡ modulus_of self.now line }
    {
        self.line(line).modulus
    }

    /// The number of stations, lines and groups. The contract also says what holds of all subscriptions.
    pub fn counts(&self) -> Counts
        ensures stations { result.stations ≡ station_count self.now }
        ensures lines { result.lines ≡ line_count self.now }
        ensures groups { result.groups ≡ group_count self.now }
        ensures sound { IsSound self.now }
    {
        Counts {
            stations: self.stations.len(),
            lines: self.lines.len(),
            groups: self.groups.len(),
        }
    }

    /// The most segments that a call may have in one direction, 1 to 99,999,999.
    pub fn segment_limit(&self) -> u32
        ensures { result ≡ self.now.segment_limit }
    {
        self.segment_limit
    }

    /// The most entries that the history may have, 4 to 10,000,000. If the file sets no limit, it is 2^59, which no history
    /// reaches.
    pub fn journal(&self) -> u64
        ensures { result ≡ self.now.journal }
    {
        self.journal
    }

    /// The host on whose ports the exchange listens.
    pub fn host(&self) -> &str
        ensures { result.now ≡ self.now.host }
    {
        self.host.as_str()
    }

    /// The port at which the exchange listens for XOT routers, 1 to 65,535, if a line is behind one.
    pub fn xot_port(&self) -> u16
        ensures { result ≡ self.now.xot_port }
    {
        self.xot_port
    }

    /// The name of the exchange, 1 to 16 letters and digits. `None` where the file gives it none.
    pub fn exchange_name(&self) -> Option<&str>
        ensures { option_map (λ name. name.now) result ≡ self.now.name }
    {
        match &self.name {
            Some(name) => Some(name.as_str()),
            None => None,
        }
    }

    /// Whether a line is behind an XOT router.
    pub fn has_routers(&self) -> bool
        ensures { result ≡ has_routers self.now }
    {
        self.lines.iter().any(|line| line.has_router())
    }
}
