//! Moves the lines of the subscriptions to other places.
ghost use Rattle.std.specs.Prelude.{◌≡◌, map, option_map};
ghost use Rattle.xp_subs.specs.Laid.{station_with};
ghost use Rattle.xp_subs.specs.steps.Moved.{IsMoved, moved_tables, moved_target};
ghost use Rattle.xp_subs.specs.steps.Places.{number_at};

use crate::LineNo;
use crate::limits::MOST_LINES_OF_STATION;
use crate::line::Line;
use crate::station::Station;
use crate::subs::Subs;
use crate::target::Target;
use arrayvec::ArrayVec;
use indexmap::IndexMap;
use xp_file::Name;
use xp_packets::Digits;

impl Subs {
    /// The same with these lines. Each line stands at its place.
    pub(crate) fn moved(mut self, lines: Vec<Line>, places: &[LineNo]) -> Subs
        requires { IsMoved (number_at places.now) self (moved_tables (number_at places.now) self lines.items) }
        ensures { result ≡ moved_tables (number_at places.now) self lines.items }
    {
        move_stations(&mut self.stations, places);
        move_targets(&mut self.targets, places);
        move_names(&mut self.names, places);
        self.lines = lines;
        self
    }
}

fn move_stations(stations: &mut [Station], places: &[LineNo])
    ensures { stations.new ≡ map (station_with (number_at places.now)) stations.old }
{
    for station in stations.iter_mut() {
        station.lines = moved_lines(&station.lines, places);
    }
}

fn moved_lines(
    lines: &ArrayVec<LineNo, MOST_LINES_OF_STATION>,
    places: &[LineNo],
) -> ArrayVec<LineNo, MOST_LINES_OF_STATION>
    ensures { result.items ≡ map (number_at places.now) lines.now.items }
{
    let mut moved = ArrayVec::new();
    for line in lines.as_slice() {
        moved.push(place_of(*line, places));
    }
    moved
}

fn place_of(line: LineNo, places: &[LineNo]) -> LineNo
    ensures { result ≡ number_at places.now line }
{
    places.get(usize::from(line)).copied().unwrap_or(0)
}

fn move_targets(targets: &mut IndexMap<Digits, Target>, places: &[LineNo])
    ensures { targets.new.entries ≡ map (λ entry. (entry.0, moved_target (number_at places.now) entry.1)) targets.old.entries }
{
    targets.retain(|_address, target| {
        *target = moved_target(*target, places);
        true
    });
}

fn moved_target(target: Target, places: &[LineNo]) -> Target
    ensures { result ≡ moved_target (number_at places.now) target }
{
    Target {
        station: target.station,
        line: target.line.map(|line| place_of(line, places)),
    }
}

fn move_names(names: &mut IndexMap<Name, LineNo>, places: &[LineNo])
    ensures { names.new.entries ≡ map (λ entry. (entry.0, number_at places.now entry.1)) names.old.entries }
{
    names.retain(|_name, line| {
        *line = place_of(*line, places);
        true
    });
}
