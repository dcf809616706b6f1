//! The counts of the stations in Prometheus' text format.

ghost use Rattle.std.specs.Prelude.{◌≡◌, ◌++◌, OnOk, string_bytes};
ghost use Rattle.xp_console.specs.Metrics.{station_calls_sample, station_calls_text, station_direction_text, station_refusals_sample, station_refusals_text, stations_text};

use crate::metrics::{COUNTER, push_all, push_head, push_labelled, push_number};
use crate::status::StationCalls;
use crate::turns::let_others_run;
use std::alloc::AllocError;

const CALLS: &str = "gonukire_station_calls_total";

const REFUSALS: &str = "gonukire_station_refusals_total";

/// How many calls each station had, and how many of its call requests were refused.
pub(crate) fn push_stations(text: &mut String, stations: &[StationCalls]) -> Result<(), AllocError>
    ensures { OnOk result (string_bytes text.new ≡ string_bytes text.old ++ stations_text stations.now) }
{
    push_calls(text, stations)?;
    push_refusals(text, stations)
}

/// How many calls each station had, in each direction.
fn push_calls(text: &mut String, stations: &[StationCalls]) -> Result<(), AllocError>
    ensures { OnOk result (string_bytes text.new ≡ string_bytes text.old ++ station_calls_text stations.now) }
{
    let help = "Ended calls, by the station that they came from or were offered to.";
    push_head(text, CALLS, COUNTER, help)?;
    for (number, station) in stations.iter().enumerate() {
        let_others_run(number);
        push_calls_of(text, station)?;
    }
    Ok(())
}

/// How many calls a station had, in each direction.
fn push_calls_of(text: &mut String, station: &StationCalls) -> Result<(), AllocError>
    ensures { OnOk result (string_bytes text.new ≡ string_bytes text.old ++ station_calls_sample station.now) }
{
    let address = station.address.as_str();
    push_direction(text, CALLS, address, "from", station.from)?;
    push_direction(text, CALLS, address, "to", station.to)
}

/// A sample of a station and a direction. The address is digits, of which none has to be escaped.
#[tactic(auto, unfolding(crate::specs::Metrics::station_direction_text))]
fn push_direction(
    text: &mut String,
    name: &str,
    address: &str,
    direction: &str,
    count: u64,
) -> Result<(), AllocError>
    ensures { OnOk result (string_bytes text.new ≡ string_bytes text.old ++ station_direction_text name.now address.now direction.now count) }
{
    push_all(
        text,
        &[
            name,
            "{address=\"",
            address,
            "\",direction=\"",
            direction,
            "\"} ",
        ],
    )?;
    push_number(text, count)?;
    text.push_str("\n")
}

/// How many call requests of each station were refused.
fn push_refusals(text: &mut String, stations: &[StationCalls]) -> Result<(), AllocError>
    ensures { OnOk result (string_bytes text.new ≡ string_bytes text.old ++ station_refusals_text stations.now) }
{
    let help = "Call requests that were refused, by the station that they came from.";
    push_head(text, REFUSALS, COUNTER, help)?;
    for (number, station) in stations.iter().enumerate() {
        let_others_run(number);
        push_refusals_of(text, station)?;
    }
    Ok(())
}

/// How many call requests of a station were refused.
fn push_refusals_of(text: &mut String, station: &StationCalls) -> Result<(), AllocError>
    ensures { OnOk result (string_bytes text.new ≡ string_bytes text.old ++ station_refusals_sample station.now) }
{
    push_labelled(
        text,
        REFUSALS,
        "address",
        station.address.as_str(),
        station.refused,
    )
}
