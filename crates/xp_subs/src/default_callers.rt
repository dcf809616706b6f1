//! The default callers of XOT routers: a router has at most one.
ghost use Rattle.std.specs.Prelude.{◌≡◌};
ghost use Rattle.std.specs.List.{list_any};
ghost use Rattle.xp_subs.specs.Passes.{all_differ};
ghost use Rattle.xp_subs.specs.steps.DefaultCallers.{are_rivals, has_line_behind, has_line_beside, share_router};

use xp_file::{Access, LineEntry, StationEntry};

/// Whether no two stations are default callers of one router. Only stations that are default callers are compared line by line.
pub(crate) fn default_callers_differ(stations: &[StationEntry]) -> bool
    ensures { result ≡ all_differ are_rivals stations.now }
{
    for (place, station) in stations.iter().enumerate() {
        if has_rival(&stations[place + 1..], station) {
            return false;
        }
    }
    true
}

fn has_rival(stations: &[StationEntry], station: &StationEntry) -> bool
    ensures { result ≡ list_any (λ other. are_rivals other station.now) stations.now }
{
    stations.iter().any(|other| are_rivals(other, station))
}

/// Whether the two stations are default callers of one router.
#[tactic(auto, unfolding(crate::specs::steps::DefaultCallers::are_rivals))]
fn are_rivals(one: &StationEntry, other: &StationEntry) -> bool
    ensures { result ≡ are_rivals one.now other.now }
{
    one.default_caller && other.default_caller && share_router(&one.lines, &other.lines)
}

#[tactic(auto, unfolding(crate::specs::steps::DefaultCallers::share_router))]
fn share_router(one: &[LineEntry], other: &[LineEntry]) -> bool
    ensures { result ≡ share_router one.now other.now }
{
    one.iter().any(|line| has_line_beside(other, &line.access))
}

/// Whether one of the lines is behind the router of this access.
fn has_line_beside(lines: &[LineEntry], access: &Access) -> bool
    ensures { result ≡ has_line_beside lines.now access.now }
{
    match access {
        Access::Port(_) | Access::Spare => false,
        Access::Router(router) => has_line_behind(lines, router.address()),
    }
}

#[tactic(auto, unfolding(crate::specs::steps::DefaultCallers::has_line_behind))]
fn has_line_behind(lines: &[LineEntry], router: &str) -> bool
    ensures { result ≡ has_line_behind lines.now router.now }
{
    lines.iter().any(|line| line.access.is_behind(router))
}
