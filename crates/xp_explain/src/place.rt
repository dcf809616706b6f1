//! The rules at the addresses of a call's way, 7 to 13, as text.

ghost use Rattle.std.specs.Prelude.{◌<◌};
ghost use Rattle.xp_subs.specs.Tables.{line_count, station_count};

use crate::explanation::Asked;
use crate::question::{Question, push_rule};
use crate::rule::Rule;
use crate::way::Hop;
use std::alloc::AllocError;
use std::fmt::Write;
use xp_decide::Wanted;
use xp_facilities::{Reason, Selection};
use xp_groups::{Intent, admit};
use xp_hunt::{LineState, Lines};
use xp_packets::Digits;
use xp_subs::{GroupNo, LineNo, Station, StationNo};

/// The rules for a called station, in order.
const STATION_RULES: [Rule; 4] = [
    Rule::IncomingBarred,
    Rule::Admission,
    Rule::ReverseCharging,
    Rule::FastSelect,
];

impl<'q, L: Lines> Question<'q, L> {
    /// Each address at which the call is redirected.
    pub(crate) fn push_way(&self, text: &mut String, asked: &Asked<'_>) -> Result<(), AllocError> {
        let wanted = asked.request.wanted();
        for hop in &asked.way.hops {
            self.push_hop(text, &wanted, *hop)?;
        }
        Ok(())
    }

    /// An address at which the call is redirected, and why.
    fn push_hop(&self, text: &mut String, wanted: &Wanted, hop: Hop<'_>) -> Result<(), AllocError> {
        let Some(station) = self.push_place(text, hop.address)? else {
            return Ok(());
        };
        let why = match hop.reason {
            Reason::Systematic => "before rules 8 to 13: redirect with systematic",
            Reason::OutOfOrder => "rule 12: no line is in service; redirect with out_of_order",
            Reason::Busy => "rule 13: no line is idle; redirect with busy",
            Reason::Distribution => "distribution in a hunt group",
        };
        if hop.reason != Reason::Systematic {
            self.push_station_rules(text, wanted, station, None)?;
        }
        match &station.redirect {
            Some(redirect) => writeln!(text, "{why}: redirected to {}", redirect.to),
            None => Ok(()),
        }
    }

    /// The address whose line takes the call.
    pub(crate) fn push_taken_at(
        &self,
        text: &mut String,
        wanted: &Wanted,
        address: &Digits,
    ) -> Result<(), AllocError> {
        let Some(station) = self.push_place(text, address)? else {
            return Ok(());
        };
        self.push_station_rules(text, wanted, station, None)?;
        text.push_str("rules 12 and 13: a line is idle\n")
    }

    /// The address at which the call is refused.
    pub(crate) fn push_refused_at(
        &self,
        text: &mut String,
        wanted: &Wanted,
        address: &Digits,
        rule: Rule,
    ) -> Result<(), AllocError> {
        if rule == Rule::Redirections {
            return push_rule(text, rule, None);
        }
        let Some(station) = self.push_place(text, address)? else {
            return push_rule(text, rule, None);
        };
        self.push_station_rules(text, wanted, station, Some(rule))?;
        if rule == Rule::Admission {
            self.push_no_admission(text, &wanted.intent, station)?;
        }
        push_rule(text, rule, Some(station))
    }

    /// An address, and whose it is, with the states of its lines.
    fn push_place(
        &self,
        text: &mut String,
        address: &Digits,
    ) -> Result<Option<&'q Station>, AllocError> {
        let Some(target) = self.subs.find(address) else {
            writeln!(text, "rule 7: {address} is of no station and no line")?;
            return Ok(None);
        };
        let station = self.subs.station(target.station);
        write!(text, "rule 7: {address} is of station {}", station.address)?;
        match target.line {
            Some(line) => self.push_line(text, line)?,
            None => self.push_lines(text, target.station)?,
        }
        text.push_str("\n")?;
        Ok(Some(station))
    }

    /// The lines of a station.
    fn push_lines(&self, text: &mut String, station: StationNo) -> Result<(), AllocError>
        requires { station < station_count self.now.subs.now }
    {
        // The contract of this call says that the lines of stations are lines of the exchange.
        let _ = self.subs.counts();
        for line in self.subs.station(station).lines.as_slice() {
            self.push_line(text, *line)?;
        }
        Ok(())
    }

    /// A line with its state.
    fn push_line(&self, text: &mut String, line: LineNo) -> Result<(), AllocError>
        requires { line < line_count self.now.subs.now }
    {
        let name = self.subs.name_of(line);
        let state = match self.lines.state(line) {
            LineState::Off => "out of service",
            LineState::Idle => "idle",
            LineState::Busy => "busy",
        };
        write!(text, ", {name} {state}")
    }

    /// The rules of the station that let the call in, up to the rule that does not.
    fn push_station_rules(
        &self,
        text: &mut String,
        wanted: &Wanted,
        station: &Station,
        refusing: Option<Rule>,
    ) -> Result<(), AllocError> {
        for rule in &STATION_RULES {
            if refusing == Some(*rule) {
                return Ok(());
            }
            self.push_station_rule(text, wanted, station, *rule)?;
        }
        Ok(())
    }

    /// A rule of the station that lets the call in.
    fn push_station_rule(
        &self,
        text: &mut String,
        wanted: &Wanted,
        station: &Station,
        rule: Rule,
    ) -> Result<(), AllocError> {
        let words = match rule {
            Rule::Admission => return self.push_admission(text, &wanted.intent, station),
            Rule::ReverseCharging if wanted.reverse => "it has reverse_charging",
            Rule::ReverseCharging => "no reverse charging is asked for",
            Rule::FastSelect if wanted.fast => "it has fast_select",
            Rule::FastSelect => "no fast select is asked for",
            _ => "it has no incoming_barred",
        };
        writeln!(text, "{}: {words}", rule.number())
    }

    /// How the station's closed user groups let the call in.
    fn push_admission(
        &self,
        text: &mut String,
        intent: &Intent,
        station: &Station,
    ) -> Result<(), AllocError> {
        let Ok(admission) = admit(intent, station) else {
            return Ok(());
        };
        match admission.indicated {
            Selection::Closed(index) => {
                writeln!(
                    text,
                    "rule 9: let in by its index {index} of the call's group"
                )
            }
            Selection::WithOutsideAccess(index) => writeln!(
                text,
                "rule 9: let in by its index {index} of the call's group, and by incoming_access"
            ),
            Selection::Nothing if station.memberships.is_empty() => {
                text.push_str("rule 9: it has no groups, and the call is open\n")
            }
            Selection::Nothing => {
                text.push_str("rule 9: the call is open, and it has incoming_access\n")
            }
        }
    }

    /// Why its closed user groups do not let the call in.
    fn push_no_admission(
        &self,
        text: &mut String,
        intent: &Intent,
        station: &Station,
    ) -> Result<(), AllocError> {
        match intent.group {
            Some(group) => self.push_no_entry(text, group, station)?,
            None => text.push_str("rule 9: the call is in no group")?,
        }
        text.push_str(if intent.outside {
            ", and it has no incoming_access\n"
        } else {
            ", and the call is not open\n"
        })
    }

    /// Why the station does not let the call in by the call's group.
    fn push_no_entry(
        &self,
        text: &mut String,
        group: GroupNo,
        station: &Station,
    ) -> Result<(), AllocError> {
        let name = self.subs.group_name(group).unwrap_or("");
        let memberships = &station.memberships;
        if memberships.iter().any(|held| held.group == group) {
            write!(text, "rule 9: it has incoming_barred in the group {name}")
        } else {
            write!(text, "rule 9: it is not in the group {name}")
        }
    }
}
