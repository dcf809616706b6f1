//! The rules for the caller, 1 to 6, as text.

use crate::question::{Question, push_rule};
use crate::rule::Rule;
use std::alloc::{AllocError, Global};
use std::fmt::Write;
use xp_decide::Request;
use xp_facilities::{FacilityFault, Selection, parse};
use xp_groups::Intent;
use xp_hunt::Lines;

impl<'q, L: Lines> Question<'q, L> {
    /// The rules for a caller that may make the call.
    pub(crate) fn push_asked(
        &self,
        text: &mut String,
        request: &Request,
    ) -> Result<(), AllocError> {
        self.push_packet_rules(text)?;
        self.push_selection(text, request.asked.selection)?;
        self.push_intent(text, request.intent)
    }

    /// The rules for a caller that may not make it, up to the rule that refuses.
    pub(crate) fn push_caller_refused(
        &self,
        alloc: Global,
        text: &mut String,
        refused_by: Option<Rule>,
    ) -> Result<(), AllocError> {
        let Some(rule) = refused_by else {
            return Ok(());
        };
        if !rule.is_of_caller_station() {
            return push_rule(text, rule, None);
        }
        self.push_packet_rules(text)?;
        if rule != Rule::OutgoingBarred {
            let selection = self.selection(alloc)?;
            self.push_selection(text, selection)?;
        }
        push_rule(text, rule, Some(self.station))
    }

    /// The selection of the call request.
    fn selection(&self, alloc: Global) -> Result<Selection, AllocError> {
        match parse(alloc, self.block.facilities.as_slice()) {
            Ok(asked) => Ok(asked.selection),
            Err(FacilityFault::Memory) => Err(AllocError),
            Err(_) => Ok(Selection::Nothing),
        }
    }

    fn push_packet_rules(&self, text: &mut String) -> Result<(), AllocError> {
        let user = self.block.user.len();
        writeln!(
            text,
            "rules 1 to 3: the facility field is in order\n\
            rule 4: {user} octets of user data are not too many"
        )
    }

    /// That the caller makes calls, and which group it selects.
    fn push_selection(&self, text: &mut String, selection: Selection) -> Result<(), AllocError> {
        let address = &self.station.address;
        write!(
            text,
            "rule 5: station {address} has no outgoing_barred\n\
            rule 6: station {address} selects "
        )?;
        match selection {
            Selection::Closed(index) => self.push_group_of(text, "", index),
            Selection::WithOutsideAccess(index) => {
                self.push_group_of(text, "outgoing access and ", index)
            }
            Selection::Nothing => self.push_preferential(text),
        }
    }

    /// Which group is taken where the caller selects none.
    fn push_preferential(&self, text: &mut String) -> Result<(), AllocError> {
        if self.station.memberships.is_empty() {
            return text.push_str("no group, and has none\n");
        }
        match self.station.preferential {
            None => text.push_str("no group, and has no preferential one\n"),
            Some(index) => self.push_group_of(text, "no group; preferential is ", index),
        }
    }

    /// An index of the caller, behind these words, the group with this index, and what is barred in it.
    fn push_group_of(&self, text: &mut String, before: &str, index: u16) -> Result<(), AllocError> {
        let memberships = &self.station.memberships;
        match memberships.iter().find(|held| held.index == index) {
            None => writeln!(text, "{before}index {index}, which it has not"),
            Some(held) => {
                let name = self.subs.group_name(held.group).unwrap_or("");
                let barred = if held.outgoing_barred {
                    " with outgoing_barred"
                } else {
                    ""
                };
                writeln!(text, "{before}index {index}, the group {name}{barred}")
            }
        }
    }

    /// How the call is made by the caller's closed user groups.
    fn push_intent(&self, text: &mut String, intent: Intent) -> Result<(), AllocError> {
        let access = if self.station.facilities.outgoing_access {
            " by outgoing_access"
        } else {
            ""
        };
        match intent.group {
            None => writeln!(text, "rule 6: the call is open{access}"),
            Some(group) => {
                let name = self.subs.group_name(group).unwrap_or("");
                if intent.outside {
                    writeln!(
                        text,
                        "rule 6: the call is in the group {name}, and open{access}"
                    )
                } else {
                    writeln!(text, "rule 6: the call is in the group {name} alone")
                }
            }
        }
    }
}
