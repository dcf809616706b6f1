//! The rules by which call requests are refused, as docs/PROTOCOL.md numbers them.

ghost use Rattle.std.specs.Prelude.{◌≡◌};
ghost use Rattle.xp_explain.specs.steps.Rules.{rule_for_address, rule_for_caller};

use xp_causes::Refusal;

/// A rule that refuses a call request: a row of the table in docs/PROTOCOL.md.
#[derive(Clone, Copy, PartialEq)]
pub enum Rule {
    /// The facility field is cut off within a facility.
    FacilityLength,
    /// A facility that is not offered.
    FacilityCode,
    /// A parameter of a facility is faulty.
    FacilityParameter,
    /// A window over 7 from a line of modulo 8.
    Window,
    /// Too much user data.
    UserData,
    /// The caller makes no calls.
    OutgoingBarred,
    /// The caller may not make such a selection of a group.
    Selection,
    /// The caller has no group of the index that it selects.
    GroupIndex,
    /// No group of the caller lets the call out.
    NoWayOut,
    /// Nobody has the address.
    Address,
    /// The station takes no calls.
    IncomingBarred,
    /// The closed user groups of the called station.
    Admission,
    /// The called station pays for no calls.
    ReverseCharging,
    /// The called station takes no fast select.
    FastSelect,
    /// No line of the address is in service.
    OutOfService,
    /// No line of the address is idle.
    NoneIdle,
    /// The call would be redirected a fifth time.
    Redirections,
}

impl Rule {
    /// The rule for the caller behind a refusal. Where several rules share a refusal, they are told apart by whether the
    /// facility field was read, and by whether the station has outgoing calls barred.
    pub(crate) fn for_caller(refusal: Refusal, is_read: bool, outgoing_barred: bool) -> Rule
        ensures { result ≡ rule_for_caller refusal is_read outgoing_barred }
    {
        if refusal == Refusal::FACILITY_LENGTH {
            Rule::FacilityLength
        } else if refusal == Refusal::FACILITY_NOT_ALLOWED {
            if is_read {
                Rule::Selection
            } else {
                Rule::FacilityCode
            }
        } else if refusal == Refusal::FACILITY_PARAMETER {
            if is_read {
                Rule::Window
            } else {
                Rule::FacilityParameter
            }
        } else if refusal == Refusal::USER_DATA_TOO_LONG {
            Rule::UserData
        } else if refusal == Refusal::GROUP_NOT_KNOWN {
            Rule::GroupIndex
        } else if outgoing_barred {
            Rule::OutgoingBarred
        } else {
            Rule::NoWayOut
        }
    }

    /// The rule at an address behind a refusal.
    pub(crate) fn for_address(refusal: Refusal) -> Rule
        ensures { result ≡ rule_for_address refusal }
    {
        if refusal == Refusal::ADDRESS_NOT_KNOWN {
            Rule::Address
        } else if refusal == Refusal::INCOMING_CALLS_BARRED {
            Rule::IncomingBarred
        } else if refusal == Refusal::ACCESS_BARRED {
            Rule::Admission
        } else if refusal == Refusal::REVERSE_CHARGING_NOT_ACCEPTED {
            Rule::ReverseCharging
        } else if refusal == Refusal::FAST_SELECT_NOT_ACCEPTED {
            Rule::FastSelect
        } else if refusal == Refusal::OUT_OF_ORDER {
            Rule::OutOfService
        } else {
            Rule::NoneIdle
        }
    }

    /// Whether it is about the caller's station, and not about the packet.
    pub(crate) fn is_of_caller_station(self) -> bool {
        matches!(
            self,
            Rule::OutgoingBarred | Rule::Selection | Rule::GroupIndex | Rule::NoWayOut
        )
    }

    /// The number of the rule. The rule of a fifth redirection has none.
    pub(crate) fn number(self) -> &'static str {
        match self {
            Rule::FacilityLength => "rule 1",
            Rule::FacilityCode => "rule 2",
            Rule::FacilityParameter | Rule::Window => "rule 3",
            Rule::UserData => "rule 4",
            Rule::OutgoingBarred => "rule 5",
            Rule::Selection | Rule::GroupIndex | Rule::NoWayOut => "rule 6",
            Rule::Address => "rule 7",
            Rule::IncomingBarred => "rule 8",
            Rule::Admission => "rule 9",
            Rule::ReverseCharging => "rule 10",
            Rule::FastSelect => "rule 11",
            Rule::OutOfService => "rule 12",
            Rule::NoneIdle => "rule 13",
            Rule::Redirections => "the rule of redirections",
        }
    }

    /// What the rule found.
    pub(crate) fn meaning(self) -> &'static str {
        match self {
            Rule::FacilityLength => "the facility field is cut off within a facility",
            Rule::FacilityCode => "a facility that is not offered",
            Rule::FacilityParameter =>
                "a parameter out of range, two selections, an unknown marker, or over 80 octets between DTEs",
            Rule::Window => "a window over 7, from a line of modulo 8",
            Rule::UserData => "over 16 octets of user data without fast select",
            Rule::OutgoingBarred => "the caller makes no calls",
            Rule::Selection =>
                "a selection without groups, or with outgoing access by a station without it",
            Rule::GroupIndex => "no group of the selected index",
            Rule::NoWayOut => "no group lets the call out, and no outgoing access",
            Rule::Address => "nobody has the address",
            Rule::IncomingBarred => "the station takes no calls",
            Rule::Admission => "the station's closed user groups do not let the call in",
            Rule::ReverseCharging => "the station pays for no calls",
            Rule::FastSelect => "the station takes no fast select",
            Rule::OutOfService => "no line is in service, and no redirection for it",
            Rule::NoneIdle => "no line is idle, and no redirection for it",
            Rule::Redirections => "the call was to be redirected a fifth time",
        }
    }

    /// What to look at: keys of the subscription file, of the station that the rule is about, if it is about one.
    pub(crate) fn look_at(self) -> &'static str {
        match self {
            Rule::FacilityLength | Rule::FacilityCode | Rule::FacilityParameter =>
                "the caller's equipment",
            Rule::Window => "the caller's equipment, and the `modulus` of its line",
            Rule::UserData => "the caller's equipment, which may ask for fast select",
            Rule::OutgoingBarred => "`outgoing_barred`",
            Rule::Selection => "`group` and `outgoing_access`",
            Rule::GroupIndex => "`index` in `group`",
            Rule::NoWayOut => "`outgoing_barred` in `group`, `preferential`, `outgoing_access`",
            Rule::Address => "the `address` keys; after a redirection the `to` of `redirect`",
            Rule::IncomingBarred => "`incoming_barred`",
            Rule::Admission =>
                "`group`, its `incoming_barred`, `incoming_access`; what the caller selects, its `preferential`, `outgoing_access`",
            Rule::ReverseCharging => "`reverse_charging`",
            Rule::FastSelect => "`fast_select`",
            Rule::OutOfService => "whether its lines are up; `redirect` with `out_of_order`",
            Rule::NoneIdle =>
                "`redirect` with `busy`; more `line` entries; whether the caller dialled itself",
            Rule::Redirections => "the `redirect` tables on the way, perhaps a circle",
        }
    }
}
