//! The names of causes, diagnostics, facilities and reasons, by their codes.

ghost use Rattle.std.specs.Prelude.{◌≡◌, map, option_map};
ghost use Rattle.xp_words.specs.Names.{cause_name, clearing_causes, diagnostics, facilities, name_in, reasons, resetting_causes};

use xp_causes::FIRST_DTE_CAUSE;

/// The clearing causes (X.25 clause 5.2.4, table 5-7).
static CLEARING_CAUSES: [(u8, &str); 14] = [
    (0x00, "DTE originated"),
    (0x01, "number busy"),
    (0x03, "invalid facility request"),
    (0x05, "network congestion"),
    (0x09, "out of order"),
    (0x0b, "access barred"),
    (0x0d, "not obtainable"),
    (0x11, "remote procedure error"),
    (0x13, "local procedure error"),
    (0x15, "ROA out of order"),
    (0x19, "reverse charging acceptance not subscribed"),
    (0x21, "incompatible destination"),
    (0x29, "fast select acceptance not subscribed"),
    (0x39, "ship absent"),
];

/// The resetting causes (X.25 clause 5.4.3, table 5-9).
static RESETTING_CAUSES: [(u8, &str); 9] = [
    (0x00, "DTE originated"),
    (0x01, "out of order"),
    (0x03, "remote procedure error"),
    (0x05, "local procedure error"),
    (0x07, "network congestion"),
    (0x09, "remote DTE operational"),
    (0x0f, "network operational"),
    (0x11, "incompatible destination"),
    (0x1d, "network out of order"),
];

/// The diagnostics (X.25 Annex E).
static DIAGNOSTICS: [(u8, &str); 68] = [
    (0, "no additional information"),
    (1, "invalid P(S)"),
    (2, "invalid P(R)"),
    (16, "packet type invalid"),
    (17, "packet type invalid for state r1"),
    (18, "packet type invalid for state r2"),
    (19, "packet type invalid for state r3"),
    (20, "packet type invalid for state p1"),
    (21, "packet type invalid for state p2"),
    (22, "packet type invalid for state p3"),
    (23, "packet type invalid for state p4"),
    (24, "packet type invalid for state p5"),
    (25, "packet type invalid for state p6"),
    (26, "packet type invalid for state p7"),
    (27, "packet type invalid for state d1"),
    (28, "packet type invalid for state d2"),
    (29, "packet type invalid for state d3"),
    (32, "packet not allowed"),
    (33, "unidentifiable packet"),
    (34, "call on one-way logical channel"),
    (35, "invalid packet type on a permanent virtual circuit"),
    (36, "packet on unassigned logical channel"),
    (37, "reject not subscribed to"),
    (38, "packet too short"),
    (39, "packet too long"),
    (40, "invalid general format identifier"),
    (
        41,
        "restart packet with non-zero logical channel identifier",
    ),
    (42, "packet type not compatible with facility"),
    (43, "unauthorized interrupt confirmation"),
    (44, "unauthorized interrupt"),
    (45, "unauthorized reject"),
    (48, "timer expired"),
    (49, "timer expired for incoming call"),
    (50, "timer expired for clear indication"),
    (51, "timer expired for reset indication"),
    (52, "timer expired for restart indication"),
    (53, "timer expired for call deflection"),
    (64, "call set-up, call clearing or registration problem"),
    (65, "facility code not allowed"),
    (66, "facility parameter not allowed"),
    (67, "invalid called address"),
    (68, "invalid calling address"),
    (69, "invalid facility length"),
    (70, "incoming call barred"),
    (71, "no logical channel available"),
    (72, "call collision"),
    (73, "duplicate facility requested"),
    (74, "non-zero address length"),
    (75, "non-zero facility length"),
    (76, "facility not provided when expected"),
    (77, "invalid ITU-T-specified DTE facility"),
    (
        78,
        "maximum number of call redirections or call deflections exceeded",
    ),
    (80, "miscellaneous"),
    (81, "improper cause code from DTE"),
    (82, "not aligned octet"),
    (83, "inconsistent Q-bit setting"),
    (84, "NUI problem"),
    (112, "international problem"),
    (113, "remote network problem"),
    (114, "international protocol problem"),
    (115, "international link out of order"),
    (116, "international link busy"),
    (117, "transit network facility problem"),
    (118, "remote network facility problem"),
    (119, "international routing problem"),
    (120, "temporary routing problem"),
    (121, "unknown called DNIC"),
    (122, "maintenance action"),
];

/// The facilities before the first marker (X.25 clause 7.2.1, table 7-1).
static FACILITIES: [(u8, &str); 21] = [
    (0x01, "reverse charging and fast select"),
    (0x02, "throughput class"),
    (0x03, "closed user group"),
    (0x04, "charging information request"),
    (0x08, "called line address modified"),
    (0x09, "closed user group with outside access"),
    (0x41, "bilateral closed user group"),
    (0x42, "packet size"),
    (0x43, "window size"),
    (0x44, "ROA selection"),
    (0x47, "closed user group"),
    (0x48, "closed user group with outside access"),
    (0x49, "transit delay"),
    (0x4c, "extended throughput class"),
    (0xc1, "call duration"),
    (0xc2, "segment count"),
    (0xc3, "call redirection"),
    (0xc4, "ROA selection"),
    (0xc5, "monetary unit"),
    (0xc6, "network user identification"),
    (0xd1, "call deflection"),
];

/// The reasons for which a call goes to another address (X.25 clauses 7.2.2.11 and 7.2.2.12).
static REASONS: [(u8, &str); 4] = [
    (0x01, "busy"),
    (0x07, "distribution in a hunt group"),
    (0x09, "out of order"),
    (0x0f, "systematic"),
];

/// The name of a clearing cause. A cause from 0x80 is one that a DTE chose itself.
pub(crate) fn clearing_cause_name(cause: u8) -> Option<&'static str>
    ensures { option_map (λ name. name.now) result ≡ cause_name clearing_causes cause }
{
    cause_name(&CLEARING_CAUSES, cause)
}

/// The name of a resetting cause. A cause from 0x80 is one that a DTE chose itself.
pub(crate) fn resetting_cause_name(cause: u8) -> Option<&'static str>
    ensures { option_map (λ name. name.now) result ≡ cause_name resetting_causes cause }
{
    cause_name(&RESETTING_CAUSES, cause)
}

/// The name of a diagnostic.
pub(crate) fn diagnostic_name(diagnostic: u8) -> Option<&'static str>
    ensures { option_map (λ name. name.now) result ≡ name_in diagnostics diagnostic }
{
    name_in(&DIAGNOSTICS, diagnostic)
}

/// The name of a facility.
pub(crate) fn facility_name(code: u8) -> Option<&'static str>
    ensures { option_map (λ name. name.now) result ≡ name_in facilities code }
{
    name_in(&FACILITIES, code)
}

/// The name of a reason.
pub(crate) fn reason_name(octet: u8) -> Option<&'static str>
    ensures { option_map (λ name. name.now) result ≡ name_in reasons octet }
{
    name_in(&REASONS, octet)
}

fn cause_name(table: &[(u8, &'static str)], cause: u8) -> Option<&'static str>
    ensures { option_map (λ name. name.now) result ≡ cause_name (map (λ row. (row.0, row.1.now)) table.now) cause }
{
    if cause >= FIRST_DTE_CAUSE {
        return Some("DTE originated");
    }
    name_in(table, cause)
}

fn name_in(table: &[(u8, &'static str)], code: u8) -> Option<&'static str>
    ensures { option_map (λ name. name.now) result ≡ name_in (map (λ row. (row.0, row.1.now)) table.now) code }
{
    for (known, name) in table {
        if *known == code {
            return Some(name);
        }
    }
    None
}
