ghost use Rattle.xp_causes.specs.Coding.{CausesAreCoded, DiagnosticsAreCoded, RefusalsAreCoded};
ghost use Rattle.xp_causes.specs.Refusals.{RefusalsFitOctets};

/// The codes of clearing and resetting causes (X.25 clauses 5.2.4 and 5.4.3).
pub fn causes_are_coded()
    ensures { CausesAreCoded }
{}

/// The codes of diagnostics (X.25 Annex E).
pub fn diagnostics_are_coded()
    ensures { DiagnosticsAreCoded }
{}

/// The cause and the diagnostic of each refusal (X.25 clause 5.2.4 and Annex E).
pub fn refusals_are_coded()
    ensures { RefusalsAreCoded }
{}

/// The cause and the diagnostic of each refusal are below 256.
pub fn refusals_fit_octets()
    ensures { RefusalsFitOctets }
{}
