//! Clearing causes, resetting causes and diagnostics (X.25 clauses 5.2.4 and 5.4.3, Annex E), and the refusals of
//! call requests that use them.
#![tactic(auto)]

pub mod clearing_cause;
pub mod diagnostic;
mod dte;
mod laws;
mod refusal;
pub mod resetting_cause;

pub use dte::{DTE_ORIGINATED, FIRST_DTE_CAUSE, indicated_cause, indicated_diagnostic};
pub use laws::{causes_are_coded, diagnostics_are_coded, refusals_are_coded, refusals_fit_octets};
pub use refusal::Refusal;
