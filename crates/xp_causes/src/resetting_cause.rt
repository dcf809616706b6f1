//! The resetting causes that the exchange sends (X.25 clause 5.4.3).

/// Remote procedure error.
pub const REMOTE_PROCEDURE_ERROR: u8 = 0x03;
/// Local procedure error.
pub const LOCAL_PROCEDURE_ERROR: u8 = 0x05;
