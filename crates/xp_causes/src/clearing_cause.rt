//! The clearing causes that the exchange sends (X.25 clause 5.2.4).

/// Number busy.
pub const NUMBER_BUSY: u8 = 0x01;
/// Invalid facility request.
pub const INVALID_FACILITY_REQUEST: u8 = 0x03;
/// Network congestion.
pub const NETWORK_CONGESTION: u8 = 0x05;
/// Out of order.
pub const OUT_OF_ORDER: u8 = 0x09;
/// Access barred.
pub const ACCESS_BARRED: u8 = 0x0b;
/// Not obtainable.
pub const NOT_OBTAINABLE: u8 = 0x0d;
/// Remote procedure error.
pub const REMOTE_PROCEDURE_ERROR: u8 = 0x11;
/// Local procedure error.
pub const LOCAL_PROCEDURE_ERROR: u8 = 0x13;
/// Reverse charging acceptance not subscribed.
pub const REVERSE_CHARGING_NOT_SUBSCRIBED: u8 = 0x19;
/// Fast select acceptance not subscribed.
pub const FAST_SELECT_NOT_SUBSCRIBED: u8 = 0x29;
