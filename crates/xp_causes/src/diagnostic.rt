//! The diagnostic codes that the exchange sends (X.25 Annex E).

/// No additional information.
pub const NO_ADDITIONAL_INFORMATION: u8 = 0;
/// Invalid P(S).
pub const INVALID_SEND_NUMBER: u8 = 1;
/// Invalid P(R).
pub const INVALID_RECEIVE_NUMBER: u8 = 2;
/// Packet type invalid for state p1, ready.
pub const INVALID_IN_P1: u8 = 20;
/// Packet type invalid for state p2, DTE waiting.
pub const INVALID_IN_P2: u8 = 21;
/// Packet type invalid for state p3, DCE waiting.
pub const INVALID_IN_P3: u8 = 22;
/// Packet type invalid for state p4, data transfer.
pub const INVALID_IN_P4: u8 = 23;
/// Packet type invalid for state p5, call collision.
pub const INVALID_IN_P5: u8 = 24;
/// Packet type invalid for state p6, DTE clear request.
pub const INVALID_IN_P6: u8 = 25;
/// Packet type invalid for state p7, DCE clear indication.
pub const INVALID_IN_P7: u8 = 26;
/// Packet type invalid for state d1, flow control ready.
pub const INVALID_IN_D1: u8 = 27;
/// Packet type invalid for state d2, DTE reset request.
pub const INVALID_IN_D2: u8 = 28;
/// Packet type invalid for state d3, DCE reset indication.
pub const INVALID_IN_D3: u8 = 29;
/// Unidentifiable packet.
pub const UNIDENTIFIABLE_PACKET: u8 = 33;
/// Reject not subscribed to.
pub const REJECT_NOT_SUBSCRIBED: u8 = 37;
/// Packet too short.
pub const PACKET_TOO_SHORT: u8 = 38;
/// Packet too long.
pub const PACKET_TOO_LONG: u8 = 39;
/// Invalid general format identifier.
pub const INVALID_FORMAT_IDENTIFIER: u8 = 40;
/// Packet type not compatible with facility.
pub const NOT_COMPATIBLE_WITH_FACILITY: u8 = 42;
/// Unauthorized interrupt confirmation.
pub const UNAUTHORIZED_INTERRUPT_CONFIRMATION: u8 = 43;
/// Unauthorized interrupt.
pub const UNAUTHORIZED_INTERRUPT: u8 = 44;
/// Timer expired for an incoming call.
pub const TIMER_EXPIRED_FOR_INCOMING_CALL: u8 = 49;
/// Facility code not allowed.
pub const FACILITY_CODE_NOT_ALLOWED: u8 = 65;
/// Facility parameter not allowed.
pub const FACILITY_PARAMETER_NOT_ALLOWED: u8 = 66;
/// Invalid called address.
pub const INVALID_CALLED_ADDRESS: u8 = 67;
/// Invalid calling address.
pub const INVALID_CALLING_ADDRESS: u8 = 68;
/// Invalid facility length.
pub const INVALID_FACILITY_LENGTH: u8 = 69;
/// Incoming call barred.
pub const INCOMING_CALL_BARRED: u8 = 70;
/// No logical channel available.
pub const NO_LOGICAL_CHANNEL_AVAILABLE: u8 = 71;
/// Call collision.
pub const CALL_COLLISION: u8 = 72;
/// Maximum number of call redirections exceeded.
pub const TOO_MANY_REDIRECTIONS: u8 = 78;
