//! The codes of the facilities (X.25 clause 7.2.1).

/// A marker. The facilities after it belong to a network, or are between DTEs.
pub(crate) const MARKER: u8 = 0x00;

/// Fast select and reverse charging (clause 7.2.2.6).
pub(crate) const FAST_SELECT: u8 = 0x01;

/// Throughput class negotiation, basic format (clause 7.2.2.2).
pub(crate) const THROUGHPUT: u8 = 0x02;

/// Closed user group selection, basic format: an index of two digits (clause 7.2.2.3).
pub(crate) const CLOSED_USER_GROUP: u8 = 0x03;

/// Closed user group selection, extended format: an index of four digits (clause 7.2.2.3).
pub(crate) const CLOSED_USER_GROUP_EXTENDED: u8 = 0x47;

/// Charging information requested (clause 6.22).
pub(crate) const CHARGING: u8 = 0x04;

/// Called line address modified notification (clause 7.2.2.12).
pub(crate) const MODIFIED: u8 = 0x08;

/// Closed user group selection with outside access, basic format: outgoing access in a call request, incoming access
/// in an incoming call (clause 7.2.2.4).
pub(crate) const OUTSIDE_ACCESS: u8 = 0x09;

/// The same, extended format: an index of four digits (clause 7.2.2.4).
pub(crate) const OUTSIDE_ACCESS_EXTENDED: u8 = 0x48;

/// Packet size negotiation (clause 7.2.2.1.1).
pub(crate) const PACKET_SIZE: u8 = 0x42;

/// Window size negotiation (clause 7.2.2.1.2).
pub(crate) const WINDOW_SIZE: u8 = 0x43;

/// Charging information: call duration (clause 6.22).
pub(crate) const CALL_DURATION: u8 = 0xc1;

/// Charging information: segment count (clause 6.22).
pub(crate) const SEGMENT_COUNT: u8 = 0xc2;

/// Call redirection notification (clause 7.2.2.11).
pub(crate) const REDIRECTED: u8 = 0xc3;

/// The first code whose parameters follow a length octet. The classes of codes below it have one, two and three
/// octets of parameters (X.25 clause 7.1).
pub(crate) const FIRST_COUNTED: u8 = 0xc0;

/// The parameter of the marker before facilities of the calling network.
pub(crate) const CALLING_NETWORK: u8 = 0x00;

/// The parameter of the marker before facilities between DTEs.
pub(crate) const DTE_FACILITIES: u8 = 0x0f;

/// The parameter of the marker before facilities of the called network.
pub(crate) const CALLED_NETWORK: u8 = 0xff;

/// The codes that are accepted before the first marker.
pub(crate) const ACCEPTED: [u8; 9] = [
    FAST_SELECT,
    THROUGHPUT,
    CLOSED_USER_GROUP,
    CHARGING,
    OUTSIDE_ACCESS,
    PACKET_SIZE,
    WINDOW_SIZE,
    CLOSED_USER_GROUP_EXTENDED,
    OUTSIDE_ACCESS_EXTENDED,
];
