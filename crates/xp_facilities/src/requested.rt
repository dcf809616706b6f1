use crate::direction_sizes::DirectionSizes;
use crate::fast_select::FastSelect;
use crate::selection::Selection;
use std::alloc::{Allocator, Global};
use xp_packets::Octets;

/// The facilities that the field of a call request or call accepted packet requests (X.25 clause 7.2).
#[derive(Drop)]
pub struct RequestedFacilities<A: Allocator = Global> {
    /// The selected closed user group.
    pub selection: Selection,
    /// Fast select.
    pub fast: FastSelect,
    /// Reverse charging.
    pub reverse: bool,
    /// The throughput class, as its octet was written.
    pub throughput: Option<u8>,
    /// Whether charging information is requested.
    pub charging: bool,
    /// The packet sizes, as powers of two.
    pub packet: Option<DirectionSizes>,
    /// The window sizes.
    pub window: Option<DirectionSizes>,
    /// The items of the facilities between DTEs, without their markers; at most 80 octets.
    pub dte: Octets<A>,
}
