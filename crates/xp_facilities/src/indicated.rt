use crate::direction_sizes::DirectionSizes;
use crate::fast_select::FastSelect;
use crate::redirection::{Reason, RedirectionNotification};
use crate::segment_counts::SegmentCounts;
use crate::selection::Selection;
use std::alloc::{Allocator, Global};
use xp_packets::Octets;

/// The facilities that a packet to a DTE indicates (X.25 clause 7.2).
#[derive(Drop)]
pub struct IndicatedFacilities<A: Allocator = Global> {
    /// The closed user group of the call.
    pub selection: Selection,
    /// Fast select.
    pub fast: FastSelect,
    /// Reverse charging.
    pub reverse: bool,
    /// The throughput class.
    pub throughput: Option<u8>,
    /// Why the called line address is modified, if it is.
    pub modified: Option<Reason>,
    /// The packet sizes, as powers of two.
    pub packet: Option<DirectionSizes>,
    /// The window sizes.
    pub window: Option<DirectionSizes>,
    /// The call redirection notification.
    pub redirected: Option<RedirectionNotification>,
    /// The duration of the call in seconds, at most 8,639,999, if the packet carries charging information.
    pub duration: Option<u32>,
    /// The segments of the call, if the packet carries charging information.
    pub segments: Option<SegmentCounts>,
    /// The items of the facilities between DTEs, without their marker; at most 80 octets.
    pub dte: Octets<A>,
}
