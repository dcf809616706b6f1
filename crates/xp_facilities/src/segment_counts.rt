/// The segment counts of charging information (X.25 clause 6.22), each at most 99,999,999.
#[derive(Clone, Copy, Default)]
pub struct SegmentCounts {
    /// Segments sent to the DTE that receives this information.
    pub sent: u32,
    /// Segments received from that DTE.
    pub received: u32,
}
