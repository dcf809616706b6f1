//! Where the text of a later part begins.

/// Where the text of a later part begins among several call detail records.
#[derive(Clone, Copy)]
pub struct Cut {
    /// The part.
    pub part: u64,
    /// How many octets stand before it.
    pub octets: usize,
    /// How many call detail records stand before it.
    pub count: usize,
}
