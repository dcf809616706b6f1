//! The ranges of the values of facilities (X.25 clause 7.2.2).

/// The smallest packet size, as a power of two (X.25 clause 7.2.2.1.1).
pub const SMALLEST_SIZE: u8 = 4;

/// The largest packet size, as a power of two (X.25 clause 7.2.2.1.1).
pub const LARGEST_SIZE: u8 = 12;

/// The smallest window size (X.25 clause 7.2.2.1.2).
pub const SMALLEST_WINDOW: u8 = 1;

/// The largest window size (X.25 clause 7.2.2.1.2).
pub const LARGEST_WINDOW: u8 = 15;

/// The largest index of a closed user group: four decimal digits (X.25 clauses 7.2.2.3 and 7.2.2.4).
pub const LARGEST_INDEX: u16 = 9_999;

/// The largest segment count: eight decimal digits (X.25 clause 6.22).
pub const LARGEST_COUNT: u32 = 99_999_999;

/// The longest duration of a call that a field indicates, in seconds: 99 days, 23 hours, 59 minutes and 59 seconds
/// (X.25 clause 6.22).
pub const LARGEST_DURATION: u32 = 8_639_999;

/// The most octets of facilities between DTEs in a field, without markers.
pub const MOST_DTE_OCTETS: usize = 80;
