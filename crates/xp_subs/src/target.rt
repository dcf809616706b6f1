use crate::{LineNo, StationNo};

/// The station or line that an address belongs to.
#[derive(Clone, Copy)]
pub struct Target {
    pub station: StationNo,
    /// The one line with this address. `None` if the address is the station's, and means all its lines.
    pub line: Option<LineNo>,
}

/// The number of stations, lines and closed user groups.
#[derive(Clone, Copy)]
pub struct Counts {
    pub stations: usize,
    pub lines: usize,
    pub groups: usize,
}
