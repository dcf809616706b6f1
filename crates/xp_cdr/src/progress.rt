//! How far several call detail records are on the disk.

ghost use Rattle.std.specs.Prelude.{◌≡◌, Some};

/// How far several call detail records are on the disk.
#[derive(Clone, Copy)]
pub struct Progress {
    /// How many of their octets are there, how many of them, and how many of their cuts were passed.
    pub octets: usize,
    pub records: usize,
    pub cuts: usize,
    /// How many octets behind those the file has taken. It is not known where a sync has failed since the last good one.
    pub taken: Option<usize>,
}

impl Progress {
    /// None of them is there.
    pub fn none() -> Progress
        ensures { result ≡ record { octets = 0; records = 0; cuts = 0; taken = Some 0 } }
    {
        Progress {
            octets: 0,
            records: 0,
            cuts: 0,
            taken: Some(0),
        }
    }
}
