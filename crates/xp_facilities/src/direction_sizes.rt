ghost use Rattle.std.specs.Prelude.{◌≡◌};
ghost use Rattle.xp_facilities.specs.Octets.{is_within};

/// Two packet sizes (as powers of two, 4 to 12) or two window sizes (1 to 15), one for each direction (X.25 clause
/// 6.12).
#[derive(Clone, Copy, Default, PartialEq, Eq)]
pub struct DirectionSizes {
    /// For packets from the called DTE.
    pub from_called: u8,
    /// For packets from the calling DTE.
    pub from_calling: u8,
}

impl DirectionSizes {
    /// Whether both are from `least` to `most`.
    pub(crate) fn is_within(self, least: u8, most: u8) -> bool
        ensures { result ≡ is_within least most self }
    {
        least <= self.from_called
            && self.from_called <= most
            && least <= self.from_calling
            && self.from_calling <= most
    }
}
