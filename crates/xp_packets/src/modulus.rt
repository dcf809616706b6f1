ghost use Rattle.std.specs.Prelude.{◌≡◌, ◌≤◌};
ghost use Rattle.xp_packets.specs.Numbers.{numbers};

/// The modulus of the packet numbers of a line (X.25 clause 4.4.1.1).
#[derive(Clone, Copy, PartialEq, Eq)]
pub enum Modulus {
    /// Modulo 8.
    Eight,
    /// Modulo 128. The general format identifier of each packet of such a line says so.
    Long,
}

impl Modulus {
    /// How many numbers there are, 8 or 128. The first is 0.
    pub fn numbers(self) -> u8
        ensures numbers { result ≡ numbers self }
        ensures most { result ≤ 128 }
    {
        match self {
            Modulus::Eight => 8,
            Modulus::Long => 128,
        }
    }
}
