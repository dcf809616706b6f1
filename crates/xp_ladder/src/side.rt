/// Where a line stands in a ladder diagram.
#[derive(Clone, Copy, PartialEq, Eq)]
pub enum Side {
    /// At the left of the exchange.
    Left,
    /// At its right.
    Right,
}
