//! The sequence numbers of a line's connection.

ghost use Rattle.std.specs.Prelude.{◌≡◌};
ghost use Rattle.xp_capture.specs.Capture.{first_flow, flow_after};

use xp_words::Direction;

/// The next sequence numbers of a line's connection, in both directions.
#[derive(Clone, Copy)]
pub(crate) struct Flow {
    pub(crate) from_line: u32,
    pub(crate) from_exchange: u32,
}

impl Flow {
    /// Those before the first octet.
    pub(crate) fn first() -> Flow
        ensures { result ≡ first_flow }
    {
        Flow {
            from_line: 1,
            from_exchange: 1,
        }
    }

    /// Those behind so many octets more in one direction.
    pub(crate) fn after(self, direction: Direction, count: u32) -> Flow
        ensures { result ≡ flow_after self direction count }
    {
        match direction {
            Direction::FromDte => Flow {
                from_line: self.from_line.wrapping_add(count),
                from_exchange: self.from_exchange,
            },
            Direction::FromDce => Flow {
                from_line: self.from_line,
                from_exchange: self.from_exchange.wrapping_add(count),
            },
        }
    }
}
