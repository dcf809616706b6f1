//! The addresses of lines and of the exchange in a capture file.

ghost use Rattle.std.specs.Prelude.{◌≡◌};
ghost use Rattle.xp_capture.specs.Segment.{connection_ends, ends_of};

use xp_words::Direction;

/// The address of the exchange, 10.0.0.1.
const EXCHANGE: u32 = 0x0a00_0001;

/// The port of X.25 over TCP (RFC 1613).
const EXCHANGE_PORT: u16 = 1_998;

/// The address of line 0, 10.1.0.0. Line n is n addresses behind it.
const FIRST_LINE: u32 = 0x0a01_0000;

/// The port of a line's first connection.
const FIRST_PORT: u16 = 49_152;

/// How many ports the connections of a line have.
const PORTS: u32 = 16_384;

/// Where a segment comes from, and where it goes: IPv4 addresses and ports.
#[derive(Clone, Copy)]
pub struct Ends {
    pub(crate) from: u32,
    pub(crate) to: u32,
    pub(crate) from_port: u16,
    pub(crate) to_port: u16,
}

impl Ends {
    /// The ends of what a line that has one connection and the exchange send to each other.
    pub(crate) fn of(line: u16, direction: Direction) -> Ends
        ensures { result ≡ ends_of line direction }
    {
        Ends::of_connection(line, 0, direction)
    }

    /// The ends of what goes over a connection of a line. Its connections are counted from 0. The port of one is used again for
    /// the 16,384th behind it.
    pub fn of_connection(line: u16, connection: u32, direction: Direction) -> Ends
        ensures { result ≡ connection_ends line connection direction }
    {
        let address = FIRST_LINE + u32::from(line);
        let port = FIRST_PORT + (connection % PORTS) as u16;
        match direction {
            Direction::FromDte => Ends {
                from: address,
                to: EXCHANGE,
                from_port: port,
                to_port: EXCHANGE_PORT,
            },
            Direction::FromDce => Ends {
                from: EXCHANGE,
                to: address,
                from_port: EXCHANGE_PORT,
                to_port: port,
            },
        }
    }
}
