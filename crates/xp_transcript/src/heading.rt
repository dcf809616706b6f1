//! Who sends to whom, and when.

ghost use Rattle.xp_transcript.specs.Words.{heading_words};

use std::fmt;
use xp_words::Direction;

/// What stands in front of the words of a packet: the moment in seconds, and who sends to whom.
#[derive(Clone, Copy)]
pub(crate) struct Heading<'a> {
    pub(crate) moment: u64,
    /// The name of the line.
    pub(crate) name: &'a str,
    pub(crate) direction: Direction,
}

impl fmt::Display for Heading<'_> {
    ghost use Rattle.std.specs.Prelude.{Some};

    ghost output = { λ heading. Some (heading_words heading.moment heading.name.now heading.direction) };

    fn fmt<W: fmt::Write>(&self, f: &mut fmt::Formatter<W>) -> fmt::Result {
        let moment = self.moment;
        let name = self.name;
        match self.direction {
            Direction::FromDte => write!(f, "{moment}  {name} → exchange  "),
            Direction::FromDce => write!(f, "{moment}  exchange → {name}  "),
        }
    }
}

/// The logical channel of a packet, such as `channel 1: `.
#[derive(Clone, Copy)]
pub(crate) struct Channel(pub(crate) u16);

impl fmt::Display for Channel {
    ghost use Rattle.std.specs.Prelude.{Some};
    ghost use Rattle.xp_transcript.specs.Words.{channel_words};

    ghost output = { λ channel. Some (channel_words channel.0) };

    fn fmt<W: fmt::Write>(&self, f: &mut fmt::Formatter<W>) -> fmt::Result {
        write!(f, "channel {}: ", self.0)
    }
}
