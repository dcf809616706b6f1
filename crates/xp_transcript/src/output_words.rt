//! What is put out, in words.

ghost use Rattle.std.specs.Prelude.{◌≡◌, IfOk, string_bytes};
ghost use Rattle.xp_transcript.specs.Words.{output_words, put_words};

use crate::heading::{Channel, Heading};
use crate::names::name_of;
use std::alloc::{AllocError, Global};
use std::fmt;
use xp_step::{Output, Put};
use xp_subs::Subs;
use xp_words::{Direction, PacketWords};

/// What is put out to a line.
#[derive(Clone, Copy)]
struct PutWords<'a>(&'a Put);

impl fmt::Display for PutWords<'_> {
    ghost use Rattle.std.specs.Prelude.{Some};

    ghost output = { λ words. Some (put_words words.0.now) };

    fn fmt<W: fmt::Write>(&self, f: &mut fmt::Formatter<W>) -> fmt::Result {
        match self.0 {
            Put::Send { identifier, packet } => {
                let channel = Channel(*identifier);
                let direction = Direction::FromDce;
                write!(f, "{channel}{}", PacketWords { direction, packet })
            }
            Put::Close => f.write_str("connection closed"),
        }
    }
}

/// The line of words of what is put out to a line at this moment.
pub(crate) fn output_words(
    alloc: Global,
    subs: &Subs,
    moment: u64,
    output: &Output,
) -> Result<String, AllocError>
    ensures { IfOk result (λ text. string_bytes text ≡ output_words subs.now moment output.now) }
{
    let heading = Heading {
        moment,
        name: name_of(subs, output.line),
        direction: Direction::FromDce,
    };
    let put = PutWords(&output.outgoing.put);
    format!(in alloc; "{heading}{put}\n")
}
