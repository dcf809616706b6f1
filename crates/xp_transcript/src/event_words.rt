//! Events in words.

ghost use Rattle.std.specs.Prelude.{◌≡◌, IfOk, string_bytes};
ghost use Rattle.xp_transcript.specs.Words.{line_words, what_words};

use crate::heading::{Channel, Heading};
use crate::names::name_of;
use std::alloc::{AllocError, Global};
use std::fmt;
use xp_step::{Event, What};
use xp_subs::Subs;
use xp_words::{Diagnostic, Direction, PacketWords};

/// What happened on a line.
#[derive(Clone, Copy)]
struct WhatWords<'a>(&'a What);

impl fmt::Display for WhatWords<'_> {
    ghost use Rattle.std.specs.Prelude.{Some};

    ghost output = { λ words. Some (what_words words.0.now) };

    fn fmt<W: fmt::Write>(&self, f: &mut fmt::Formatter<W>) -> fmt::Result {
        match self.0 {
            What::Up => f.write_str("connection comes"),
            What::Down => f.write_str("connection goes"),
            What::Frame { identifier, packet } => {
                let channel = Channel(*identifier);
                let direction = Direction::FromDte;
                write!(f, "{channel}{}", PacketWords { direction, packet })
            }
            What::WrongFrame(wrong) => {
                let diagnostic = Diagnostic(wrong.diagnostic());
                write!(f, "frame without a packet, diagnostic {diagnostic}")
            }
            What::Expire => f.write_str("no answer in time (T11)"),
            What::Stall => f.write_str("given up"),
            What::Reload => f.write_str("other subscriptions are in force"),
        }
    }
}

/// The line of words of what happened on a line.
pub(crate) fn line_words(alloc: Global, subs: &Subs, event: &Event) -> Result<String, AllocError>
    ensures { IfOk result (λ text. string_bytes text ≡ line_words subs.now event.now) }
{
    let heading = Heading {
        moment: event.moment,
        name: name_of(subs, event.line),
        direction: Direction::FromDte,
    };
    let what = WhatWords(&event.what);
    format!(in alloc; "{heading}{what}\n")
}
