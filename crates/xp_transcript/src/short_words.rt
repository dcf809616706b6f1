//! Events and what is put out in few words, for a column of a diagram.

ghost use Rattle.std.specs.Prelude.{◌≡◌, IfOk, option_map, string_bytes};
ghost use Rattle.xp_transcript.specs.Rows.{few_put_words, few_words};

use std::alloc::{AllocError, Global};
use xp_step::{Put, What};
use xp_words::{Direction, ShortPacketWords};

/// What happened on a line, in few words. That a connection comes is not told, and a reload is no line's.
pub(crate) fn few_words(alloc: Global, what: &What) -> Result<Option<String>, AllocError>
    ensures { IfOk result (λ words. option_map string_bytes words ≡ few_words what.now) }
{
    let words = match what {
        What::Up | What::Reload => return Ok(None),
        What::Down => String::from_str(alloc, "connection goes")?,
        What::Frame { packet, .. } => {
            let direction = Direction::FromDte;
            ShortPacketWords { direction, packet }.text(alloc)?
        }
        What::WrongFrame(wrong) => {
            let diagnostic = wrong.diagnostic();
            format!(in alloc; "no packet, diagnostic {diagnostic}")?
        }
        What::Expire => String::from_str(alloc, "no answer in time")?,
        What::Stall => String::from_str(alloc, "given up")?,
    };
    Ok(Some(words))
}

/// What is put out to a line, in few words.
pub(crate) fn few_put_words(alloc: Global, put: &Put) -> Result<Option<String>, AllocError>
    ensures { IfOk result (λ words. option_map string_bytes words ≡ few_put_words put.now) }
{
    let words = match put {
        Put::Send { packet, .. } => {
            let direction = Direction::FromDce;
            ShortPacketWords { direction, packet }.text(alloc)?
        }
        Put::Close => String::from_str(alloc, "connection closed")?,
    };
    Ok(Some(words))
}
