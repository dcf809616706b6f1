//! The text of a live file.

ghost use Rattle.std.specs.Prelude.{◌≡◌, IfOk};
ghost use Rattle.xp_live.specs.LiveText.{live_text as live_text_of};

use std::alloc::{AllocError, Global};
use xp_cdr::{EndedCall, ExchangeRun, write_detail, write_header};

/// The text of a live file with these calls, of this run: the names of the fields, and the call detail record of each call.
///
/// # Errors
///
/// `AllocError` if an allocation fails.
pub fn live_text(
    alloc: Global,
    run: &ExchangeRun,
    calls: &[EndedCall],
) -> Result<Vec<u8>, AllocError>
    ensures { IfOk result (λ text. text.items ≡ live_text_of run.now calls.now) }
{
    let mut text = Vec::new(alloc);
    write_header(&mut text)?;
    for call in calls {
        write_detail(alloc, run, call, &mut text)?;
    }
    Ok(text)
}
