//! Why other subscriptions cannot come into force while the exchange serves, in words. No contract says what is told.

ghost use Rattle.std.specs.Prelude.{◌≢◌, OnOk};
ghost use Rattle.xp_subs.specs.declared.laid.LayFault.TheVariants.{Memory as OutOfMemory};

use std::alloc::{AllocError, Global};
use xp_reload::FrameChange;
use xp_subs::{Key, LayFault, LineNo, Subs};

/// What is told of subscriptions that cannot be laid over those before them, such as `needs a stop: line b2: modulus`.
///
/// # Errors
///
/// An allocation failed, now or as they were laid.
pub fn lay_text(alloc: Global, fault: &LayFault) -> Result<String, AllocError>
    ensures { OnOk result (fault.now ≢ OutOfMemory) }
{
    match fault {
        LayFault::Modulus(name) => modulus_text(alloc, name.as_str()),
        LayFault::Place(name) => format!(in alloc; "no spare place for line {name}"),
        LayFault::Memory => Err(AllocError),
    }
}

/// What is told of a change of the frame, such as `needs a stop: segment_limit`.
///
/// # Errors
///
/// An allocation failed.
pub fn frame_text(alloc: Global, old: &Subs, change: FrameChange) -> Result<String, AllocError> {
    let key = match change {
        FrameChange::LineCount => Key::Line,
        FrameChange::Modulus(line) => return modulus_text(alloc, name_in(old, line)),
        FrameChange::SegmentLimit => Key::SegmentLimit,
        FrameChange::Journal => Key::Journal,
        FrameChange::Host => Key::Host,
        FrameChange::XotPort => Key::XotPort,
        FrameChange::Name => Key::Name,
    };
    format!(in alloc; "needs a stop: {key}")
}

/// What is told where the line with this name would get another modulus.
fn modulus_text(alloc: Global, name: &str) -> Result<String, AllocError> {
    let key = Key::Modulus;
    format!(in alloc; "needs a stop: line {name}: {key}")
}

/// The name of a line, where it is one of these subscriptions.
pub(crate) fn name_in(subs: &Subs, line: LineNo) -> &str {
    if usize::from(line) < subs.counts().lines {
        subs.name_of(line)
    } else {
        ""
    }
}
