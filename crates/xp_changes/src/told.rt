//! All that is told of other subscriptions.

ghost use Rattle.std.specs.Prelude.{◌≡◌, ◌↔◌, IfOk, IsOk, OnOk, false, true};
ghost use Rattle.xp_changes.specs.Following.{MayFollow};

use crate::line_text::push_lines;
use crate::listing::{ChangedSubs, changes};
use crate::refusing::{frame_text, lay_text};
use crate::station_text::push_stations;
use std::alloc::{AllocError, Global};
use std::fmt::Write;
use xp_reload::frame_change;
use xp_subs::Subs;

/// What is told of subscriptions that are to come into force after others.
#[derive(Drop)]
pub struct ToldChanges {
    /// What changes, in lines.
    pub text: String,
    /// Whether the exchange has to be stopped before they can come into force.
    pub needs_stop: bool,
}

/// What changes as the new subscriptions come into force after the old ones, and what that does to calls: a line for each thing, and the
/// numbers of stations and lines. Where a stop is needed for them, only the first thing is told for which it is.
///
/// # Errors
///
/// An allocation failed.
#[tactic(auto, using(crate::proofs::Differing::by_fault, crate::proofs::Differing::by_frame))]
pub fn tell_changes(alloc: Global, old: &Subs, new: Subs) -> Result<ToldChanges, AllocError>
    ensures { IfOk result (λ told. (told.needs_stop ≡ false) ↔ MayFollow old.now new) }
{
    // The contract of this call says that the new ones are sound.
    let _ = new.counts();
    let laid = match old.laid_over(alloc, new) {
        Ok(laid) => laid,
        Err(fault) => return tell_stop(lay_text(alloc, &fault)),
    };
    match frame_change(old, &laid) {
        Some(change) => tell_stop(frame_text(alloc, old, change)),
        None => Ok(ToldChanges {
            text: changed_text(alloc, old, &laid)?,
            needs_stop: false,
        }),
    }
}

/// This text, which says for what a stop is needed.
fn tell_stop(text: Result<String, AllocError>) -> Result<ToldChanges, AllocError>
    ensures stop { IfOk result (λ told. told.needs_stop ≡ true) }
    ensures told { OnOk result (IsOk text) }
{
    let mut text = text?;
    text.push('\n')?;
    Ok(ToldChanges {
        text,
        needs_stop: true,
    })
}

/// What changes of stations and lines, and how many change, where these subscriptions are laid over the old ones.
fn changed_text(alloc: Global, old: &Subs, laid: &Subs) -> Result<String, AllocError> {
    let changes = changes(alloc, old, laid)?;
    let mut text = String::new(alloc);
    push_changes(&mut text, old, laid, &changes)?;
    Ok(text)
}

fn push_changes(
    text: &mut String,
    old: &Subs,
    laid: &Subs,
    changes: &ChangedSubs,
) -> Result<(), AllocError> {
    push_stations(text, old, laid, changes)?;
    push_lines(text, old, laid, changes)?;
    writeln!(text, "{changes}")
}
