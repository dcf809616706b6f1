//! Entries of the history in words.

ghost use Rattle.std.specs.Prelude.{◌≡◌, ◌++◌, flat_map, OnOk};
ghost use Rattle.xp_transcript.specs.Words.{entry_words, output_words, record_words};

use crate::event_words::line_words;
use crate::output_words::output_words;
use crate::record_words::record_words;
use std::alloc::{AllocError, Global};
use xp_charge::Record;
use xp_step::{Entry, Output};
use xp_subs::Subs;

/// Adds the words of an entry that brings no subscriptions: a line for its event, one for each packet that it puts out, and one for each
/// record.
pub(crate) fn push_entry_words(
    alloc: Global,
    subs: &Subs,
    entry: &Entry,
    text: &mut Vec<u8>,
) -> Result<(), AllocError>
    ensures { OnOk result (text.new.items ≡ text.old.items ++ entry_words subs.now entry.now) }
{
    let words = line_words(alloc, subs, &entry.event)?;
    text.extend_from_slice(words.as_bytes())?;
    let moment = entry.event.moment;
    push_output_words(alloc, subs, moment, entry.outputs.as_slice(), text)?;
    push_record_words(alloc, subs, entry.records.as_slice(), text)
}

fn push_output_words(
    alloc: Global,
    subs: &Subs,
    moment: u64,
    outputs: &[Output],
    text: &mut Vec<u8>,
) -> Result<(), AllocError>
    ensures { OnOk result (text.new.items ≡ text.old.items ++ flat_map (output_words subs.now moment) outputs.now) }
{
    for output in outputs {
        let words = output_words(alloc, subs, moment, output)?;
        text.extend_from_slice(words.as_bytes())?;
    }
    Ok(())
}

fn push_record_words(
    alloc: Global,
    subs: &Subs,
    records: &[Record],
    text: &mut Vec<u8>,
) -> Result<(), AllocError>
    ensures { OnOk result (text.new.items ≡ text.old.items ++ flat_map (record_words subs.now) records.now) }
{
    for record in records {
        let words = record_words(alloc, subs, record)?;
        text.extend_from_slice(words.as_bytes())?;
    }
    Ok(())
}
