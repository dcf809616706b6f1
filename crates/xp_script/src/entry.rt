//! The text of an entry of the history.

ghost use Rattle.std.specs.Prelude.{◌≡◌, ◌<◌, ◌++◌, All, flat_map, OnErr, OnOk};
ghost use Rattle.xp_core.specs.Writable.{AreWritable};
ghost use Rattle.xp_charge.specs.Lines.{HasLines as NamesLines};
ghost use Rattle.xp_charge.specs.Text.{record_text};
ghost use Rattle.xp_charge.specs.steps.Text.{Keeps};
ghost use Rattle.xp_script.specs.Lines.{HasLines};
ghost use Rattle.xp_script.specs.Text.{entry_text, output_text};
ghost use Rattle.xp_subs.specs.Tables.{line_count};

use crate::output::push_output;
use std::alloc::{AllocError, Allocator};
use xp_charge::Record;
use xp_step::{Entry, Output};
use xp_subs::Subs;

/// Adds the text of an entry: a line for each packet put out, as a frame in hexadecimal, then one for each record. The
/// lines that it names are those of the subscriptions, as in the history of an exchange. The octets of each frame are put
/// into this memory, whatever it holds.
///
/// # Errors
///
/// Where memory is wanting the text stays as it was.
pub fn write_entry<A: Allocator>(
    subs: &Subs,
    entry: &Entry<A>,
    memory: &mut Vec<u8, A>,
    text: &mut Vec<u8, A>,
) -> Result<(), AllocError>
    requires writable { AreWritable subs.now entry.now.outputs }
    requires lines { HasLines (line_count subs.now) entry.now }
    ensures ok { OnOk result (text.new.items ≡ text.old.items ++ entry_text subs.now entry.now) }
    ensures err { OnErr result (text.new.items ≡ text.old.items) }
{
    let before = text.len();
    match push_entry(subs, entry, memory, text) {
        Ok(()) => Ok(()),
        Err(refused) => {
            text.truncate(before);
            Err(refused)
        }
    }
}

/// Adds the text of an entry, or of the first part of it.
fn push_entry<A: Allocator>(
    subs: &Subs,
    entry: &Entry<A>,
    memory: &mut Vec<u8, A>,
    text: &mut Vec<u8, A>,
) -> Result<(), AllocError>
    requires writable { AreWritable subs.now entry.now.outputs }
    requires lines { HasLines (line_count subs.now) entry.now }
    ensures ok { OnOk result (text.new.items ≡ text.old.items ++ entry_text subs.now entry.now) }
    ensures kept { Keeps text.old.items text.new.items }
{
    push_outputs(subs, entry.outputs.as_slice(), memory, text)?;
    push_records(subs, entry.records.as_slice(), text)
}

fn push_outputs<A: Allocator>(
    subs: &Subs,
    outputs: &[Output<A>],
    memory: &mut Vec<u8, A>,
    text: &mut Vec<u8, A>,
) -> Result<(), AllocError>
    requires writable { AreWritable subs.now outputs.now }
    requires lines { All (λ output. output.line < line_count subs.now) outputs.now }
    ensures ok { OnOk result (text.new.items ≡ text.old.items ++ flat_map (output_text subs.now) outputs.now) }
    ensures kept { Keeps text.old.items text.new.items }
{
    for output in outputs {
        push_output(subs, output, memory, text)?;
    }
    Ok(())
}

fn push_records<A: Allocator>(
    subs: &Subs,
    records: &[Record],
    text: &mut Vec<u8, A>,
) -> Result<(), AllocError>
    requires { All (NamesLines (line_count subs.now)) records.now }
    ensures ok { OnOk result (text.new.items ≡ text.old.items ++ flat_map (record_text subs.now) records.now) }
    ensures kept { Keeps text.old.items text.new.items }
{
    for record in records {
        record.write(subs, text)?;
    }
    Ok(())
}
