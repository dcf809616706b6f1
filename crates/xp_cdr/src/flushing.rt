//! Putting several call detail records on the disk, each in the file of its part.

ghost use Rattle.std.specs.Prelude.{◌≡◌, ◌+◌, ◌^◌, ◌≤◌, ◌<◌, ◌∷◌, [], MatchResult, OnOk, drop, length, take};
ghost use Rattle.xp_cdr.specs.steps.Writer.{Advances, IsAt, IsPutUntil, IsSent, IsSentWhole, told_text};

use crate::batch::Batch;
use crate::cut::Cut;
use crate::disk::put_on_disk;
use crate::flush_fault::FlushFault;
use crate::giving::Giving;
use crate::progress::Progress;
use crate::record_file::RecordFile;
use std::io;

/// Puts all of the batch on the disk, from where it is on the disk. Before each cut the file of its part is begun, once all before
/// it is on the disk.
///
/// # Errors
///
/// What a file tells. Then `progress` tells how far the batch is on the disk.
pub fn flush_batch<F: RecordFile>(
    file: &mut F,
    batch: &Batch,
    giving: &Giving,
    progress: &mut Progress,
) -> Result<(), FlushFault>
    requires { IsSent F.part_of (told_text giving.now) giving.now.given.items (F.synced file.old) (F.taken file.old) (F.current file.old) batch.now progress.old }
    ensures sent { IsSent F.part_of (told_text giving.now) giving.now.given.items (F.synced file.new) (F.taken file.new) (F.current file.new) batch.now progress.new }
    ensures advances { Advances batch.now.octets (F.synced file.old) progress.old (F.synced file.new) progress.new }
    ensures whole { OnOk result (IsSentWhole F.part_of (told_text giving.now) giving.now.given.items (F.synced file.new) (F.taken file.new) (F.current file.new) batch.now.part) }
    ensures failures { MatchResult result (λ _. F.failures file.new ≡ F.failures file.old) (λ _. F.failures file.new ≡ F.failures file.old + 1) }
{
    while let Some(cut) = batch.cut(progress.cuts) {
        pass_cut(file, batch, giving, progress, cut)?;
    }
    put_rest(file, batch, giving, progress)
}

/// Puts what is before this cut, the next one, on the disk, and begins the file of its part.
fn pass_cut<F: RecordFile>(
    file: &mut F,
    batch: &Batch,
    giving: &Giving,
    progress: &mut Progress,
    cut: Cut,
) -> Result<(), FlushFault>
    requires sent { IsSent F.part_of (told_text giving.now) giving.now.given.items (F.synced file.old) (F.taken file.old) (F.current file.old) batch.now progress.old }
    requires cut { drop progress.old.cuts batch.now.cuts ≡ cut ∷ drop (progress.old.cuts + 1) batch.now.cuts }
    requires within { progress.old.cuts < length batch.now.cuts }
    requires fits { progress.old.cuts + 1 < 2 ^ 64 }
    ensures sent { IsSent F.part_of (told_text giving.now) giving.now.given.items (F.synced file.new) (F.taken file.new) (F.current file.new) batch.now progress.new }
    ensures advances { Advances batch.now.octets (F.synced file.old) progress.old (F.synced file.new) progress.new }
    ensures passed { OnOk result (progress.new.cuts ≡ progress.old.cuts + 1) }
    ensures failures { MatchResult result (λ _. F.failures file.new ≡ F.failures file.old) (λ _. F.failures file.new ≡ F.failures file.old + 1) }
{
    match put_until(file, batch.octets(), progress, cut) {
        Ok(()) => {}
        Err(error) => return Err(FlushFault::Write(error)),
    }
    match file.begin(cut.part) {
        Ok(()) => {
            progress.cuts += 1;
            Ok(())
        }
        Err(fault) => Err(FlushFault::Begin(fault)),
    }
}

/// Puts what is behind the last cut on the disk.
fn put_rest<F: RecordFile>(
    file: &mut F,
    batch: &Batch,
    giving: &Giving,
    progress: &mut Progress,
) -> Result<(), FlushFault>
    requires sent { IsSent F.part_of (told_text giving.now) giving.now.given.items (F.synced file.old) (F.taken file.old) (F.current file.old) batch.now progress.old }
    requires none { drop progress.old.cuts batch.now.cuts ≡ [] }
    ensures sent { IsSent F.part_of (told_text giving.now) giving.now.given.items (F.synced file.new) (F.taken file.new) (F.current file.new) batch.now progress.new }
    ensures advances { Advances batch.now.octets (F.synced file.old) progress.old (F.synced file.new) progress.new }
    ensures whole { OnOk result (IsSentWhole F.part_of (told_text giving.now) giving.now.given.items (F.synced file.new) (F.taken file.new) (F.current file.new) batch.now.part) }
    ensures failures { MatchResult result (λ _. F.failures file.new ≡ F.failures file.old) (λ _. F.failures file.new ≡ F.failures file.old + 1) }
{
    match put_until(file, batch.octets(), progress, batch.end()) {
        Ok(()) => Ok(()),
        Err(error) => Err(FlushFault::Write(error)),
    }
}

/// Puts the octets before this end on the disk.
fn put_until<F: RecordFile>(
    file: &mut F,
    octets: &[u8],
    progress: &mut Progress,
    end: Cut,
) -> io::Result<()>
    requires within { progress.old.octets ≤ end.octets }
    requires end { end.octets ≤ length octets.now }
    requires at { IsAt (F.synced file.old) (drop progress.old.octets (take end.octets octets.now)) (F.taken file.old) progress.old.taken }
    ensures put { IsPutUntil (F.synced file.old) (drop progress.old.octets (take end.octets octets.now)) progress.old end (F.synced file.new) (F.taken file.new) progress.new result }
    ensures current { F.current file.new ≡ F.current file.old }
    ensures failures { MatchResult result (λ _. F.failures file.new ≡ F.failures file.old) (λ _. F.failures file.new ≡ F.failures file.old + 1) }
{
    let (taken, result) = put_on_disk(file, &octets[progress.octets..end.octets], progress.taken);
    progress.taken = taken;
    match result {
        Ok(()) => {
            progress.octets = end.octets;
            progress.records = end.count;
            Ok(())
        }
        Err(error) => Err(error),
    }
}
