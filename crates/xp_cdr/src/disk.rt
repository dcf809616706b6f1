//! Putting a text at the end of a file, and on the disk.

ghost use Rattle.std.specs.Prelude.{◌≡◌, ◌+◌, ◌++◌, IfOk, MatchResult, OnErr};
ghost use Rattle.xp_cdr.specs.Files.{LosesAnEnd};
ghost use Rattle.xp_cdr.specs.steps.Writer.{IsAt, IsPut, IsSettled};

use crate::append::append_all;
use crate::record_file::RecordFile;
use std::io;

/// Puts the octets at the end of the file, and on the disk. `taken` says how many of them the file has taken since it had none of
/// them. Where a sync has failed since, that is not known: it is `None`. Returns how many it has taken now.
///
/// # Errors
///
/// What the file tells. Then none of them is known to be on the disk.
pub fn put_on_disk<F: RecordFile>(
    file: &mut F,
    octets: &[u8],
    taken: Option<usize>,
) -> (Option<usize>, io::Result<()>)
    requires { IsAt (F.synced file.old) octets.now (F.taken file.old) taken }
    ensures put { IsPut (F.synced file.old) octets.now (F.synced file.new) (F.taken file.new) result.0 result.1 }
    ensures current { F.current file.new ≡ F.current file.old }
    ensures failures { MatchResult result.1 (λ _. F.failures file.new ≡ F.failures file.old) (λ _. F.failures file.new ≡ F.failures file.old + 1) }
{
    let start = match settle(file, taken) {
        Ok(start) => start,
        Err(error) => return (None, Err(error)),
    };
    match append_all(file, &octets[start..]) {
        (_, Ok(())) => sync_all(file, octets),
        (more, Err(error)) => (Some(start + more), Err(error)),
    }
}

/// Cuts the file back where it is not known how many octets it has taken. Returns how many it has taken.
///
/// # Errors
///
/// What the file tells.
fn settle<F: RecordFile>(file: &mut F, taken: Option<usize>) -> io::Result<usize>
    ensures synced { F.synced file.new ≡ F.synced file.old }
    ensures current { F.current file.new ≡ F.current file.old }
    ensures ok { IfOk result (IsSettled (F.synced file.old) (F.taken file.old) (F.taken file.new) taken) }
    ensures err { OnErr result (LosesAnEnd (F.synced file.old) (F.taken file.old) (F.taken file.new)) }
    ensures failures { MatchResult result (λ _. F.failures file.new ≡ F.failures file.old) (λ _. F.failures file.new ≡ F.failures file.old + 1) }
{
    match taken {
        Some(count) => Ok(count),
        None => {
            file.cut_back()?;
            Ok(0)
        }
    }
}

/// Waits until these octets, which the file has taken, are on the disk. Nothing is to be waited for if there are none.
///
/// # Errors
///
/// What the file tells.
fn sync_all<F: RecordFile>(file: &mut F, octets: &[u8]) -> (Option<usize>, io::Result<()>)
    requires { F.taken file.old ≡ F.synced file.old ++ octets.now }
    ensures put { IsPut (F.synced file.old) octets.now (F.synced file.new) (F.taken file.new) result.0 result.1 }
    ensures current { F.current file.new ≡ F.current file.old }
    ensures failures { MatchResult result.1 (λ _. F.failures file.new ≡ F.failures file.old) (λ _. F.failures file.new ≡ F.failures file.old + 1) }
{
    if octets.is_empty() {
        return (Some(0), Ok(()));
    }
    match file.sync() {
        Ok(()) => (Some(0), Ok(())),
        Err(error) => (None, Err(error)),
    }
}
