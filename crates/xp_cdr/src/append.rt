//! Writing all of a text to the end of a file.

ghost use Rattle.std.specs.Prelude.{◌≡◌, ◌+◌, ◌≤◌, ◌++◌, MatchResult, OnOk, length, take};

use crate::record_file::RecordFile;
use std::io;

/// Offers the octets to the file until it has taken all of them. Returns how many it has taken, from the front on.
///
/// # Errors
///
/// What the file tells.
pub fn append_all<F: RecordFile>(file: &mut F, octets: &[u8]) -> (usize, io::Result<()>)
    ensures bound { result.0 ≤ length octets.now }
    ensures taken { F.taken file.new ≡ F.taken file.old ++ take result.0 octets.now }
    ensures synced { F.synced file.new ≡ F.synced file.old }
    ensures current { F.current file.new ≡ F.current file.old }
    ensures all { OnOk result.1 (result.0 ≡ length octets.now) }
    ensures failures { MatchResult result.1 (λ _. F.failures file.new ≡ F.failures file.old) (λ _. F.failures file.new ≡ F.failures file.old + 1) }
{
    let mut taken = 0;
    while taken < octets.len() {
        match file.append(&octets[taken..]) {
            Ok(count) => taken += count,
            Err(error) => return (taken, Err(error)),
        }
    }
    (taken, Ok(()))
}
