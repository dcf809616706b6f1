//! What a writer of call detail records asks of a file.

ghost use Rattle.std.specs.Prelude.{◌≡◌, ◌+◌, ◌<◌, ◌≤◌, ◌++◌, IfOk, MatchResult, OnErr, OnOk, length, take};
ghost use Rattle.xp_cdr.specs.Files.{LosesAnEnd};

use crate::opening::OpenFault;
use std::io;

/// Where a file goes on.
#[derive(Clone, Copy)]
pub enum Place {
    /// In the file that is open.
    Same,
    /// In a new file at the path, from which the one that was open was moved or removed.
    Begun,
}

/// A file to whose end octets are written, or several files, one for each part of time, of which one is open.
pub trait RecordFile: Drop {
    ghost use Rattle.std.specs.Prelude.{ℕ, List};
    ghost use Rattle.xp_cdr.specs.Parts.{OpenFile};

    // All octets that the file has taken since it was opened, in order: what it holds behind its old end. Where new files were begun
    // at its path, or for later parts, it is what all of them have taken, one after the other.
    ghost taken: { Self → List ℕ };

    // The front of them that a good sync covers, with no failed one since they were written.
    ghost synced: { Self → List ℕ };

    // How often the file has failed: how many of its calls have told an error.
    ghost failures: { Self → ℕ };

    // The part of a moment, in seconds since 1970. The records of calls that ended then go to the file of this part.
    ghost part_of: { ℕ → ℕ };

    // The file that is open.
    ghost current: { Self → OpenFile };

    /// The part of a moment, in seconds since 1970.
    fn part_at(&self, moment: u64) -> u64
        ensures { result ≡ part_of moment };

    /// The part of the open file.
    fn open_part(&self) -> u64
        ensures { result ≡ (current self.now).part };

    /// The name of the open file.
    fn name(&self) -> &str;

    /// Writes some of these octets, from the front on, at the end of the file, and tells how many. If there are any, it writes at
    /// least one.
    ///
    /// # Errors
    ///
    /// The file takes none of them.
    fn append(&mut self, octets: &[u8]) -> io::Result<usize>
        ensures bound { IfOk result (λ count. count ≤ length octets.now) }
        ensures some { 0 < length octets.now → IfOk result (λ count. 0 < count) }
        ensures taken { MatchResult result (λ count. taken self.new ≡ taken self.old ++ take count octets.now) (λ _. taken self.new ≡ taken self.old) }
        ensures synced { synced self.new ≡ synced self.old }
        ensures current { current self.new ≡ current self.old }
        ensures failures { MatchResult result (λ _. failures self.new ≡ failures self.old) (λ _. failures self.new ≡ failures self.old + 1) };

    /// Waits until all that the file has taken is on the disk.
    ///
    /// # Errors
    ///
    /// Any end of what was not on the disk may be lost. A later success says nothing of it: cut the file back, and write it again.
    fn sync(&mut self) -> io::Result<()>
        ensures taken { OnOk result (taken self.new ≡ taken self.old) }
        ensures ok { OnOk result (synced self.new ≡ taken self.new) }
        ensures err { OnErr result (synced self.new ≡ synced self.old) }
        ensures lost { OnErr result (LosesAnEnd (synced self.old) (taken self.old) (taken self.new)) }
        ensures current { current self.new ≡ current self.old }
        ensures failures { MatchResult result (λ _. failures self.new ≡ failures self.old) (λ _. failures self.new ≡ failures self.old + 1) };

    /// Opens the file anew, and cuts it back to where the last good sync left it.
    ///
    /// # Errors
    ///
    /// Any end of what was not on the disk may be lost. The file has to be cut back once more.
    fn cut_back(&mut self) -> io::Result<()>
        ensures synced { synced self.new ≡ synced self.old }
        ensures ok { OnOk result (taken self.new ≡ synced self.new) }
        ensures lost { OnErr result (LosesAnEnd (synced self.old) (taken self.old) (taken self.new)) }
        ensures current { current self.new ≡ current self.old }
        ensures failures { MatchResult result (λ _. failures self.new ≡ failures self.old) (λ _. failures self.new ≡ failures self.old + 1) };

    /// Looks whether the file still lies at its path, and begins a new one there if not. All that the file has taken has to be on the
    /// disk, so that nothing of it is written to another file.
    ///
    /// # Errors
    ///
    /// No new file was begun, and the one that is open goes on.
    fn follow(&mut self) -> Result<Place, OpenFault>
        requires { taken self.old ≡ synced self.old }
        ensures taken { taken self.new ≡ taken self.old }
        ensures synced { synced self.new ≡ synced self.old }
        ensures current { current self.new ≡ current self.old }
        ensures failures { MatchResult result (λ _. failures self.new ≡ failures self.old) (λ _. failures self.new ≡ failures self.old + 1) };

    /// Begins the file of a later part, and closes the one that is open for ever. All that the file has taken has to be on the disk.
    ///
    /// # Errors
    ///
    /// No file was begun, and the one that is open goes on.
    fn begin(&mut self, part: u64) -> Result<(), OpenFault>
        requires written { taken self.old ≡ synced self.old }
        requires later { (current self.old).part < part }
        ensures taken { taken self.new ≡ taken self.old }
        ensures synced { synced self.new ≡ synced self.old }
        ensures current { MatchResult result (λ _. current self.new ≡ record { part = part; before = taken self.old }) (λ _. current self.new ≡ current self.old) }
        ensures failures { MatchResult result (λ _. failures self.new ≡ failures self.old) (λ _. failures self.new ≡ failures self.old + 1) };
}
