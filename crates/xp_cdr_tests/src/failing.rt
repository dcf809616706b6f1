//! A file that fails.

ghost use Rattle.std.specs.Prelude.{◌≡◌, ◌+◌, ◌<◌, ◌++◌, [], length};

use crate::calls::{LINE, THE_26TH};
use std::alloc::Global;
use std::io;
use std::io::{Error, ErrorKind};
use xp_cdr::{OpenFault, Place, RecordFile};
use xp_past::Past;

/// How such a file fails: some of its calls, one after the other, from one on. The first call has number 1.
#[derive(Clone, Copy)]
pub struct Failing {
    pub from: u64,
    pub calls: u64,
    /// The most octets that a failed sync leaves of those that were not on the disk.
    pub leaves: usize,
}

/// A file in memory, which fails at some of its calls, and takes few octets at a time.
#[derive(Drop)]
pub struct FailingFile {
    /// What is on the disk, and what it has taken behind it.
    pub synced: Vec<u8>,
    pub behind: Vec<u8>,
    failures: Past<ErrorKind>,
    /// The most octets that it takes at a time.
    most: usize,
    ghost takes_some: { 0 < most },
    failing: Failing,
    /// How often it was called, it was cut back, and a new one was begun at its path.
    pub calls: u64,
    pub cuts: u64,
    pub begun: u64,
    /// The day of the open file. Of the days that were begun, three digits for each: how many days it is after the 26th, and how many
    /// call detail records were on the disk then.
    day: u64,
    pub days: u64,
    before: Past<u8>,
}

impl FailingFile {
    pub fn new(alloc: Global, most: usize, failing: Failing) -> FailingFile
        requires { 0 < most }
        ensures synced { result.synced.items ≡ [] }
        ensures behind { result.behind.items ≡ [] }
        ensures before { result.before.items ≡ [] }
        ensures failures { result.failures.items ≡ [] }
    {
        FailingFile {
            synced: Vec::new(alloc),
            behind: Vec::new(alloc),
            failures: Past::new(),
            most,
            failing,
            calls: 0,
            cuts: 0,
            begun: 0,
            day: THE_26TH,
            days: 0,
            before: Past::new(),
        }
    }

    /// Counts a call, and tells whether it fails.
    fn fails(&mut self) -> bool
        ensures synced { self.new.synced ≡ self.old.synced }
        ensures behind { self.new.behind ≡ self.old.behind }
        ensures day { self.new.day ≡ self.old.day }
        ensures before { self.new.before ≡ self.old.before }
        ensures failures { self.new.failures ≡ self.old.failures }
    {
        self.calls = self.calls.saturating_add(1);
        let end = self.failing.from.saturating_add(self.failing.calls);
        self.failing.from <= self.calls && self.calls < end
    }

    /// All that it has taken.
    fn so_far(&self) -> Past<u8>
        ensures { result.items ≡ self.now.synced.items ++ self.now.behind.items }
    {
        let mut all = Past::new();
        all.extend(self.synced.as_slice());
        all.extend(self.behind.as_slice());
        all
    }

    /// Notes a failure of this kind, and tells it.
    fn failure(&mut self, kind: ErrorKind) -> Error
        ensures synced { self.new.synced ≡ self.old.synced }
        ensures behind { self.new.behind ≡ self.old.behind }
        ensures day { self.new.day ≡ self.old.day }
        ensures before { self.new.before ≡ self.old.before }
        ensures failures { length self.new.failures.items ≡ length self.old.failures.items + 1 }
    {
        self.failures.push(&kind);
        Error::from(kind)
    }
}

impl RecordFile for FailingFile {
    ghost use Rattle.std.specs.Prelude.{◌/◌};

    ghost taken = { λ file. file.synced.items ++ file.behind.items };

    ghost synced = { λ file. file.synced.items };

    ghost failures = { λ file. length file.failures.items };

    ghost part_of = { λ moment. moment / 86400 };

    ghost current = { λ file. record { part = file.day; before = file.before.items } };

    fn part_at(&self, moment: u64) -> u64 {
        moment / 86_400
    }

    fn open_part(&self) -> u64 {
        self.day
    }

    fn name(&self) -> &str {
        "a file"
    }

    fn append(&mut self, octets: &[u8]) -> io::Result<usize> {
        if self.fails() {
            return Err(self.failure(ErrorKind::StorageFull));
        }
        let count = octets.len().min(self.most);
        match self.behind.extend_from_slice(&octets[..count]) {
            Ok(()) => Ok(count),
            Err(_) => Err(self.failure(ErrorKind::OutOfMemory)),
        }
    }

    fn sync(&mut self) -> io::Result<()> {
        if self.fails() {
            let left = self.behind.len().min(self.failing.leaves);
            self.behind.truncate(left);
            return Err(self.failure(ErrorKind::Other));
        }
        match self.synced.extend_from_slice(self.behind.as_slice()) {
            Ok(()) => {
                self.behind.clear();
                Ok(())
            }
            Err(_) => Err(self.failure(ErrorKind::OutOfMemory)),
        }
    }

    fn cut_back(&mut self) -> io::Result<()> {
        if self.fails() {
            return Err(self.failure(ErrorKind::NotFound));
        }
        self.cuts = self.cuts.saturating_add(1);
        self.behind.clear();
        Ok(())
    }

    fn follow(&mut self) -> Result<Place, OpenFault> {
        if self.fails() {
            return Err(OpenFault::Open(self.failure(ErrorKind::PermissionDenied)));
        }
        self.begun = self.begun.saturating_add(1);
        Ok(Place::Begun)
    }

    fn begin(&mut self, part: u64) -> Result<(), OpenFault> {
        if self.fails() {
            return Err(OpenFault::Open(self.failure(ErrorKind::PermissionDenied)));
        }
        let later = part.saturating_sub(THE_26TH).saturating_mul(100);
        let records = (self.synced.len() / LINE) as u64;
        let days = self.days.saturating_mul(1_000);
        self.days = days.saturating_add(later).saturating_add(records);
        self.day = part;
        self.before = self.so_far();
        Ok(())
    }
}
