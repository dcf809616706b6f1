//! The subscription file of an exchange that serves.

ghost use Rattle.std.specs.Prelude.{◌≡◌, IfOk, Some, string_bytes};
ghost use Rattle.std.specs.IoError.{error_kind};
ghost use Rattle.std.specs.Result.{result_map_both};
ghost use Rattle.xp_renewal.specs.steps.Laid.{IsLaidFrom};

use crate::not_read::NotRead;
use crate::telling::changes_told;
use std::alloc::{AllocGlobal, Global};
use std::fs::{File, Files};
use std::{fs, io};
use xp_changes::lay_text;
use xp_commands::subscriptions_of;
use xp_serve::OfferedSubs;
use xp_sink::NextSubs;
use xp_subs::{LayFault, Subs};

/// The subscription file of an exchange that serves, and the subscriptions in force.
pub struct SubscriptionFile<R> {
    rt: R,
    path: String,
    pub(crate) in_force: Subs,
}

/// Subscriptions that were read, and what an operator is told of them once they are in force.
#[derive(Drop)]
pub(crate) struct ReadSubs {
    pub(crate) subs: Subs,
    pub(crate) told: String,
}

impl<R: Drop> Drop for SubscriptionFile<R> {
    fn drop(self) {
        let SubscriptionFile {
            rt: _,
            path: _,
            in_force: _,
        } = self;
    }
}

impl<R> SubscriptionFile<R> {
    /// The file at this path, of which these subscriptions are in force.
    pub fn new(rt: R, path: String, in_force: Subs) -> SubscriptionFile<R>
        ensures { result.in_force ≡ in_force }
    {
        SubscriptionFile { rt, path, in_force }
    }
}

impl<R: AllocGlobal + Files<File = File>> SubscriptionFile<R> {
    /// What the file has.
    pub(crate) fn text(&self) -> io::Result<String> {
        fs::read_to_string(&self.rt, self.path.as_str())
    }

    /// The subscriptions of this text, laid over those in force, and what they change, where they may come into force while the
    /// exchange serves.
    pub(crate) fn read(&self, alloc: Global, text: &io::Result<String>) -> Result<ReadSubs, NotRead>
        ensures { IfOk result (λ read. IsLaidFrom self.now.in_force (result_map_both string_bytes error_kind text.now) read.subs) }
    {
        let next = subscriptions_of(&self.rt, &self.path, text)?;
        match self.in_force.laid_over(alloc, next) {
            Ok(subs) => {
                let told = changes_told(alloc, &self.in_force, &subs)?;
                Ok(ReadSubs { subs, told })
            }
            Err(fault) => Err(not_laid(alloc, &fault)),
        }
    }

    /// Those that were read from this text, once for each who needs them.
    pub(crate) fn copies(
        &self,
        alloc: Global,
        text: &io::Result<String>,
        read: &ReadSubs,
        moment: u64,
    ) -> Result<OfferedSubs, NotRead>
        requires { IsLaidFrom self.now.in_force (result_map_both string_bytes error_kind text.now) read.now.subs }
        ensures next { IfOk result (λ offered. offered.next.subs ≡ read.now.subs) }
        ensures names { IfOk result (λ offered. offered.names ≡ read.now.subs) }
        ensures live { IfOk result (λ offered. offered.live ≡ Some read.now.subs) }
    {
        let subs = self.copy(alloc, text, &read.subs)?;
        let names = self.copy(alloc, text, &read.subs)?;
        let live = self.copy(alloc, text, &read.subs)?;
        Ok(OfferedSubs {
            next: NextSubs { subs, moment },
            names,
            live: Some(live),
        })
    }

    /// The subscriptions of this text once more, which are laid over those that were read from it: each line has its place there.
    fn copy(&self, alloc: Global, text: &io::Result<String>, laid: &Subs) -> Result<Subs, NotRead>
        requires { IsLaidFrom self.now.in_force (result_map_both string_bytes error_kind text.now) laid.now }
        ensures { IfOk result (λ copy. copy ≡ laid.now) }
    {
        let next = subscriptions_of(&self.rt, &self.path, text)?;
        // The contract of these calls says that subscriptions are sound.
        let _ = (next.counts(), laid.counts());
        match laid.laid_over(alloc, next) {
            Ok(copy) => {
                let _ = copy.counts();
                Ok(copy)
            }
            Err(fault) => Err(not_laid(alloc, &fault)),
        }
    }
}

/// Why lines have no places.
fn not_laid(alloc: Global, fault: &LayFault) -> NotRead {
    match lay_text(alloc, fault) {
        Ok(told) => NotRead::NeedsStop(told),
        Err(refused) => NotRead::from(refused),
    }
}
