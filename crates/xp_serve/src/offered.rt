//! Other subscriptions that an operator asks for while the exchange serves.

ghost use Rattle.std.specs.Prelude.{◌≡◌, ◌↔◌, IfOk, IsOk, OnErr, OnOk, Some};
ghost use Rattle.xp_subs.specs.Tables.{Tables};

use std::alloc::Global;
use xp_sink::{NextSubs, NotInForce};
use xp_subs::Subs;

/// Other subscriptions that are to come into force, once for the exchange and once for each who tells lines and addresses by them.
#[derive(Drop)]
pub struct OfferedSubs {
    /// Those of the exchange.
    pub next: NextSubs,
    /// Those that records are told by.
    pub names: Subs,
    /// Those that the live calls are told by, unless who keeps these has taken them.
    pub live: Option<Subs>,
}

/// Where other subscriptions come from while the exchange serves, and what an operator is told of them.
pub trait SubsSource: Drop {
    ghost use Rattle.xp_subs.specs.Tables.{Tables};

    // The subscriptions in force, as far as it was told.
    ghost in_force: { Self → Tables };

    // It has read these last.
    ghost has_read: { Self → Tables → Type 0 };

    /// Reads other subscriptions, to come into force at this moment, in seconds since 1970.
    ///
    /// # Errors
    ///
    /// Why they cannot be had, as an operator is told. The text is empty where there is no memory for it.
    fn read(&mut self, alloc: Global, moment: u64) -> Result<OfferedSubs, String>
        ensures next { IfOk result (λ offered. has_read self.new offered.next.subs) }
        ensures names { IfOk result (λ offered. offered.names ≡ offered.next.subs) }
        ensures live { IfOk result (λ offered. offered.live ≡ Some offered.next.subs) }
        ensures in_force { in_force self.new ≡ in_force self.old };

    /// Takes the ports and the connections from the lines that go by those that it read last, which are in force now. What is told of
    /// them is told by the names of before.
    fn let_go(&mut self)
        ensures read { (next : Tables) → has_read self.old next → has_read self.new next }
        ensures in_force { in_force self.new ≡ in_force self.old };

    /// Takes note of what became of those that it read last, and returns what an operator is told: what they change. Where they are in
    /// force, their lines are connected by them from now on.
    ///
    /// # Errors
    ///
    /// Why they are not in force, as an operator is told. The text is empty where there is no memory for it.
    fn take_note(
        &mut self,
        alloc: Global,
        outcome: Result<(), NotInForce>,
    ) -> Result<String, String>
        ensures told { IsOk result ↔ IsOk outcome }
        ensures ok { OnOk outcome ((next : Tables) → has_read self.old next → in_force self.new ≡ next) }
        ensures err { OnErr outcome (in_force self.new ≡ in_force self.old) };

    /// Returns the subscriptions in force.
    fn subs(&self) -> &Subs
        ensures { result.now ≡ in_force self.now };
}
