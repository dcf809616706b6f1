//! Subscriptions that a script may bring into force, by their names.

ghost use Rattle.std.specs.Prelude.{◌≡◌, ◌≢◌, ◌<◌, IfErr, IfOk, IfSome, Err, Ok, length};
ghost use Rattle.xp_file.specs.declared.fault.SubscriptionFault.TheVariants.{Memory as OutOfMemory};
ghost use Rattle.xp_script.specs.NamedText.{CannotLay, LaysOver, number_named};
ghost use Rattle.xp_subs.specs.Built.{SetsUp};
ghost use Rattle.xp_subs.specs.Tables.{same};
ghost use Rattle.xp_subs.specs.declared.laid.LayFault.TheVariants.{Memory as NoMemory};

use std::alloc::{AllocError, Global};
use std::marker::Model;
use xp_subs::{LayFault, Subs, SubscriptionFault};

/// Subscriptions that a line of a script may bring into force: their name, and the text of a subscription file. They are read
/// from the text whenever they are brought.
#[derive(Drop)]
pub struct NamedTables<'a> {
    alloc: Global,
    name: &'a str,
    text: &'a str,
}

impl<'a> Model for NamedTables<'a> {
    ghost use Rattle.xp_script.specs.NamedText.{NamedText};

    ghost Value = { NamedText };

    ghost view = { λ named. record { name = named.name.now; text = named.text.now } };
}

impl<'a> NamedTables<'a> {
    /// The subscriptions of this name that a text sets up.
    ///
    /// # Errors
    ///
    /// The first fault of the text, or want of memory.
    pub fn new(
        alloc: Global,
        name: &'a str,
        text: &'a str,
    ) -> Result<NamedTables<'a>, SubscriptionFault>
        ensures named { IfOk result (λ named. named ≡ record { name = name.now; text = text.now }) }
        ensures refused { IfErr result (λ fault. fault ≢ OutOfMemory → SetsUp text.now (Err fault)) }
    {
        match Subs::read(alloc, text) {
            Ok(_subs) => Ok(NamedTables { alloc, name, text }),
            Err(fault) => Err(fault),
        }
    }

    /// Their name.
    pub fn name(&self) -> &str
        ensures { result.now ≡ self.now.name }
    {
        self.name
    }

    /// Whether this is their name.
    fn is_named(&self, name: &[u8]) -> bool
        ensures { result ≡ same self.now.name name.now }
    {
        self.name.as_bytes() == name
    }

    /// Reads them from their text.
    ///
    /// # Errors
    ///
    /// Memory is wanting: the text was read before.
    pub fn read(&self) -> Result<Subs, AllocError>
        ensures { IfOk result (λ subs. SetsUp self.now.text (Ok subs)) }
    {
        match Subs::read(self.alloc, self.text) {
            Ok(subs) => Ok(subs),
            Err(_) => Err(AllocError),
        }
    }

    /// Reads them from their text, and lays their lines over the places of those in force.
    ///
    /// # Errors
    ///
    /// Why a line has no place; or memory is wanting.
    pub fn laid_over(&self, force: &Subs) -> Result<Subs, LayFault>
        ensures laid { IfOk result (LaysOver self.now.text force.now) }
        ensures refused { IfErr result (λ fault. fault ≢ NoMemory → CannotLay self.now.text force.now fault) }
    {
        let next = self.read()?;
        force.laid_over(self.alloc, next)
    }
}

/// The number of the first subscriptions with this name.
pub(crate) fn number_named(named: &[NamedTables<'_>], name: &[u8]) -> Option<usize>
    ensures found { result ≡ number_named named.now name.now }
    ensures known { IfSome result (λ number. number < length named.now) }
{
    named.iter().position(|tables| tables.is_named(name))
}
