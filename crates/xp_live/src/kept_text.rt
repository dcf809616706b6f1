//! A text of live calls that was made of what was seen of the exchange.

ghost use Rattle.std.specs.Prelude.{◌≡◌, [], IfOk};
ghost use Rattle.xp_live.specs.Kept.{AreSeen, IsKept, Naming};
ghost use Rattle.xp_live.specs.LiveText.{live_text as live_text_of};

use crate::text::live_text;
use std::alloc::{AllocError, Global};
use std::marker::Model;
use xp_cdr::{EndedCall, ExchangeRun};

/// The text of a file of live calls: the names of the fields, and the partial records of the calls that were seen to be live at one
/// moment. Contracts see its octets.
#[derive(Drop)]
pub struct KeptText {
    octets: Vec<u8>,
}

impl Model for KeptText {
    ghost use Rattle.std.specs.Prelude.{List, ℕ};
    ghost use Rattle.xp_live.specs.Kept.{IsKept};

    ghost Value = { List ℕ };

    ghost view = { λ text. text.octets.items };

    ghost invariant = { λ text. IsKept text.octets.items };
}

impl KeptText {
    /// The text without a call.
    ///
    /// # Errors
    ///
    /// `AllocError` if an allocation fails.
    pub fn empty(alloc: Global, run: &ExchangeRun) -> Result<KeptText, AllocError>
        ensures { IfOk result (λ text. text ≡ live_text_of run.now []) }
    {
        let octets = live_text(alloc, run, &[])?;
        Ok(KeptText { octets })
    }

    /// The text of these calls, which were seen to be live.
    ///
    /// # Errors
    ///
    /// `AllocError` if an allocation fails.
    pub fn of(alloc: Global, run: &ExchangeRun, calls: &[EndedCall]) -> Result<KeptText, AllocError>
        requires { (naming : Naming) × AreSeen naming calls.now }
        ensures { IfOk result (λ text. text ≡ live_text_of run.now calls.now) }
    {
        let octets = live_text(alloc, run, calls)?;
        Ok(KeptText { octets })
    }

    pub fn as_slice(&self) -> &[u8]
        ensures text { result.now ≡ self.now }
        ensures kept { IsKept result.now }
    {
        self.octets.as_slice()
    }
}
