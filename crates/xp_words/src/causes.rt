//! Causes and diagnostics in words.

ghost use Rattle.std.specs.Prelude.{◌≡◌, option_map};
ghost use Rattle.xp_words.specs.Causes.{cause_text, diagnostic_text};
ghost use Rattle.xp_words.specs.Names.{cause_name, clearing_causes, diagnostics, name_in, resetting_causes};

use crate::names::{clearing_cause_name, diagnostic_name, resetting_cause_name};
use crate::octets::HexOctet;
use std::fmt::{self, Display};

/// A clearing cause (X.25 clause 5.2.4). Its text is the code in hexadecimal and the name, such as `09 out of order`, or the
/// code alone where it has no name.
#[derive(Clone, Copy)]
pub struct ClearingCause(pub u8);

impl ClearingCause {
    /// The name, if there is one. A cause from 0x80 is one that a DTE chose itself.
    pub fn name(self) -> Option<&'static str>
        ensures { option_map (λ name. name.now) result ≡ cause_name clearing_causes self.0 }
    {
        clearing_cause_name(self.0)
    }
}

impl Display for ClearingCause {
    ghost use Rattle.std.specs.Prelude.{Some};

    ghost output = { λ cause. Some (cause_text clearing_causes cause.0) };

    fn fmt<W: fmt::Write>(&self, f: &mut fmt::Formatter<W>) -> fmt::Result {
        let code = HexOctet(self.0);
        match self.name() {
            Some(name) => write!(f, "{code} {name}"),
            None => code.fmt(f),
        }
    }
}

/// A resetting cause (X.25 clause 5.4.3). Its text is like that of a clearing cause.
#[derive(Clone, Copy)]
pub struct ResettingCause(pub u8);

impl ResettingCause {
    /// The name, if there is one. A cause from 0x80 is one that a DTE chose itself.
    pub fn name(self) -> Option<&'static str>
        ensures { option_map (λ name. name.now) result ≡ cause_name resetting_causes self.0 }
    {
        resetting_cause_name(self.0)
    }
}

impl Display for ResettingCause {
    ghost use Rattle.std.specs.Prelude.{Some};

    ghost output = { λ cause. Some (cause_text resetting_causes cause.0) };

    fn fmt<W: fmt::Write>(&self, f: &mut fmt::Formatter<W>) -> fmt::Result {
        let code = HexOctet(self.0);
        match self.name() {
            Some(name) => write!(f, "{code} {name}"),
            None => code.fmt(f),
        }
    }
}

/// A diagnostic (X.25 Annex E). Its text is the code in decimal and the name, such as `39 packet too long`, or the code
/// alone where it has no name.
#[derive(Clone, Copy)]
pub struct Diagnostic(pub u8);

impl Diagnostic {
    /// The name, if there is one.
    pub fn name(self) -> Option<&'static str>
        ensures { option_map (λ name. name.now) result ≡ name_in diagnostics self.0 }
    {
        diagnostic_name(self.0)
    }
}

impl Display for Diagnostic {
    ghost use Rattle.std.specs.Prelude.{Some};

    ghost output = { λ diagnostic. Some (diagnostic_text diagnostic.0) };

    fn fmt<W: fmt::Write>(&self, f: &mut fmt::Formatter<W>) -> fmt::Result {
        let code = self.0;
        match self.name() {
            Some(name) => write!(f, "{code} {name}"),
            None => write!(f, "{code}"),
        }
    }
}

/// A diagnostic, if there is one.
#[derive(Clone, Copy)]
pub(crate) struct OptionalDiagnostic(pub(crate) Option<u8>);

impl Display for OptionalDiagnostic {
    ghost use Rattle.std.specs.Prelude.{Some};
    ghost use Rattle.xp_words.specs.Packets.{optional_diagnostic_text};

    ghost output = { λ diagnostic. Some (optional_diagnostic_text diagnostic.0) };

    fn fmt<W: fmt::Write>(&self, f: &mut fmt::Formatter<W>) -> fmt::Result {
        match self.0 {
            None => Ok(()),
            Some(code) => write!(f, ", diagnostic {}", Diagnostic(code)),
        }
    }
}
