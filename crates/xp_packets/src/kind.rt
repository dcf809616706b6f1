//! The packet type identifier (X.25 clause 5.1, table 5-2).

ghost use Rattle.std.specs.Prelude.{◌≡◌};
ghost use Rattle.xp_packets.specs.Kinds.{kind_of, octet_of, whole_kind_of, without_number};

use crate::modulus::Modulus;

/// The kinds of packets. The type octet of a data packet has P(S). Modulo 8 the type octets of the last four kinds have
/// P(R), and that of a data packet has the M bit.
#[derive(Clone, Copy)]
pub(crate) enum Kind {
    Call,
    Accepted,
    Clear,
    ClearConfirm,
    Interrupt,
    InterruptConfirm,
    Reset,
    ResetConfirm,
    Data,
    Ready,
    NotReady,
    Reject,
}

impl Kind {
    /// The kind that the type octet gives, if there is one.
    #[tactic(auto, unfolding(crate::specs::Kinds::kind_of))]
    pub(crate) fn of(modulus: Modulus, octet: u8) -> Option<Kind>
        ensures { result ≡ kind_of modulus octet }
    {
        if octet & 1 == 0 {
            return Some(Kind::Data);
        }
        match without_number(modulus, octet) {
            0x01 => Some(Kind::Ready),
            0x05 => Some(Kind::NotReady),
            0x09 => Some(Kind::Reject),
            _ => Kind::of_whole(octet),
        }
    }

    /// The kind of a type octet that carries no numbers.
    #[tactic(auto, unfolding(crate::specs::Kinds::whole_kind_of))]
    fn of_whole(octet: u8) -> Option<Kind>
        ensures { result ≡ whole_kind_of octet }
    {
        match octet {
            0x0b => Some(Kind::Call),
            0x0f => Some(Kind::Accepted),
            0x13 => Some(Kind::Clear),
            0x17 => Some(Kind::ClearConfirm),
            0x23 => Some(Kind::Interrupt),
            0x27 => Some(Kind::InterruptConfirm),
            0x1b => Some(Kind::Reset),
            0x1f => Some(Kind::ResetConfirm),
            _ => None,
        }
    }

    /// The type octet, with zero where it carries numbers.
    pub(crate) fn octet(self) -> u8
        ensures { result ≡ octet_of self }
    {
        match self {
            Kind::Call => 0x0b,
            Kind::Accepted => 0x0f,
            Kind::Clear => 0x13,
            Kind::ClearConfirm => 0x17,
            Kind::Interrupt => 0x23,
            Kind::InterruptConfirm => 0x27,
            Kind::Reset => 0x1b,
            Kind::ResetConfirm => 0x1f,
            Kind::Data => 0x00,
            Kind::Ready => 0x01,
            Kind::NotReady => 0x05,
            Kind::Reject => 0x09,
        }
    }
}

/// The type octet of a flow control packet without the P(R) that it carries modulo 8.
fn without_number(modulus: Modulus, octet: u8) -> u8
    ensures { result ≡ without_number modulus octet }
{
    match modulus {
        Modulus::Eight => octet & 0x1f,
        Modulus::Long => octet,
    }
}
