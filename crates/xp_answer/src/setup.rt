ghost use Rattle.std.specs.Prelude.{◌≡◌};
ghost use Rattle.xp_decide.specs.Indicated.{IndicatesSizes};
ghost use Rattle.xp_answer.specs.Setup.{payer_of, setup_of};
ghost use Rattle.xp_answer.specs.Terms.{AreTerms};
ghost use Rattle.xp_packets.specs.declared.modulus.Modulus.{Modulus};

use crate::terms::Terms;
use std::alloc::Allocator;
use xp_decide::IncomingCall;
use xp_facilities::{FastSelect, Reason};
use xp_packets::End;

/// What the exchange stores of the set-up of a call.
#[derive(Clone, Copy, Default, PartialEq, Eq)]
pub struct Setup {
    /// The sizes that the incoming call indicated.
    pub indicated: Terms,
    /// The fast select of the call.
    pub fast: FastSelect,
    /// The throughput class that the caller requested.
    pub throughput: Option<u8>,
    /// Why the call was first redirected, if it was.
    pub reason: Option<Reason>,
    /// The end that pays.
    pub payer: End,
    /// Whether the caller requests charging information.
    pub charging: bool,
}

impl Setup {
    /// What is stored of a call when its incoming call is sent to a line.
    pub fn of<A: Allocator>(ring: &IncomingCall<A>) -> Setup
        ensures kept { result ≡ setup_of ring.now }

        // Sizes that an incoming call may indicate for a line are sizes that a call of that line may have.
        ensures terms { (modulus : Modulus) → IndicatesSizes modulus ring.now.told → AreTerms modulus result.indicated }
    {
        Setup {
            indicated: Terms::indicated_by(&ring.told),
            fast: ring.asked.fast,
            throughput: ring.asked.throughput,
            reason: ring.reason,
            payer: payer(ring.asked.reverse),
            charging: ring.asked.charging,
        }
    }
}

/// The end that pays for a call with or without reverse charging (X.25 clause 6.18).
fn payer(reverse: bool) -> End
    ensures { result ≡ payer_of reverse }
{
    if reverse { End::Called } else { End::Caller }
}
