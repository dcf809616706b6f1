ghost use Rattle.std.specs.Prelude.{◌≡◌, IfOk};
ghost use Rattle.xp_answer.specs.Answered.{Accepts, Connects, Names, outputs_of_answer};
ghost use Rattle.xp_answer.specs.Terms.{AreTerms};
ghost use Rattle.xp_packets.specs.declared.modulus.Modulus.TheVariants.{Long};

use crate::answer::CallAccepted;
use crate::block::user_in;
use crate::field::field_of;
use crate::setup::Setup;
use crate::terms::Terms;
use std::alloc::{AllocError, Allocator, Global};
use xp_facilities::{FastSelect, IndicatedFacilities, Reason, RequestedFacilities, Selection};
use xp_packets::{Block, Digits, Packet};

/// A call that the called line has accepted.
#[derive(Drop)]
pub struct Connection<A: Allocator = Global> {
    /// The call connected packet, for the caller.
    pub packet: Packet<A>,
    /// The packet and window sizes of the call.
    pub terms: Terms,
    /// Whether the called line requests charging information.
    pub charging: bool,
}

/// Connects the call. The answer has been accepted, and requests `asked`.
///
/// # Errors
///
/// An allocation failed.
pub fn connect<A: Allocator + Copy>(
    alloc: A,
    setup: &Setup,
    address: &Digits,
    dialled: &Digits,
    accepted: &CallAccepted<'_, A>,
    asked: RequestedFacilities<A>,
) -> Result<Connection<A>, AllocError>
    requires terms { AreTerms Long setup.now.indicated }
    requires accepts { Accepts setup.now accepted.now.block.now asked }
    ensures { IfOk result (Connects setup.now address.now dialled.now accepted.now.d accepted.now.block.now asked) }
{
    let terms = setup.indicated.settled(&asked);
    let charging = asked.charging;
    let (called, modified) = names(address, dialled, setup.reason);
    let facilities = field_of(alloc, &tell(setup, modified, asked))?;
    let user = user_in(alloc, accepted.block)?;
    Ok(Connection {
        packet: Packet::Accepted {
            d: accepted.d,
            block: Some(Block {
                called,
                calling: Digits::new(),
                facilities,
                user,
            }),
        },
        terms,
        charging,
    })
}

/// What the caller learns of the called line: nothing if the line has the dialled address, otherwise its address, and
/// why it is not the dialled one (X.25 clause 6.26).
fn names(address: &Digits, dialled: &Digits, reason: Option<Reason>) -> (Digits, Option<Reason>)
    ensures { Names address.now dialled.now reason result.0 result.1 }
{
    if address == dialled {
        (Digits::new(), None)
    } else {
        (address.copy(), Some(reason.unwrap_or(Reason::Distribution)))
    }
}

/// The facilities of the call connected packet.
fn tell<A: Allocator>(
    setup: &Setup,
    modified: Option<Reason>,
    asked: RequestedFacilities<A>,
) -> IndicatedFacilities<A>
    ensures { result ≡ outputs_of_answer setup.now modified asked }
{
    let terms = setup.indicated.settled(&asked);
    IndicatedFacilities {
        selection: Selection::Nothing,
        fast: FastSelect::No,
        reverse: false,
        throughput: asked.throughput.or(setup.throughput),
        modified,
        packet: Some(terms.packet),
        window: Some(terms.window),
        redirected: None,
        duration: None,
        segments: None,
        dte: asked.dte,
    }
}
