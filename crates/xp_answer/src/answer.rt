ghost use Rattle.std.specs.Prelude.{◌≡◌, ◌≤◌, length, false, IsTrue, IfOk};
ghost use Rattle.xp_answer.specs.Answered.{Answered, IfConnected, MayCarry, MayNotCarry};
ghost use Rattle.xp_answer.specs.Blocks.{user_in};
ghost use Rattle.xp_answer.specs.steps.Examined.{Examines};
ghost use Rattle.xp_answer.specs.Fields.{CanBeSent};
ghost use Rattle.xp_answer.specs.Terms.{AreTerms, AreSettled};
ghost use Rattle.xp_packets.specs.declared.modulus.Modulus.{Modulus};
ghost use Rattle.xp_packets.specs.declared.modulus.Modulus.TheVariants.{Long};

use crate::block::{facilities_in, has_user_data};
use crate::connection::{Connection, connect};
use crate::fault::AnswerFault;
use crate::setup::Setup;
use std::alloc::{AllocError, Allocator, Global};
use xp_causes::diagnostic;
use xp_facilities::{FastSelect, RequestedFacilities, parse};
use xp_packets::{Block, Digits};

/// A call accepted packet.
#[derive(Drop)]
pub struct CallAccepted<'a, A: Allocator = Global> {
    pub d: bool,
    pub block: &'a Option<Block<A>>,
}

/// The outcome of the answer to an incoming call.
#[derive(Drop)]
pub enum Answer<A: Allocator = Global> {
    /// The call is connected.
    Connected(Connection<A>),
    /// The answer is a procedure error of the called line. The call is cleared at both ends with this diagnostic
    /// (X.25 Annex E).
    Refused(u8),
}

/// Examines the answer of the line with the address `address` to a call to `dialled`.
///
/// The first of these faults refuses the answer: the call has restricted fast select, so that the called line may
/// only clear it; the facility field is faulty; there is user data without fast select; a size was not offered.
///
/// # Errors
///
/// An allocation failed.
pub fn examine<A: Allocator + Copy>(
    alloc: A,
    setup: &Setup,
    address: &Digits,
    dialled: &Digits,
    accepted: &CallAccepted<'_, A>,
) -> Result<Answer<A>, AllocError>
    requires { AreTerms Long setup.now.indicated }
    ensures answered { IfOk result (Answered setup.now address.now dialled.now accepted.now.d accepted.now.block.now) }

    // Each size of the call is between the one that was indicated and the default. So a line of modulo 8 agrees to no
    // window over 7.
    ensures settled { IfOk result (λ answer. IfConnected answer (λ c. (modulus : Modulus)
        → AreTerms modulus setup.now.indicated → AreSettled modulus setup.now.indicated c.terms)) }

    // If there are at most 128 octets of user data, the call connected packet can be encoded.
    ensures sent { length (user_in accepted.now.block.now) ≤ 128 → IfOk result (λ answer. IfConnected answer (λ c. CanBeSent c.packet)) }
{
    match accept(alloc, setup, accepted.block) {
        Ok(asked) => {
            let connection = connect(alloc, setup, address, dialled, accepted, asked)?;
            Ok(Answer::Connected(connection))
        }
        Err(AnswerFault::Refused(diagnostic)) => Ok(Answer::Refused(diagnostic)),
        Err(AnswerFault::Memory) => Err(AllocError),
    }
}

/// Reads the facilities that the answer requests.
///
/// # Errors
///
/// A failed allocation, or the first fault of the answer.
fn accept<A: Allocator + Copy>(
    alloc: A,
    setup: &Setup,
    block: &Option<Block<A>>,
) -> Result<RequestedFacilities<A>, AnswerFault>
    ensures { Examines setup.now block.now result }
{
    if setup.fast == FastSelect::Restricted {
        return Err(AnswerFault::Refused(diagnostic::NOT_COMPATIBLE_WITH_FACILITY));
    }
    let asked = parse(alloc, facilities_in(block))?;
    if !may_carry(setup.fast, block) {
        return Err(AnswerFault::Refused(diagnostic::PACKET_TOO_LONG));
    }
    if !setup.indicated.are_offered(&asked) {
        return Err(AnswerFault::Refused(diagnostic::FACILITY_PARAMETER_NOT_ALLOWED));
    }
    Ok(asked)
}

/// Whether the answer may carry its user data. Without fast select it may carry none.
fn may_carry<A: Allocator>(fast: FastSelect, block: &Option<Block<A>>) -> bool
    ensures may { IsTrue result → MayCarry fast block.now }
    ensures may_not { result ≡ false → MayNotCarry fast block.now }
{
    fast != FastSelect::No || !has_user_data(block)
}
