ghost use Rattle.std.specs.Prelude.{IfOk};
ghost use Rattle.xp_facilities.specs.Indicated.{Indicates};
ghost use Rattle.xp_answer.specs.steps.Fields.{CanBeTold};

use std::alloc::{AllocError, Allocator};
use xp_facilities::{FacilityFault, IndicatedFacilities, write};
use xp_packets::Octets;

/// The facility field that indicates these facilities.
///
/// # Errors
///
/// An allocation failed.
pub fn field_of<A: Allocator + Copy>(
    alloc: A,
    told: &IndicatedFacilities<A>,
) -> Result<Octets<A>, AllocError>
    requires { CanBeTold told.now }
    ensures { IfOk result (Indicates told.now) }
{
    match write(alloc, told) {
        Ok(field) => Ok(field),
        Err(FacilityFault::Memory) => Err(AllocError),
        // Facilities that can be indicated are never refused.
        Err(_) => unreachable!(),
    }
}
