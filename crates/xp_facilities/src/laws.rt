//! Laws of the definitions that the contracts of `parse` and `write` cite.
ghost use Rattle.std.specs.Prelude.{ℕ, List};
ghost use Rattle.xp_facilities.specs.Requested.{HasOneReading};
ghost use Rattle.xp_facilities.specs.Laws.{HasDigits, IsReadBack, IndicatesOnlyThis};
ghost use Rattle.xp_facilities.specs.Indicated.{Indicates, IsIndicatedField};
ghost use Rattle.xp_facilities.specs.declared.indicated.IndicatedFacilities.{IndicatedFacilities};

use std::alloc::Allocator;

/// Every facility field is a list of items in at most one way. It either has exactly one meaning or has exactly one
/// fault, never both.
pub fn every_field_has_one_reading<A: Allocator>()
    ensures { (field : List ℕ) → HasOneReading A field }
{}

/// A field that indicates facilities is read as their items. The codes of the items ascend. The field has at most 125
/// octets: 89, 3 for each of the packet and the window sizes, 2 for a modified address, 6 for a duration, 10 for
/// segment counts and 12 for a redirection.
pub fn indicated_fields_are_their_items<A: Allocator>()
    ensures { (told : IndicatedFacilities A) (field : List ℕ) (tells : Indicates told field) → IsIndicatedField told field tells }
{}

/// A field indicates only one set of facilities, so the field that `write` returns indicates exactly what it was
/// written from.
pub fn indicated_fields_indicate_one_value<A: Allocator>()
    ensures { (told : IndicatedFacilities A) (field : List ℕ) → HasDigits told → Indicates told field → IndicatesOnlyThis told field }
{}

/// `parse` reads indicated facilities back as they were written, unless they include one that is never requested: a
/// modified address, a duration, segment counts or a redirection.
pub fn indicated_fields_are_read_back<A: Allocator>()
    ensures { (told : IndicatedFacilities A) (field : List ℕ) → Indicates told field → IsReadBack told field }
{}
