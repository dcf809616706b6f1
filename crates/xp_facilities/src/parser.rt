ghost use Rattle.std.specs.Prelude.{◌≡◌, [], ◌∷◌, Some, None, ◌<◌, option_copied, MatchResult, IfOk};
ghost use Rattle.xp_facilities.specs.Requested.{Parses, before_marker, has_accepted_codes, last_of, decimal, index_of, selection_of, sizes_within, octet_of, fast_of, first_bit, opens, dte_of};
ghost use Rattle.xp_facilities.specs.steps.Requested.{Allows};

use crate::codes;
use crate::direction_sizes::DirectionSizes;
use crate::fast_select::FastSelect;
use crate::fault::FacilityFault;
use crate::item::Items;
use crate::limits::{
    LARGEST_SIZE, LARGEST_WINDOW, MOST_DTE_OCTETS, SMALLEST_SIZE, SMALLEST_WINDOW,
};
use crate::requested::RequestedFacilities;
use crate::selection::Selection;
use arrayvec::ArrayVec;
use std::alloc::Allocator;
use xp_packets::Octets;

/// Reads the facilities that a field requests (X.25 clauses 6 and 7.2).
///
/// If several items before the first marker have the same code, the last one counts. Here the code for an index of
/// two digits and the one for an index of four count as the same code.
///
/// # Errors
///
/// The first of these that holds:
///
/// - `Length` if the field is not a list of items;
/// - `Code` if an item before the first marker has a code that is not accepted there;
/// - `Param` if a parameter that counts is not allowed, if both kinds of closed user group selection are present, if
///   a marker has an unknown parameter, or if the facilities between DTEs have more than 80 octets;
/// - `Memory` if an allocation fails.
#[tactic(auto, unfolding(crate::specs::Requested::packet_of, crate::specs::Requested::window_of))]
pub fn parse<A: Allocator + Copy>(
    alloc: A,
    field: &[u8],
) -> Result<RequestedFacilities<A>, FacilityFault>
    ensures { Parses field.now result }
{
    let Some(items) = Items::of(field) else {
        return Err(FacilityFault::Length);
    };
    if !has_accepted_codes(&items) {
        return Err(FacilityFault::Code);
    }
    let selection = selection(&items)?;
    let packet = sizes(&items, codes::PACKET_SIZE, SMALLEST_SIZE, LARGEST_SIZE)?;
    let window = sizes(&items, codes::WINDOW_SIZE, SMALLEST_WINDOW, LARGEST_WINDOW)?;
    let kept = dte(&items)?;
    let dte = Octets::from_slice(alloc, kept.as_slice())?;
    let options = octet(&items, codes::FAST_SELECT);
    Ok(RequestedFacilities {
        selection,
        fast: fast_select(options),
        reverse: first_bit(options),
        throughput: octet(&items, codes::THROUGHPUT),
        charging: first_bit(octet(&items, codes::CHARGING)),
        packet,
        window,
        dte,
    })
}

/// Whether each item before the first marker has an accepted code.
fn has_accepted_codes(items: &Items<'_>) -> bool
    ensures { result ≡ has_accepted_codes items.now }
{
    let mut left = items.again();
    while let Some(item) = left.next() {
        if item.code() == codes::MARKER {
            break;
        }
        if !codes::ACCEPTED.contains(&item.code()) {
            return false;
        }
    }
    true
}

/// The parameters of the last item before the first marker whose code is in `wanted`.
fn last<'a>(items: &Items<'a>, wanted: &[u8]) -> Option<&'a [u8]>
    ensures { option_copied result ≡ last_of wanted.now (before_marker items.now) }
{
    let mut left = items.again();
    let mut found = None;
    while let Some(item) = left.next() {
        if item.code() == codes::MARKER {
            break;
        }
        if wanted.contains(&item.code()) {
            found = Some(item.parameters());
        }
    }
    found
}

/// The parameter of an item with one octet of parameters.
#[tactic(auto, unfolding(crate::specs::Requested::octet_of))]
fn octet(items: &Items<'_>, code: u8) -> Option<u8>
    ensures { result ≡ octet_of (last_of (code ∷ []) (before_marker items.now)) }
{
    match last(items, &[code]) {
        Some(&[octet]) => Some(octet),
        _ => None,
    }
}

#[tactic(auto, unfolding(crate::specs::Requested::fast_of))]
fn fast_select(octet: Option<u8>) -> FastSelect
    ensures { result ≡ fast_of octet }
{
    match octet.map(|octet| octet >> 6) {
        Some(2) => FastSelect::Unrestricted,
        Some(3) => FastSelect::Restricted,
        _ => FastSelect::No,
    }
}

/// Bit 1, which requests reverse charging or charging information.
#[tactic(auto, unfolding(crate::specs::Requested::first_bit))]
fn first_bit(octet: Option<u8>) -> bool
    ensures { result ≡ first_bit octet }
{
    octet.is_some_and(|octet| octet & 1 == 1)
}

/// The closed user group selection. At most one kind may be present.
#[tactic(auto, unfolding(crate::specs::Requested::selection_of, crate::specs::Requested::chosen))]
fn selection(items: &Items<'_>) -> Result<Selection, FacilityFault>
    ensures { Allows (selection_of items.now) result }
{
    let closed = last(
        items,
        &[codes::CLOSED_USER_GROUP, codes::CLOSED_USER_GROUP_EXTENDED],
    );
    let with_outside_access = last(
        items,
        &[codes::OUTSIDE_ACCESS, codes::OUTSIDE_ACCESS_EXTENDED],
    );
    match (closed, with_outside_access) {
        (None, None) => Ok(Selection::Nothing),
        (Some(parameters), None) => Ok(Selection::Closed(index(parameters)?)),
        (None, Some(parameters)) => Ok(Selection::WithOutsideAccess(index(parameters)?)),
        (Some(_), Some(_)) => Err(FacilityFault::Param),
    }
}

/// An index of two or four decimal digits.
#[tactic(auto, unfolding(crate::specs::Requested::index_of))]
fn index(parameters: &[u8]) -> Result<u16, FacilityFault>
    ensures { Allows (index_of parameters.now) result }
{
    match *parameters {
        [low] => decimal(low),
        [high, low] => Ok(100 * decimal(high)? + decimal(low)?),
        _ => Err(FacilityFault::Param),
    }
}

/// Two decimal digits, in the half-octets of an octet.
#[tactic(auto, unfolding(crate::specs::Requested::decimal))]
fn decimal(octet: u8) -> Result<u16, FacilityFault>
    ensures value { Allows (decimal octet) result }
    ensures small { IfOk result (λ number. number < 100) }
{
    let (tens, ones) = (u16::from(octet >> 4), u16::from(octet & 0x0f));
    if tens < 10 && ones < 10 {
        Ok(10 * tens + ones)
    } else {
        Err(FacilityFault::Param)
    }
}

/// Packet sizes or window sizes, each within its range.
#[tactic(auto, unfolding(crate::specs::Requested::sizes_within))]
fn sizes(
    items: &Items<'_>,
    code: u8,
    least: u8,
    most: u8,
) -> Result<Option<DirectionSizes>, FacilityFault>
    ensures { Allows (sizes_within least most (last_of (code ∷ []) (before_marker items.now))) result }
{
    match last(items, &[code]) {
        None => Ok(None),
        Some(&[from_called, from_calling]) => {
            let sizes = DirectionSizes {
                from_called,
                from_calling,
            };
            if !sizes.is_within(least, most) {
                return Err(FacilityFault::Param);
            }
            Ok(Some(sizes))
        }
        Some(_) => Err(FacilityFault::Param),
    }
}

/// The octets of the items between DTEs.
fn dte(items: &Items<'_>) -> Result<ArrayVec<u8, MOST_DTE_OCTETS>, FacilityFault>
    ensures { MatchResult result (λ kept. dte_of items.now ≡ Some kept.items)
        (λ fault. (dte_of items.now ≡ None) × (fault ≡ FacilityFault.Param)) }
{
    let mut left = items.again();
    let mut kept = ArrayVec::new();
    let mut inside = false;
    while let Some(item) = left.next() {
        if item.code() == codes::MARKER {
            inside = opens(item.parameters())?;
        } else if inside && kept.try_extend_from_slice(item.octets()).is_err() {
            return Err(FacilityFault::Param);
        }
    }
    Ok(kept)
}

/// Whether this marker starts facilities between DTEs.
#[tactic(auto, unfolding(crate::specs::Requested::opens))]
fn opens(parameters: &[u8]) -> Result<bool, FacilityFault>
    ensures { Allows (opens parameters.now) result }
{
    match *parameters {
        [codes::DTE_FACILITIES] => Ok(true),
        [codes::CALLING_NETWORK | codes::CALLED_NETWORK] => Ok(false),
        _ => Err(FacilityFault::Param),
    }
}
