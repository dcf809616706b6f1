ghost use Rattle.std.specs.Prelude.{◌≡◌, ◌<◌, ◌≤◌, ◌++◌, ◌∷◌, length, IfOk, IfSome, OnOk};
ghost use Rattle.std.specs.List.{list_any, flat_map};
ghost use Rattle.xp_packets.specs.Writing.{packed};
ghost use Rattle.xp_facilities.specs.Requested.{is_marker};
ghost use Rattle.xp_facilities.specs.Items.{octets_of, octets_of_all};
ghost use Rattle.xp_facilities.specs.Octets.{reason_octet};
ghost use Rattle.xp_facilities.specs.Indicated.{Writes, redirection, optional_item, table, index_fits, sizes_fit, duration_fits, counts_fit, is_in_range, most_octets, IsOfExchange};
ghost use Rattle.xp_facilities.specs.steps.Indicated.{marked_octets, octets_of_rows};

use crate::codes;
use crate::direction_sizes::DirectionSizes;
use crate::fault::FacilityFault;
use crate::indicated::IndicatedFacilities;
use crate::item::Items;
use crate::limits::{
    LARGEST_COUNT, LARGEST_DURATION, LARGEST_INDEX, LARGEST_SIZE, LARGEST_WINDOW, MOST_DTE_OCTETS,
    SMALLEST_SIZE, SMALLEST_WINDOW,
};
use crate::parameters::{
    closed_index, counts, duration, four_digit_index, modified, open_index, options, pair,
    throughput, two_digit_index,
};
use crate::redirection::RedirectionNotification;
use crate::segment_counts::SegmentCounts;
use crate::selection::Selection;
use arrayvec::ArrayVec;
use std::alloc::{AllocError, Allocator};
use xp_packets::Octets;

/// Writes the facility field that indicates `told` (X.25 clauses 6 and 7.2): items in ascending order of their codes,
/// then the facilities between DTEs after their marker.
///
/// # Errors
///
/// The first of these that holds:
///
/// - `Length` if the facilities between DTEs are not a list of items, or contain a marker;
/// - `Param` if a value is out of its range;
/// - `Memory` if an allocation fails.
pub fn write<A: Allocator + Copy>(
    alloc: A,
    told: &IndicatedFacilities<A>,
) -> Result<Octets<A>, FacilityFault>
    ensures value { Writes told.now result }
    ensures most { IfOk result (λ field. length field ≤ most_octets told.now) }

    // Each field that the exchange sends has at most 107 octets.
    ensures exchange { IsOfExchange told.now → IfOk result (λ field. length field ≤ 107) }
{
    let Some(carried) = Items::of(told.dte.as_slice()) else {
        return Err(FacilityFault::Length);
    };
    if has_marker(&carried) {
        return Err(FacilityFault::Length);
    }
    if !is_in_range(told) {
        return Err(FacilityFault::Param);
    }
    let octets = field(alloc, told)?;
    let octets = Octets::from_vec(octets)?;
    Ok(octets)
}

fn has_marker(items: &Items<'_>) -> bool
    ensures { result ≡ list_any is_marker items.now }
{
    let mut left = items.again();
    while let Some(item) = left.next() {
        if item.code() == codes::MARKER {
            return true;
        }
    }
    false
}

#[tactic(auto, unfolding(crate::specs::Indicated::is_in_range))]
fn is_in_range<A: Allocator>(told: &IndicatedFacilities<A>) -> bool
    ensures { result ≡ is_in_range told.now }
{
    index_fits(told.selection)
        && sizes_fit(told.packet, SMALLEST_SIZE, LARGEST_SIZE)
        && sizes_fit(told.window, SMALLEST_WINDOW, LARGEST_WINDOW)
        && duration_fits(told.duration)
        && counts_fit(told.segments)
        && told.dte.len() <= MOST_DTE_OCTETS
}

#[tactic(auto, unfolding(crate::specs::Indicated::index_fits))]
fn index_fits(selection: Selection) -> bool
    ensures { result ≡ index_fits selection }
{
    match selection {
        Selection::Nothing => true,
        Selection::Closed(index) | Selection::WithOutsideAccess(index) => index <= LARGEST_INDEX,
    }
}

#[tactic(auto, unfolding(crate::specs::Indicated::sizes_fit))]
fn sizes_fit(sizes: Option<DirectionSizes>, least: u8, most: u8) -> bool
    ensures { result ≡ sizes_fit least most sizes }
{
    sizes.is_none_or(|sizes| sizes.is_within(least, most))
}

#[tactic(auto, unfolding(crate::specs::Indicated::duration_fits))]
fn duration_fits(seconds: Option<u32>) -> bool
    ensures { result ≡ duration_fits seconds }
{
    seconds.is_none_or(|seconds| seconds <= LARGEST_DURATION)
}

#[tactic(auto, unfolding(crate::specs::Indicated::counts_fit))]
fn counts_fit(segments: Option<SegmentCounts>) -> bool
    ensures { result ≡ counts_fit segments }
{
    segments.is_none_or(|segments| {
        segments.sent <= LARGEST_COUNT && segments.received <= LARGEST_COUNT
    })
}

/// The octets of all items.
fn field<A: Allocator>(alloc: A, told: &IndicatedFacilities<A>) -> Result<Vec<u8, A>, AllocError>
    ensures value { IfOk result (λ field. field.items
        ≡ octets_of_all (flat_map (λ entry. optional_item entry.0 entry.1) (table told.now)) ++ marked_octets told.now.dte) }
    ensures digits { OnOk result (IfSome told.now.redirected (λ r. length r.dialled ≤ 15)) }
{
    let mut field = Vec::new(alloc);
    push_class_a(&mut field, told)?;
    push_class_b(&mut field, told)?;
    push_class_d(&mut field, told)?;
    push_dte(&mut field, told.dte.as_slice())?;
    Ok(field)
}

/// Appends the items of class A, which have one octet of parameters (clause 7.1).
fn push_class_a<A: Allocator>(
    field: &mut Vec<u8, A>,
    told: &IndicatedFacilities<A>,
) -> Result<(), AllocError>
    requires { field.old.items ≡ octets_of_rows told.now 0 }
    ensures { OnOk result (field.new.items ≡ octets_of_rows told.now 5) }
{
    let (closed, open) = (closed_index(told.selection), open_index(told.selection));
    push(field, codes::FAST_SELECT, options(told.fast, told.reverse))?;
    push(field, codes::THROUGHPUT, throughput(told.throughput))?;
    push(field, codes::CLOSED_USER_GROUP, two_digit_index(closed))?;
    push(field, codes::MODIFIED, modified(told.modified))?;
    push(field, codes::OUTSIDE_ACCESS, two_digit_index(open))?;
    Ok(())
}

/// Appends the items of class B, which have two octets of parameters.
fn push_class_b<A: Allocator>(
    field: &mut Vec<u8, A>,
    told: &IndicatedFacilities<A>,
) -> Result<(), AllocError>
    requires { field.old.items ≡ octets_of_rows told.now 5 }
    ensures { OnOk result (field.new.items ≡ octets_of_rows told.now 9) }
{
    let (closed, open) = (closed_index(told.selection), open_index(told.selection));
    push(field, codes::PACKET_SIZE, pair(told.packet))?;
    push(field, codes::WINDOW_SIZE, pair(told.window))?;
    push(
        field,
        codes::CLOSED_USER_GROUP_EXTENDED,
        four_digit_index(closed),
    )?;
    push(
        field,
        codes::OUTSIDE_ACCESS_EXTENDED,
        four_digit_index(open),
    )?;
    Ok(())
}

/// Appends the items of class D, which count their octets of parameters.
fn push_class_d<A: Allocator>(
    field: &mut Vec<u8, A>,
    told: &IndicatedFacilities<A>,
) -> Result<(), AllocError>
    requires { field.old.items ≡ octets_of_rows told.now 9 }
    ensures value { OnOk result (field.new.items ≡ octets_of_rows told.now 12) }
    ensures digits { OnOk result (IfSome told.now.redirected (λ r. length r.dialled ≤ 15)) }
{
    push(field, codes::CALL_DURATION, duration(told.duration))?;
    push(field, codes::SEGMENT_COUNT, counts(told.segments))?;
    push_redirection(field, &told.redirected)?;
    Ok(())
}

/// Appends an item, if there are parameters for it.
#[tactic(auto, unfolding(crate::specs::Indicated::optional_item))]
fn push<A: Allocator, const N: usize>(
    field: &mut Vec<u8, A>,
    code: u8,
    parameters: Option<[u8; N]>,
) -> Result<(), AllocError>
    requires { 192 ≤ code → N < 256 }
    ensures { OnOk result (field.new.items ≡ field.old.items ++ octets_of_all (optional_item code parameters.entry)) }
{
    match parameters {
        Some(parameters) => push_item(field, code, &parameters),
        None => Ok(()),
    }
}

/// Appends an item.
fn push_item<A: Allocator>(
    field: &mut Vec<u8, A>,
    code: u8,
    parameters: &[u8],
) -> Result<(), AllocError>
    requires { 192 ≤ code → length parameters.now < 256 }
    ensures { OnOk result (field.new.items
        ≡ field.old.items ++ octets_of (record { code = code; parameters = parameters.now })) }
{
    field.push(code)?;
    if code >= codes::FIRST_COUNTED {
        field.push(parameters.len() as u8)?;
    }
    field.extend_from_slice(parameters)
}

/// Appends the call redirection notification, if there is one.
#[tactic(auto, unfolding(crate::specs::Indicated::optional_item, crate::specs::Indicated::redirection))]
fn push_redirection<A: Allocator>(
    field: &mut Vec<u8, A>,
    redirected: &Option<RedirectionNotification>,
) -> Result<(), AllocError>
    ensures value { OnOk result (field.new.items ≡ field.old.items ++ octets_of_all (optional_item 195 (redirection redirected.now))) }
    ensures digits { OnOk result (IfSome redirected.now (λ r. length r.dialled ≤ 15)) }
{
    match redirected {
        Some(redirected) => {
            let parameters = redirection(redirected);
            push_item(field, codes::REDIRECTED, parameters.as_slice())
        }
        None => Ok(()),
    }
}

/// Appends the facilities between DTEs after their marker, if there are any.
#[tactic(auto, unfolding(crate::specs::steps::Indicated::marked_octets))]
fn push_dte<A: Allocator>(field: &mut Vec<u8, A>, dte: &[u8]) -> Result<(), AllocError>
    ensures { OnOk result (field.new.items ≡ field.old.items ++ marked_octets dte.now) }
{
    if dte.is_empty() {
        return Ok(());
    }
    field.extend_from_slice(&[codes::MARKER, codes::DTE_FACILITIES])?;
    field.extend_from_slice(dte)
}

/// The reason, the number of digits, and the digits in half-octets. A zero fills the last octet.
fn redirection(redirected: &RedirectionNotification) -> ArrayVec<u8, 10>
    ensures value { result.items
        ≡ reason_octet redirected.now.reason ∷ length redirected.now.dialled ∷ packed redirected.now.dialled }
    ensures most { length redirected.now.dialled ≤ 15 }
{
    let digits = redirected.dialled.as_slice();
    let mut parameters = ArrayVec::new();
    parameters.push(redirected.reason.octet());
    parameters.push(digits.len() as u8);
    let mut rest = digits;
    while let [high, low, others @ ..] = rest {
        parameters.push(16 * *high + *low);
        rest = others;
    }
    if let [last] = rest {
        parameters.push(16 * *last);
    }
    parameters
}
