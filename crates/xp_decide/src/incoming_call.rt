ghost use Rattle.std.specs.Prelude.{◌≡◌, IfOk};
ghost use Rattle.xp_decide.specs.IncomingCalls.{reduced_to, indicated_packet, indicated_window, told_of, incoming_call_of};

use crate::route::Destination;
use crate::verdict::IncomingCall;
use crate::window::largest_window_on;
use std::alloc::{AllocError, Allocator};
use xp_facilities::{
    DirectionSizes, IndicatedFacilities, Reason, RedirectionNotification, RequestedFacilities,
};
use xp_groups::Admission;
use xp_packets::{Digits, Modulus};

/// The greatest packet size that an incoming call indicates, as a power of two: 1,024 octets.
const MAX_PACKET_SIZE: u8 = 10;

/// The packet sizes of a call that requests none, as powers of two: 128 octets.
const DEFAULT_PACKET_SIZES: DirectionSizes = DirectionSizes {
    from_called: 7,
    from_calling: 7,
};

/// The window sizes of a call that requests none: 2 packets.
const DEFAULT_WINDOW_SIZES: DirectionSizes = DirectionSizes {
    from_called: 2,
    from_calling: 2,
};

/// The incoming call that the line receives, which has this modulus.
///
/// # Errors
///
/// An allocation failed.
pub fn incoming_call<A: Allocator + Copy>(
    modulus: Modulus,
    asked: RequestedFacilities<A>,
    reached: &Destination,
    dialled: &Digits,
) -> Result<IncomingCall<A>, AllocError>
    ensures { IfOk result (λ ring. ring ≡ incoming_call_of modulus asked reached.now dialled.now) }
{
    let told = tell(modulus, &asked, reached.admission, reached.reason, dialled)?;
    Ok(IncomingCall {
        line: reached.line,
        told,
        asked,
        reason: reached.reason,
    })
}

/// The facilities of the incoming call.
fn tell<A: Allocator + Copy>(
    modulus: Modulus,
    asked: &RequestedFacilities<A>,
    admission: Admission,
    reason: Option<Reason>,
    dialled: &Digits,
) -> Result<IndicatedFacilities<A>, AllocError>
    ensures { IfOk result (λ told. told ≡ told_of modulus asked.now admission reason dialled.now) }
{
    let dte = asked.dte.copy()?;
    Ok(IndicatedFacilities {
        selection: admission.indicated,
        fast: asked.fast,
        reverse: asked.reverse,
        throughput: asked.throughput,
        modified: None,
        packet: Some(indicate_packet(asked.packet)),
        window: Some(indicate_window(modulus, asked.window)),
        redirected: reason.map(|reason| RedirectionNotification {
            reason,
            dialled: dialled.copy(),
        }),
        duration: None,
        segments: None,
        dte,
    })
}

/// The packet sizes that the incoming call indicates (X.25 clause 6.12).
fn indicate_packet(asked: Option<DirectionSizes>) -> DirectionSizes
    ensures { result ≡ indicated_packet asked }
{
    reduced_to(MAX_PACKET_SIZE, asked.unwrap_or(DEFAULT_PACKET_SIZES))
}

/// The window sizes that the incoming call indicates to a line with this modulus (X.25 clause 6.12).
fn indicate_window(modulus: Modulus, asked: Option<DirectionSizes>) -> DirectionSizes
    ensures { result ≡ indicated_window modulus asked }
{
    reduced_to(
        largest_window_on(modulus),
        asked.unwrap_or(DEFAULT_WINDOW_SIZES),
    )
}

/// Both sizes, each reduced to at most `most`.
fn reduced_to(most: u8, sizes: DirectionSizes) -> DirectionSizes
    ensures { result ≡ reduced_to most sizes }
{
    DirectionSizes {
        from_called: sizes.from_called.min(most),
        from_calling: sizes.from_calling.min(most),
    }
}
