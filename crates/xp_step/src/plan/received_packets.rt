//! Reads what the actions of the table need from an event's packet.

ghost use Rattle.std.specs.Prelude.{◌≡◌, option_map};
ghost use Rattle.xp_step.specs.steps.ReceivedPackets.{answer_of, clear_of, request_of};
ghost use Rattle.xp_step.specs.Table.{accepted_in as answer_in, clear_in as cleared_in, request_in as asked_in};

use crate::event::What;
use std::alloc::Allocator;
use xp_answer::CallAccepted;
use xp_packets::{Block, Packet};

/// A call request as it came.
#[derive(Drop)]
pub struct CallRequest<'a, A: Allocator> {
    pub identifier: u16,
    pub d: bool,
    pub block: &'a Block<A>,
}

/// A clear request.
#[derive(Drop)]
pub struct ClearRequest<'a, A: Allocator> {
    pub cause: u8,
    pub diagnostic: Option<u8>,
    pub block: &'a Option<Block<A>>,
}

/// Returns the call request in an event, if the event is one.
pub fn request_in<'a, A: Allocator>(what: &'a What<A>) -> Option<CallRequest<'a, A>>
    ensures { option_map request_of result ≡ asked_in what.now }
{
    match what {
        What::Frame {
            identifier,
            packet: Packet::Call { d, block },
        } => Some(CallRequest {
            identifier: *identifier,
            d: *d,
            block,
        }),
        _ => None,
    }
}

/// Returns the call accepted packet in an event, if the event is one.
pub fn accepted_in<'a, A: Allocator>(what: &'a What<A>) -> Option<CallAccepted<'a, A>>
    ensures { option_map answer_of result ≡ answer_in what.now }
{
    match what {
        What::Frame {
            packet: Packet::Accepted { d, block },
            ..
        } => Some(CallAccepted { d: *d, block }),
        _ => None,
    }
}

/// Returns the clear request in an event, if the event is one.
pub fn clear_in<'a, A: Allocator>(what: &'a What<A>) -> Option<ClearRequest<'a, A>>
    ensures { option_map clear_of result ≡ cleared_in what.now }
{
    match what {
        What::Frame {
            packet: Packet::Clear {
                cause,
                diagnostic,
                block,
            },
            ..
        } => Some(ClearRequest {
            cause: *cause,
            diagnostic: *diagnostic,
            block,
        }),
        _ => None,
    }
}
