ghost use Rattle.std.specs.Prelude.{◌≡◌, option_to_list};
ghost use Rattle.xp_step.specs.EventOutputs.{clear_indication as indication, close as output_closing, send as output_to, send_as as output_as, send_far as output_far};
ghost use Rattle.xp_machine.specs.World.{call_on};

use crate::output::{Outgoing, Output, Put};
use std::alloc::Allocator;
use xp_machine::Machine;
use xp_packets::Packet;
use xp_subs::LineNo;

/// Returns the output that sends a packet to a line, with this identifier.
pub fn send_as<A: Allocator>(
    machine: &Machine<A>,
    line: LineNo,
    identifier: u16,
    packet: Packet<A>,
) -> Output<A>
    ensures { result ≡ output_as machine.now line identifier packet }
{
    Output {
        line,
        outgoing: Outgoing {
            connection: machine.line(line).connection,
            put: Put::Send { identifier, packet },
        },
    }
}

/// Returns the output that sends a packet to a line, with the line's own identifier.
pub fn send<A: Allocator>(machine: &Machine<A>, line: LineNo, packet: Packet<A>) -> Output<A>
    ensures { result ≡ output_to machine.now line packet }
{
    send_as(machine, line, machine.line(line).identifier, packet)
}

/// Returns the output that sends a packet to the far end of the call that a line is in, if it is in one.
pub fn send_far<A: Allocator>(
    machine: &Machine<A>,
    line: LineNo,
    packet: Packet<A>,
) -> Option<Output<A>>
    ensures { option_to_list result ≡ output_far machine.now line (call_on machine.now line) packet }
{
    let call = machine.call_on(line)?;
    Some(send(machine, call.far_end(line), packet))
}

/// Returns the output that closes a line's connection.
pub fn close<A: Allocator>(machine: &Machine<A>, line: LineNo) -> Output<A>
    ensures { result ≡ output_closing machine.now line }
{
    Output {
        line,
        outgoing: Outgoing {
            connection: machine.line(line).connection,
            put: Put::Close,
        },
    }
}

/// Returns a clear indication (X.25 clause 5.2.4).
pub fn clear_indication<A: Allocator>(cause: u8, diagnostic: u8) -> Packet<A>
    ensures { result ≡ indication cause diagnostic }
{
    Packet::Clear {
        cause,
        diagnostic: Some(diagnostic),
        block: None,
    }
}
