//! Looks up the table of actions (X.25 Annex C) for a line and an event.

ghost use Rattle.std.specs.Prelude.{◌≡◌};
ghost use Rattle.xp_machine.specs.Channel.{channel_of};
ghost use Rattle.xp_machine.specs.StoredState.{state_of};
ghost use Rattle.xp_step.specs.Table.{action_in};

use crate::event::What;
use std::alloc::Allocator;
use xp_channel::{Action, EventKind};
use xp_machine::ChannelState;

/// Returns the action that the table has for an event on a line in this state. A line that is given up as too slow goes out
/// of service like one whose connection is lost. The table has none for a reload.
#[inline(always)]
pub fn action_of<A: Allocator>(state: ChannelState, what: &What<A>) -> Action
    ensures { result ≡ action_in (channel_of (state_of state)) what.now }
{
    let channel = state.channel();
    match what {
        What::Up => channel.on_packet(EventKind::Up),
        What::Down | What::Stall => channel.on_packet(EventKind::Down),
        What::Frame { packet, .. } => channel.on_packet(EventKind::of(packet)),
        What::WrongFrame(wrong) => channel.on_packet(EventKind::of_malformed(*wrong)),
        What::Expire => channel.on_packet(EventKind::Expire),
        What::Reload => Action::Nothing,
    }
}
