//! The lines as the machine keeps them.

ghost use Rattle.std.specs.Prelude.{◌≡◌, slice_set};
ghost use Rattle.xp_machine.specs.steps.StoredState.{channel_at};

use crate::channel::LogicalChannel;
use std::alloc::Allocator;
use xp_subs::LineNo;

/// Returns what the machine keeps of a line. A line that does not exist is out of service.
pub fn channel(lines: &[LogicalChannel], line: LineNo) -> LogicalChannel
    ensures { result ≡ channel_at lines.now line }
{
    lines
        .get(usize::from(line))
        .copied()
        .unwrap_or(LogicalChannel::OFF)
}

/// Replaces what the machine keeps of a line. For a line that does not exist it does nothing.
pub fn set_line<A: Allocator>(
    lines: &mut Vec<LogicalChannel, A>,
    line: LineNo,
    becomes: LogicalChannel,
)
    ensures { lines.new.items ≡ slice_set lines.old.items line becomes }
{
    if let Some(channel) = lines.get_mut(usize::from(line)) {
        *channel = becomes;
    }
}
