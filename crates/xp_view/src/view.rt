ghost use Rattle.std.specs.Prelude.{◌≡◌, ◌<◌, IfOk};
ghost use Rattle.xp_step.specs.Exchange.{world_of};
ghost use Rattle.xp_view.specs.Views.{Shows, line_with_call};
ghost use Rattle.xp_view.specs.steps.Views.{AreShown};
ghost use Rattle.xp_subs.specs.Tables.{line_count};

use std::alloc::{AllocError, Allocator, Global};
use xp_core::{CallView, Core};
use xp_machine::LineView;
use xp_subs::LineNo;

/// What can be seen of a line, and of the live call that it is in.
#[derive(Drop)]
pub struct LineWithCall {
    pub line: LineView,
    pub call: Option<CallView>,
}

/// What can be seen of an exchange at one moment.
#[derive(Drop)]
pub struct ExchangeView<A: Allocator = Global> {
    /// The lines, in the order of their numbers.
    pub lines: Vec<LineWithCall, A>,
    /// How many entries the history has: one for each event, and one for each stall.
    pub entries: u64,
    /// How many of them are stalls: a line that took its packets too slowly was given up.
    pub stalls: u64,
    /// How many charging records the history has: one for each call that has ended.
    pub records: u64,
}

impl<A: Allocator> ExchangeView<A> {
    /// What can be seen of an exchange now: the state to which its history leads.
    ///
    /// # Errors
    ///
    /// `AllocError` if an allocation fails.
    pub fn of<B: Allocator>(alloc: A, core: &Core<B>) -> Result<ExchangeView<A>, AllocError>
        ensures { IfOk result (Shows core.now.subs core.now.history) }
    {
        Ok(ExchangeView {
            lines: lines_with_calls(alloc, core)?,
            entries: core.count(),
            stalls: core.stall_count(),
            records: core.record_count(),
        })
    }
}

/// What can be seen of each line, in order.
fn lines_with_calls<A: Allocator, B: Allocator>(
    alloc: A,
    core: &Core<B>,
) -> Result<Vec<LineWithCall, A>, AllocError>
    ensures { IfOk result (λ lines. AreShown core.now.subs core.now.history (line_count core.now.subs) lines.items) }
{
    let count = core.subs().counts().lines;
    let mut lines = Vec::with_capacity(alloc, count)?;
    for line in 0..count {
        lines.push_reserved(see_line(core, line as LineNo));
    }
    Ok(lines)
}

/// What can be seen of a line, and of the call that it is in.
fn see_line<B: Allocator>(core: &Core<B>, line: LineNo) -> LineWithCall
    ensures { result ≡ line_with_call core.now.subs core.now.history line }
{
    LineWithCall {
        line: core.line(line),
        call: core.call_on(line),
    }
}
