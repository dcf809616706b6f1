//! The parts of an exchange, which are made before the exchange has a name.

ghost use Rattle.std.specs.Prelude.{◌≡◌, IfOk};
ghost use Rattle.xp_lock.specs.steps.Opening.{AreNew};

use crate::outboxes::{OutboxPutEnd, OutboxTakeEnd};
use std::alloc::{AllocError, Allocator, Global};
use std::marker::Model;
use xp_core::Core;
use xp_outbox::outbox;
use xp_seats::SeatsForProofs;
use xp_subs::Subs;

/// How many items an outbox has room for.
const CAPACITY: usize = 64;

/// The parts of an exchange.
#[derive(Drop)]
pub struct PreparedExchange<A: Allocator = Global> {
    pub(crate) core: Core<A>,
    pub(crate) seats: SeatsForProofs<A>,
    pub(crate) outboxes: Vec<OutboxPutEnd<A>, A>,
    pub(crate) ends: Vec<OutboxTakeEnd<A>, A>,
    pub(crate) taken: Vec<u64, A>,
    pub(crate) lines: usize,
}

impl<A: Allocator> Model for PreparedExchange<A> {
    ghost use Rattle.std.specs.Prelude.{◌≡◌, ◌≤◌, [], All, length, map, replicate};
    ghost use Rattle.xp_subs.specs.Bounds.{most_lines};
    ghost use Rattle.xp_subs.specs.Tables.{line_count};
    ghost use Rattle.xp_lock.specs.Opening.{Prepared};

    ghost Value = { Prepared };

    ghost use Rattle.xp_lock.specs.steps.Outboxes.{OutboxesMatch};
    ghost use Rattle.xp_lock.specs.steps.Opening.{IsUnused};

    ghost view = { λ b. record { subs = b.core.subs; seats = b.seats.table; queues = map (λ box. box.queue) b.outboxes.items } };

    ghost invariant = { λ b. (b.core.history ≡ []) × (b.core.given ≡ []) × (b.seats.known ≡ []) × OutboxesMatch b.core.subs [] b.outboxes.items × (map (λ end. end.queue) b.ends.items ≡ map (λ box. box.queue) b.outboxes.items) × All IsUnused b.ends.items × (b.lines ≡ line_count b.core.subs) × (line_count b.core.subs ≤ most_lines) × (length b.ends.items ≡ line_count b.core.subs) × (b.taken.items ≡ replicate (line_count b.core.subs) 0) };
}

/// Makes the parts of an exchange of these subscriptions: an exchange with an empty history, and an empty outbox with 64
/// places for each line.
///
/// # Errors
///
/// `AllocError` if an allocation fails.
pub fn prepare<A: Allocator + Copy>(alloc: A, subs: Subs) -> Result<PreparedExchange<A>, AllocError>
    ensures { IfOk result (λ prepared. prepared.subs ≡ subs) }
{
    let lines = subs.counts().lines;
    let core = Core::new(alloc, subs)?;
    let taken = vec![in alloc; 0; lines]?;
    let seats = SeatsForProofs::new(alloc)?;
    let (outboxes, ends) = new_outboxes(alloc, lines)?;
    Ok(PreparedExchange {
        core,
        seats,
        outboxes,
        ends,
        taken,
        lines,
    })
}

/// The put ends and the take ends of the outboxes, by line.
type Ends<A> = (Vec<OutboxPutEnd<A>, A>, Vec<OutboxTakeEnd<A>, A>);

/// Makes so many outboxes of 64 places, and returns their put ends and their take ends.
fn new_outboxes<A: Allocator + Copy>(alloc: A, lines: usize) -> Result<Ends<A>, AllocError>
    ensures { IfOk result (λ ends. AreNew lines ends.0.items ends.1.items) }
{
    let mut outboxes = Vec::new(alloc);
    let mut ends = Vec::new(alloc);
    for _line in 0..lines {
        let (put, taken) = outbox(alloc, CAPACITY)?;
        outboxes.push(put)?;
        ends.push(taken)?;
    }
    Ok((outboxes, ends))
}
