//! How an exchange is started.

ghost use Rattle.std.specs.Prelude.{◌≡◌, ◌≤◌, [], All, IfOk, OnOk, Some, length, map, replicate};
ghost use Rattle.xp_subs.specs.Bounds.{most_lines};
ghost use Rattle.xp_subs.specs.Tables.{line_count};
ghost use Rattle.xp_lock.specs.Opening.{AreFirst};
ghost use Rattle.xp_lock.specs.steps.Opening.{IsUnused};

use crate::exchange::Exchange;
use crate::keeper::Keeper;
use crate::outboxes::OutboxTakeEnd;
use crate::pass::LinePass;
use crate::prepared::PreparedExchange;
use std::alloc::{AllocError, Allocator};
use std::marker::PhantomData;
use xp_seats::{Name, Recorder, SeatsForProofs};
use xp_subs::{LineNo, Subs};

/// An exchange, the passes of its lines, and its recorder.
type Started<N, A> = (Exchange<N, A>, Vec<LinePass<N, A>, A>, Recorder<N, A>);

impl<N: Name, A: Allocator + Copy> Exchange<N, A> {
    /// Starts the exchange that `N` names, with an empty history, and returns it with the passes of its lines, in order, and its
    /// recorder.
    ///
    /// # Errors
    ///
    /// `AllocError` if an allocation fails.
    pub fn start(alloc: A, prepared: PreparedExchange<A>) -> Result<Started<N, A>, AllocError>
        requires subs { N.subs ≡ prepared.subs }
        requires seats { N.seats ≡ prepared.seats }
        requires queues { N.queues ≡ prepared.queues }
        ensures passes { IfOk result (λ started. AreFirst (line_count N.subs) started.1.items) }
        ensures recorder { IfOk result (λ started. started.2 ≡ record { seen = []; received = [] }) }
    {
        let PreparedExchange {
            core,
            seats,
            outboxes,
            ends,
            taken,
            lines,
        } = prepared;
        let mut seats = seats;
        let passes = first_passes(alloc, core.subs(), &mut seats, ends)?;
        let recorder = Recorder::new(seats.next());
        let keeper = Keeper::new(core, outboxes, seats);
        Ok((
            Exchange::new(keeper, lines as LineNo, taken),
            passes,
            recorder,
        ))
    }
}

/// Makes the passes of the lines, in order. Each has the modulus and the seat of its line, and the take end of its outbox.
fn first_passes<N: Name, A: Allocator>(
    alloc: A,
    subs: &Subs,
    seats: &mut SeatsForProofs<A>,
    ends: Vec<OutboxTakeEnd<A>, A>,
) -> Result<Vec<LinePass<N, A>, A>, AllocError>
    requires subs { subs.now ≡ N.subs }
    requires seats { seats.old ≡ record { table = N.seats; known = [] } }
    requires queues { map (λ end. end.queue) ends.items ≡ N.queues }
    requires unused { All IsUnused ends.items }
    requires count { length ends.items ≡ line_count N.subs }
    requires few { line_count N.subs ≤ most_lines }
    ensures seats { OnOk result (seats.new ≡ record { table = N.seats; known = replicate (line_count N.subs) (Some []) }) }
    ensures passes { IfOk result (λ passes. AreFirst (line_count N.subs) passes.items) }
{
    let mut passes = Vec::with_capacity(alloc, ends.len())?;
    for outbox in ends {
        let line = passes.len() as LineNo;
        let seat = seats.next();
        passes.push(LinePass {
            line,
            modulus: subs.modulus_of(line),
            seat,
            outbox,
            count: 0,
            name: PhantomData,
        })?;
    }
    Ok(passes)
}
