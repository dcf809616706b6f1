//! The pass of a line: the thread that has it acts for the line.

ghost use Rattle.std.specs.Prelude.{◌≡◌, ◌<◌};
ghost use Rattle.xp_subs.specs.Tables.{line_count, modulus_of};

use crate::outboxes::OutboxTakeEnd;
use std::alloc::{Allocator, Global};
use std::marker::{Model, PhantomData};
use xp_packets::Modulus;
use xp_seats::{HistorySeat, Name};
use xp_subs::LineNo;

/// The pass of a line. It has what the line saw of the history, and the end of the outbox from which the line takes outputs.
#[derive(Drop)]
pub struct LinePass<N: Name, A: Allocator = Global> {
    pub(crate) line: LineNo,
    pub(crate) modulus: Modulus,
    pub(crate) seat: HistorySeat<A>,
    pub(crate) outbox: OutboxTakeEnd<A>,
    /// How many outputs it took. The number stays at its greatest value once there, which no journal reaches.
    pub(crate) count: u64,
    pub(crate) name: PhantomData<N>,
}

impl<N: Name, A: Allocator> Model for LinePass<N, A> {
    ghost use Rattle.std.specs.Prelude.{◌≡◌, ◌-◌, ◌<◌, ◌^◌, Some, length, min, slice_get};
    ghost use Rattle.xp_subs.specs.Tables.{line_count, modulus_of};
    ghost use Rattle.xp_lock.specs.Passes.{Pass};

    ghost Value = { Pass A };

    ghost use Rattle.xp_lock.specs.Outgoing.{put_out_to};

    ghost view = { λ p. record { line = p.line; seen = p.seat.seen; taken = p.outbox.taken } };

    ghost invariant = { λ p. (p.seat.table ≡ N.seats) × (p.seat.holder ≡ p.line) × (p.line < line_count N.subs) × (p.modulus ≡ modulus_of N.subs p.line) × (slice_get N.queues p.line ≡ Some p.outbox.queue) × (p.count ≡ min (length p.outbox.taken) (2 ^ 64 - 1)) × (p.outbox.owed ≡ put_out_to p.line p.seat.seen) };
}

impl<N: Name, A: Allocator> LinePass<N, A> {
    /// Returns the number of the line, which is a line of the subscriptions.
    pub fn line(&self) -> LineNo
        ensures line { result ≡ self.now.line }
        ensures within { result < line_count N.subs }
    {
        self.line
    }

    /// Returns the modulus by which the line numbers its packets.
    pub fn modulus(&self) -> Modulus
        ensures { result ≡ modulus_of N.subs self.now.line }
    {
        self.modulus
    }
}
