//! How the last link of a line goes.

ghost use Rattle.std.specs.Prelude.{◌≡◌, ◌≢◌};
ghost use Rattle.xp_subs.specs.Tables.{modulus_of};
ghost use Rattle.xp_lines.specs.steps.Sessions.{Closes, here};
ghost use Rattle.xp_lines.specs.steps.Serving.{GoesOnTo, WritesOn};

use crate::line::EndReason;
use crate::line_state::LineState;
use crate::over::Over;
use crate::seat::Seat;
use crate::session::Session;
use crate::shared::Shared;
use crate::waiting::Waiting;
use std::sync::Wait;
use xp_links::{Bell, Clock, Link};
use xp_seats::Name;

/// Offers that the line's last link went, and drops it, if there is one. Returns why the line has ended. Where it is to stop, but
/// the exchange refuses the Down, that is why.
pub(crate) fn close<N: Name, L: Link, C: Clock, B: Bell, R: Wait>(
    shared: &Shared<'_, N, R>,
    seat: &mut Seat<N, C, B>,
    why: EndReason,
    session: Option<Session<L>>,
) -> EndReason
    ensures line { seat.new.pass.line ≡ seat.old.pass.line }
    ensures closes { Closes (here L.pushed L.pulled session) result seat.old.pass seat.new.pass }
{
    let Some(_linked) = session else {
        return why;
    };
    let now = seat.clock.now();
    // The link goes even if the exchange refuses the event.
    match seat.offer(shared, now, Waiting::down()) {
        Ok(_) => why,
        Err(refused) => why_without_down(why, refused),
    }
}

/// Why a line ends where the exchange refused its Down: a line that is to stop was not stopped then.
fn why_without_down(why: EndReason, refused: Over) -> EndReason
    ensures { result ≢ EndReason.Stopped }
{
    if why == EndReason::Stopped {
        reason_at(refused)
    } else {
        why
    }
}

/// Offers that the link of a line that is to stop went. If the exchange accepts that, what still waits for the link is left to be
/// written. Where an allocation fails the line stays as it is, and the Down is to be offered again.
pub(crate) fn stop<N: Name, L: Link, C: Clock, B: Bell, R: Wait>(
    shared: &Shared<'_, N, R>,
    seat: &mut Seat<N, C, B>,
    session: Option<Session<L>>,
) -> LineState<L>
    ensures { GoesOnTo N.subs L.pushed L.pulled session seat.old.pass result seat.new.pass }
{
    let Some(linked) = session else {
        return LineState::Ended(EndReason::Stopped);
    };
    let now = seat.clock.now();
    match seat.offer(shared, now, Waiting::down()) {
        Ok(_) => LineState::Stopped(linked),
        Err(Over::Halted) => LineState::Ended(EndReason::Halted),
        Err(Over::Journal) => {
            shared.exchange.halt(shared.rt);
            LineState::Ended(EndReason::Journal)
        }
        Err(Over::Memory | Over::Link) => LineState::Open(Some(linked)),
    }
}

/// Why a line that is to stop ends where the exchange refused its Down.
fn reason_at(refused: Over) -> EndReason
    ensures { result ≢ EndReason.Stopped }
{
    match refused {
        Over::Halted => EndReason::Halted,
        Over::Journal => EndReason::Journal,
        Over::Memory | Over::Link => EndReason::Memory,
    }
}

/// Writes what still waits for a link whose Down the exchange has accepted, as far as the link takes it: the octets that are left,
/// and the outputs for this connection that the outbox has. Those are the last ones. `None` where none of them is left, the link is
/// broken or closed, or an allocation fails.
pub(crate) fn write_rest<N: Name, L: Link, C: Clock, B: Bell, R: Wait>(
    shared: &Shared<'_, N, R>,
    seat: &mut Seat<N, C, B>,
    session: Session<L>,
) -> Option<Session<L>>
    ensures { WritesOn (modulus_of N.subs seat.old.pass.line) L.pushed session seat.old.pass result seat.new.pass }
{
    let mut session = session;
    let now = seat.clock.now();
    match session.write_out(shared, seat, now) {
        Ok(more) if more || !session.unwritten.is_empty() => Some(session),
        Ok(_) | Err(_) => None,
    }
}
