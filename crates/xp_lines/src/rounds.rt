//! The lines of one thread, served in turn.

ghost use Rattle.std.specs.Prelude.{◌≡◌};

use crate::line::EndReason;
use crate::served_line::ServedLine;
use crate::shared::Shared;
use std::sync::Wait;
use xp_links::{Bell, Clock, Patience, Poller, Port};
use xp_seats::Name;

/// How often the Down of a line that is to stop is offered at most.
const MOST_OFFERS: u32 = 100;

/// For how many seconds stopped lines write at most.
const MOST_SECONDS: u64 = 5;

/// How often they write in that time at most, since a clock may stand still.
const MOST_WRITES: u32 = 10_000;

/// Serves the lines of a thread, for as many rounds as the limits say at most: in each, every line that is due has a turn. It halts the exchange where
/// the journal is full. It tells the recording thread of the records that were made, and that the lines have ended.
///
/// At the end each line offers the Down of a link that is still there. Where an allocation fails, lines that were asked to stop
/// offer it again, at most 100 times. Once the exchange has accepted their Downs, they write what still waits for their links, for
/// at most 5 seconds, and only then drop them.
pub(crate) fn serve_lines<N: Name, P: Port, C: Clock, B: Bell, T: Poller, R: Wait>(
    shared: &Shared<'_, N, R>,
    lines: Vec<ServedLine<N, P, C, B>>,
    poller: T,
) -> Vec<ServedLine<N, P, C, B>>
    ensures { result.items ≡ lines.items }
{
    let mut lines = lines;
    let mut poller = poller;
    have_rounds(shared, &mut lines, &mut poller);
    if shared.signals.is_stopping() {
        stop_all(shared, &mut lines, &mut poller);
        write_all(shared, &mut lines, &mut poller);
    } else {
        end_all(shared, &mut lines);
    }
    shared.signals.thread_ended();
    lines
}

/// Has rounds of turns, until there were as many as the limits say, the lines are to stop, or all have ended.
fn have_rounds<N: Name, P: Port, C: Clock, B: Bell, T: Poller, R: Wait>(
    shared: &Shared<'_, N, R>,
    lines: &mut Vec<ServedLine<N, P, C, B>>,
    poller: &mut T,
)
    ensures { lines.new.items ≡ lines.old.items }
{
    let mut open = lines.len();
    for _round in 0..shared.signals.most_rounds() {
        if open == 0 || shared.signals.is_stopping() {
            return;
        }
        let round = have_round(shared, lines, poller);
        open = open.saturating_sub(round.ended);
        if open > 0 {
            poller.poll(round.patience());
        }
    }
}

/// What a round came to.
#[derive(Clone, Copy)]
struct Round {
    /// How many lines have ended in it.
    ended: usize,
    /// Whether a line has a turn to make up.
    is_held: bool,
}

impl Round {
    /// For how long the thread may wait before the next round.
    fn patience(self) -> Patience {
        if self.is_held {
            Patience::Short
        } else {
            Patience::Long
        }
    }
}

/// A turn of each line that is due.
fn have_round<N: Name, P: Port, C: Clock, B: Bell, T: Poller, R: Wait>(
    shared: &Shared<'_, N, R>,
    lines: &mut Vec<ServedLine<N, P, C, B>>,
    poller: &mut T,
) -> Round
    ensures { lines.new.items ≡ lines.old.items }
{
    let mut ended: usize = 0;
    let mut is_held = false;
    for _line in 0..lines.len() {
        let Some(place) = poller.next_due() else {
            return Round { ended, is_held };
        };
        if let Some(line) = lines.get_mut(place) {
            let has_ended = line.have_turn(shared);
            ended = ended.saturating_add(usize::from(has_ended));
            if line.is_held() {
                poller.hold(place);
                is_held = true;
            }
        }
    }
    Round { ended, is_held }
}

/// Stops each line. Where an allocation fails for the Down of one, it is tried again after a moment.
fn stop_all<N: Name, P: Port, C: Clock, B: Bell, T: Poller, R: Wait>(
    shared: &Shared<'_, N, R>,
    lines: &mut Vec<ServedLine<N, P, C, B>>,
    poller: &mut T,
)
    ensures { lines.new.items ≡ lines.old.items }
{
    for _offer in 0..MOST_OFFERS {
        if !stop_each(shared, lines) {
            return;
        }
        poller.pause();
    }
}

/// Asks each line to stop. Returns whether one has to be asked again.
fn stop_each<N: Name, P: Port, C: Clock, B: Bell, R: Wait>(
    shared: &Shared<'_, N, R>,
    lines: &mut Vec<ServedLine<N, P, C, B>>,
) -> bool
    ensures { lines.new.items ≡ lines.old.items }
{
    let mut is_owed = false;
    for line in lines.iter_mut() {
        line.stop(shared);
        is_owed |= line.is_open();
    }
    is_owed
}

/// Writes what stopped lines have still to write, until none of it is left or the time is up.
fn write_all<N: Name, P: Port, C: Clock, B: Bell, T: Poller, R: Wait>(
    shared: &Shared<'_, N, R>,
    lines: &mut Vec<ServedLine<N, P, C, B>>,
    poller: &mut T,
)
    ensures { lines.new.items ≡ lines.old.items }
{
    let start = time_of(lines);
    for _write in 0..MOST_WRITES {
        let is_left = write_each(shared, lines);
        if !is_left || time_of(lines).saturating_sub(start) >= MOST_SECONDS {
            return;
        }
        poller.pause();
    }
}

/// Lets each stopped line write. Returns whether one has still something to write.
fn write_each<N: Name, P: Port, C: Clock, B: Bell, R: Wait>(
    shared: &Shared<'_, N, R>,
    lines: &mut Vec<ServedLine<N, P, C, B>>,
) -> bool
    ensures { lines.new.items ≡ lines.old.items }
{
    let mut is_left = false;
    for line in lines.iter_mut() {
        is_left |= line.write_rest(shared);
    }
    is_left
}

/// The time by the clock of the lines, in seconds: the latest of them.
fn time_of<N: Name, P: Port, C: Clock, B: Bell>(lines: &mut Vec<ServedLine<N, P, C, B>>) -> u64
    ensures { lines.new.items ≡ lines.old.items }
{
    let mut now = 0;
    for line in lines.iter_mut() {
        now = line.now().max(now);
    }
    now
}

/// Ends each line that has not ended, since its turns are over.
fn end_all<N: Name, P: Port, C: Clock, B: Bell, R: Wait>(
    shared: &Shared<'_, N, R>,
    lines: &mut Vec<ServedLine<N, P, C, B>>,
)
    ensures { lines.new.items ≡ lines.old.items }
{
    for line in lines.iter_mut() {
        line.end(shared, EndReason::Turns);
    }
}
