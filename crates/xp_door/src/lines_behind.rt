//! The lines behind each router.

ghost use Rattle.std.specs.Net.Socket.{socket_ip};
ghost use Rattle.std.specs.Prelude.{◌≡◌, IfOk, map};
ghost use Rattle.xp_door.specs.steps.Choices.{IsGiven, candidate_of};

use crate::choosing::{Candidate, Choice, choose, line_for};
use crate::routed_line::RoutedLine;
use crate::router_call::RouterCall;
use crate::router_line::{Arrival, RouterLine};
use std::alloc::{AllocError, Global};
use std::net::IpAddr;
use std::sync::Arc;
use xp_causes::Refusal;
use xp_subs::LineNo;

/// How often a line is chosen for a connection at most, where those that were chosen took another meanwhile.
const MOST_CHOICES: usize = 16;

/// What has become of a connection of a router.
#[derive(Drop)]
pub(crate) enum Given {
    /// This line has it.
    To(LineNo),
    /// No line takes it, for this reason.
    Refused(Arrival, Refusal),
}

/// The lines behind one router, in line order.
#[derive(Drop)]
pub(crate) struct LinesBehind {
    /// The address of the router. An IPv4-mapped IPv6 address stands as the IPv4 address in it.
    pub(crate) router: IpAddr,
    lines: Vec<Arc<RouterLine>>,
    /// The same lines as they were last looked at.
    candidates: Vec<Candidate>,
}

impl LinesBehind {
    /// These lines, which are all behind this router.
    pub(crate) fn new(
        alloc: Global,
        router: IpAddr,
        lines: &[RoutedLine],
    ) -> Result<LinesBehind, AllocError> {
        Ok(LinesBehind {
            router: router.to_canonical(),
            lines: lines_of(alloc, lines)?,
            candidates: candidates_of(alloc, lines)?,
        })
    }

    /// Gives a connection to the line that takes its call, or where it opens with no call request, to the first that is free.
    pub(crate) fn give(&mut self, arrival: Arrival, call: &Option<RouterCall>) -> Given {
        let mut left = arrival;
        for _choice in 0..MOST_CHOICES {
            self.look();
            let choice = self.choice_of(&left, call);
            let Choice::Line(place) = choice else {
                return Given::Refused(left, choice.refusal());
            };
            match self.hand(place, left) {
                Ok(line) => return Given::To(line),
                Err(back) => left = back,
            }
        }
        Given::Refused(left, Refusal::NUMBER_BUSY)
    }

    /// Looks which lines are free.
    fn look(&mut self) {
        for (place, line) in self.lines.iter().enumerate() {
            if let Some(candidate) = self.candidates.get_mut(place) {
                candidate.is_free = line.is_free();
            }
        }
    }

    /// Which line takes a connection.
    fn choice_of(&self, arrival: &Arrival, call: &Option<RouterCall>) -> Choice
        ensures { IsGiven (socket_ip arrival.now.peer) call.now self.now.candidates.items result }
    {
        let candidates = self.candidates.as_slice();
        match call {
            Some(call) => choose(call, candidates),
            None => match line_for(arrival.peer.ip(), candidates) {
                Some(place) => Choice::Line(place),
                None => Choice::NoFreeLine,
            },
        }
    }

    /// Hands a connection to the line in this place. It comes back where the line can't take it.
    fn hand(&self, place: usize, arrival: Arrival) -> Result<LineNo, Arrival> {
        let Some(line) = self.lines.get(place) else {
            return Err(arrival);
        };
        line.hand(arrival)?;
        Ok(line.line)
    }
}

/// Further handles of the lines.
fn lines_of(alloc: Global, lines: &[RoutedLine]) -> Result<Vec<Arc<RouterLine>>, AllocError> {
    let mut clones = Vec::with_capacity(alloc, lines.len())?;
    for line in lines {
        clones.push(Arc::try_clone(&line.line)?)?;
    }
    Ok(clones)
}

/// The lines as a connection's choice sees them, none of them free before they are looked at.
fn candidates_of(alloc: Global, lines: &[RoutedLine]) -> Result<Vec<Candidate>, AllocError>
    ensures { IfOk result (λ candidates. candidates.items ≡ map candidate_of lines.now) }
{
    let mut candidates = Vec::with_capacity(alloc, lines.len())?;
    for line in lines {
        candidates.push(Candidate {
            router: line.router.ip(),
            caller: line.caller.copy(),
            is_free: false,
        })?;
    }
    Ok(candidates)
}
