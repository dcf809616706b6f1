//! Which line takes a call request that a router brings.

ghost use Rattle.std.specs.Prelude.{◌<◌, IfOk, IfSome};
ghost use Rattle.xp_commands.specs.steps.Taken.{IsOfFile};
ghost use Rattle.xp_subs.specs.Tables.{line_count};

use crate::explaining::QuestionFault;
use crate::failure::CommandFailure;
use std::alloc::{AllocError, Global};
use std::fmt::Write;
use std::net::IpAddr;
use xp_causes::Refusal;
use xp_door::{Caller, Candidate, Choice, RouterCall, choose, is_router};
use xp_packets::{Digits, Modulus};
use xp_subs::{Access, LineNo, Subs};
use xp_words::{ClearingCause, Diagnostic};

/// A call request that a router brings: `2080011@192.0.2.10` is one of this calling address and this router, `@192.0.2.10` one
/// without a calling address.
#[derive(Drop)]
pub(crate) struct BroughtCall {
    calling: Digits,
    router: IpAddr,
}

/// Which line takes the call of a router.
#[derive(Clone, Copy)]
pub(crate) enum Taken {
    /// This one, where the call has this modulus.
    By(LineNo, Modulus),
    /// None: the call is refused so.
    Refused(Choice),
    /// None: no line of the file is behind a router of this address.
    ByNobody,
}

impl BroughtCall {
    /// The call that these two texts say.
    ///
    /// # Errors
    ///
    /// `Router` where the router is no IP address, or the calling address neither nothing nor 1 to 15 digits; and memory.
    pub(crate) fn read(
        alloc: Global,
        calling: &str,
        router: &str,
    ) -> Result<BroughtCall, CommandFailure> {
        match (Digits::from_text(calling), router.parse::<IpAddr>()) {
            (Some(calling), Ok(router)) => Ok(BroughtCall { calling, router }),
            (None, _) => {
                let told = format!(in alloc;
                    "no digits, or 1 to 15, are wanted before the @, found {calling:?}"
                )?;
                Err(CommandFailure::Question(QuestionFault::Router, told))
            }
            (_, Err(_)) => {
                let told = format!(in alloc;
                    "an IP address is wanted behind the @, found {router:?}"
                )?;
                Err(CommandFailure::Question(QuestionFault::Router, told))
            }
        }
    }

    /// Which line takes it, where these lines have a connection. It has the modulus of a line that is free, 8 where both would do.
    pub(crate) fn taken(
        &self,
        alloc: Global,
        subs: &Subs,
        busy: &[LineNo],
    ) -> Result<Taken, AllocError>
        ensures { IfOk result (λ taken. IsOfFile subs.now taken) }
    {
        let candidates = candidates_of(alloc, subs, busy)?;
        if !is_router(self.router, &candidates) {
            return Ok(Taken::ByNobody);
        }
        match self.choice(Modulus::Eight, &candidates) {
            Choice::NoFreeLine => {
                let choice = self.choice(Modulus::Long, &candidates);
                Ok(taken_by(subs, choice, Modulus::Long))
            }
            choice => Ok(taken_by(subs, choice, Modulus::Eight)),
        }
    }

    /// The choice of its line, where it has this modulus.
    fn choice(&self, modulus: Modulus, candidates: &[Candidate]) -> Choice {
        let call = RouterCall {
            peer: self.router,
            modulus,
            identifier: 1,
            calling: self.calling.copy(),
        };
        choose(&call, candidates)
    }

    /// What is told of it, as a line with its end.
    pub(crate) fn told(
        &self,
        alloc: Global,
        subs: &Subs,
        taken: &Taken,
    ) -> Result<String, AllocError>
        requires { IsOfFile subs.now taken.now }
    {
        let mut text = String::new(alloc);
        write!(text, "router {}", self.router)?;
        if self.calling.is_empty() {
            write!(text, ", no calling address: ")?;
        } else {
            write!(text, ", calling address {}: ", self.calling)?;
        }
        push_taken(&mut text, subs, taken)?;
        Ok(text)
    }
}

/// The line of a choice, where the call has this modulus.
fn taken_by(subs: &Subs, choice: Choice, modulus: Modulus) -> Taken
    ensures { IsOfFile subs.now result }
{
    match choice {
        Choice::Line(place) => match line_in_place(subs, place) {
            Some(line) => Taken::By(line, modulus),
            None => Taken::Refused(Choice::NoFreeLine),
        },
        refused => Taken::Refused(refused),
    }
}

/// The lines behind routers, in order, as the door matches calls with them: a line in this list has no connection.
fn candidates_of(
    alloc: Global,
    subs: &Subs,
    busy: &[LineNo],
) -> Result<Vec<Candidate>, AllocError> {
    let mut candidates = Vec::new(alloc);
    for number in 0..subs.counts().lines {
        let line = number as LineNo;
        if let Some(router) = router_of(subs, line) {
            candidates.push(Candidate {
                router,
                caller: Caller::of(subs, line),
                is_free: !busy.contains(&line),
            })?;
        }
    }
    Ok(candidates)
}

/// The line in this place among those behind routers.
fn line_in_place(subs: &Subs, place: usize) -> Option<LineNo>
    ensures { IfSome result (λ line. line < line_count subs.now) }
{
    let mut left = place;
    for number in 0..subs.counts().lines {
        let line = number as LineNo;
        if router_of(subs, line).is_some() {
            if left == 0 {
                return Some(line);
            }
            left -= 1;
        }
    }
    None
}

/// The IP address of the line's router, if it has one.
fn router_of(subs: &Subs, line: LineNo) -> Option<IpAddr>
    requires { line < line_count subs.now }
{
    match subs.access_of(line) {
        Access::Router(router) => router.address().parse::<IpAddr>().ok(),
        Access::Port(_) | Access::Spare => None,
    }
}

/// Which line takes the call, or why none does, and the end of the line. Where none does a second line has the cause and the diagnostic.
fn push_taken(text: &mut String, subs: &Subs, taken: &Taken) -> Result<(), AllocError>
    requires { IsOfFile subs.now taken.now }
{
    match taken {
        Taken::By(line, modulus) => {
            let name = subs.name_of(*line);
            let told = if *modulus == Modulus::Long {
                ", where it is of modulo 128"
            } else {
                ""
            };
            writeln!(text, "line {name} takes it{told}")
        }
        Taken::Refused(choice) => {
            let why = if *choice == Choice::NoCaller {
                "no line there has this address or is of such a station, and no station is the default caller"
            } else {
                "no line of its caller is free"
            };
            writeln!(text, "{why}")?;
            push_refusal(text, choice.refusal())
        }
        Taken::ByNobody => {
            writeln!(
                text,
                "no line is behind this router: its connections are closed"
            )
        }
    }
}

/// What the router is told, as a line with its end.
fn push_refusal(text: &mut String, refusal: Refusal) -> Result<(), AllocError> {
    let cause = ClearingCause(refusal.cause);
    let diagnostic = Diagnostic(refusal.diagnostic);
    writeln!(text, "refused: cause {cause}, diagnostic {diagnostic}")
}
