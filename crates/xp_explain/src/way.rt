//! The addresses through which a call goes.

ghost use Rattle.std.specs.Prelude.{◌≡◌, IfOk};
ghost use Rattle.xp_explain.specs.steps.Rules.{rule_at_end};

use crate::rule::Rule;
use std::alloc::{AllocError, Global};
use xp_causes::Refusal;
use xp_decide::{AddressOutcome, Wanted, call_at};
use xp_facilities::Reason;
use xp_groups::Admission;
use xp_hunt::Lines;
use xp_packets::Digits;
use xp_subs::{LineNo, Subs};

/// The most redirections of a way. The fifth refuses the call (X.25 clause 6.25).
const MOST_HOPS: usize = 5;

/// An address at which a call is redirected, and the reason.
#[derive(Clone, Copy)]
pub struct Hop<'a> {
    pub address: &'a Digits,
    pub reason: Reason,
}

/// What comes of a call where its way ends.
#[derive(Clone, Copy)]
pub enum End {
    /// This idle line takes the call.
    Taken(LineNo, Admission),
    Refused(Refusal),
    /// The call would be redirected a fifth time.
    RedirectedTooOften,
}

impl End {
    /// The rule that refuses the call, if it is refused.
    pub(crate) fn rule(self) -> Option<Rule>
        ensures { result ≡ rule_at_end self }
    {
        match self {
            End::Taken(_, _) => None,
            End::Refused(refusal) => Some(Rule::for_address(refusal)),
            End::RedirectedTooOften => Some(Rule::Redirections),
        }
    }
}

/// The addresses through which a call goes.
#[derive(Drop)]
pub struct Way<'a> {
    /// Those at which it is redirected, in order.
    pub hops: Vec<Hop<'a>>,
    /// Where it ends.
    pub last: &'a Digits,
    pub end: End,
}

impl<'a> Way<'a> {
    ghost use Rattle.xp_explain.specs.Way.{IsWay};

    /// The way of a call from the dialled address.
    ///
    /// # Errors
    ///
    /// An allocation failed.
    pub(crate) fn of<L: Lines>(
        alloc: Global,
        subs: &'a Subs,
        lines: &L,
        wanted: &Wanted,
        dialled: &'a Digits,
    ) -> Result<Way<'a>, AllocError>
        ensures { IfOk result (IsWay subs.now (L.states lines.now) wanted.now dialled.now) }
    {
        let mut hops = Vec::new(alloc);
        let mut last = dialled;
        for _hop in 0..MOST_HOPS {
            match call_at(subs, lines, wanted, last) {
                Ok(AddressOutcome::RedirectedTo(reason, to)) => {
                    hops.push(Hop {
                        address: last,
                        reason,
                    })?;
                    last = to;
                }
                Ok(AddressOutcome::Taken(line, admission)) => {
                    let end = End::Taken(line, admission);
                    return Ok(Way { hops, last, end });
                }
                Err(refusal) => {
                    let end = End::Refused(refusal);
                    return Ok(Way { hops, last, end });
                }
            }
        }
        Ok(Way {
            hops,
            last,
            end: End::RedirectedTooOften,
        })
    }
}
