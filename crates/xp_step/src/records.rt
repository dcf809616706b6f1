ghost use Rattle.std.specs.Prelude.{◌≡◌, ◌+◌, ◌-◌, ◌<◌, ◌≤◌, [], ◌∷◌, ◌++◌, IfOk, length, option_to_list};

use std::alloc::{AllocError, Allocator, Global};
use std::marker::Model;
use xp_charge::Record;

/// The records of one entry. Most entries have none, and then they allocate nothing. An entry has two at most, in a
/// call collision (X.25 clause 4.1.6): that of the cancelled call, and that of the line's own call if it is refused.
#[derive(Drop)]
pub struct Records<A: Allocator = Global> {
    records: Vec<Record, A>,
}

impl<A: Allocator> Model for Records<A> {
    ghost use Rattle.std.specs.Prelude.{◌-◌, vec_len, vec_capacity};
    ghost use Rattle.xp_step.specs.Recorded.{Recorded};

    ghost Value = { Recorded };

    ghost view = { λ r. record { items = r.records.items; room = vec_capacity r.records - vec_len r.records } };
}

impl<A: Allocator> Records<A> {
    /// Returns no records.
    pub fn none(alloc: A) -> Records<A>
        ensures { result.items ≡ [] }
    {
        Records {
            records: Vec::new(alloc),
        }
    }

    /// Returns no records, with room for this many.
    pub fn with_room(alloc: A, room: usize) -> Result<Records<A>, AllocError>
        ensures { IfOk result (λ records. (records.items ≡ []) × (room ≤ records.room)) }
    {
        let records = Vec::with_capacity(alloc, room)?;
        Ok(Records { records })
    }

    /// Returns this record alone, if there is one.
    pub(crate) fn of(alloc: A, charged: Option<Record>) -> Result<Records<A>, AllocError>
        ensures { IfOk result (λ records. records.items ≡ option_to_list charged) }
    {
        match charged {
            None => Ok(Records::none(alloc)),
            Some(charged) => Ok(Records::with_room(alloc, 1)?.with(charged)),
        }
    }

    /// Returns the records with one more, after the others.
    pub(crate) fn with(mut self, charged: Record) -> Records<A>
        requires { 0 < self.room }
        ensures { result ≡ record { items = self.items ++ charged ∷ []; room = self.room - 1 } }
    {
        self.records.push_reserved(charged);
        self
    }

    /// Returns the records with this one added, if there is one.
    pub fn with_some(self, charged: Option<Record>) -> Records<A>
        requires { length (option_to_list charged) ≤ self.room }
        ensures items { result.items ≡ self.items ++ option_to_list charged }
        ensures room { self.room ≡ result.room + length (option_to_list charged) }
        ensures count { length result.items ≤ length self.items + 1 }
    {
        match charged {
            None => self,
            Some(charged) => self.with(charged),
        }
    }

    /// Returns the records in order.
    pub fn as_slice(&self) -> &[Record]
        ensures { result.now ≡ self.now.items }
    {
        self.records.as_slice()
    }
}
