//! By which subscriptions the calls are told that a keeper is handed.

ghost use Rattle.std.specs.Prelude.{◌≡◌, ◌==◌, ◌++◌, ◌∷◌, [], List, if◌then◌else◌};
ghost use Rattle.xp_cdr.specs.Ended.{ended_as};
ghost use Rattle.xp_charge.specs.Lines.{HasLines};
ghost use Rattle.xp_keeping.specs.Told.{AreToldInTurn};
ghost use Rattle.xp_keeping.specs.steps.Telling.{first_told};
ghost use Rattle.xp_subs.specs.Tables.{Tables, line_count};

use std::marker::Model;
use std::snapshot::Snapshot;
use xp_cdr::{EndedBy, EndedCall};
use xp_charge::Record;
use xp_past::Past;
use xp_subs::Subs;

/// The subscriptions by which calls are told, and what was told by them and by those before them.
#[derive(Drop)]
pub(crate) struct Telling {
    /// By these the lines of further calls are named.
    subs: Subs,
    opening: Snapshot<Subs>,
    /// All before them.
    earlier: Past<Subs>,
    given: Past<EndedCall>,
}

impl Model for Telling {
    ghost use Rattle.std.specs.Prelude.{[], ◌∷◌, ◌++◌};
    ghost use Rattle.xp_keeping.specs.Told.{AreToldInTurn};
    ghost use Rattle.xp_keeping.specs.steps.Telling.{Told};

    ghost Value = { Told };

    ghost view = { λ t. record { opening = t.opening.value; named = t.earlier.items ++ t.subs ∷ []; subs = t.subs; given = t.given.items } };

    ghost invariant = { λ t. AreToldInTurn (t.earlier.items ++ t.subs ∷ []) t.given.items };
}

impl Telling {
    /// Nothing was told yet, and calls are told by these subscriptions.
    pub(crate) fn new(subs: Subs) -> Telling
        ensures { result ≡ first_told subs }
    {
        Telling {
            opening: Snapshot::of(&subs),
            subs,
            earlier: Past::new(),
            given: Past::new(),
        }
    }

    /// The subscriptions by which further calls are told.
    pub(crate) fn subs(&self) -> &Subs
        ensures subs { result.now ≡ self.now.subs }
        ensures told { AreToldInTurn self.now.named self.now.given }
    {
        &self.subs
    }

    /// Tells a call of this charging record, which ended by that.
    pub(crate) fn tell(&mut self, ended: &Record, by: EndedBy) -> EndedCall
        requires lines { HasLines (line_count self.old.subs) ended.now }
        ensures call { result ≡ ended_as self.old.subs by ended.now }
        ensures given { self.new.given ≡ self.old.given ++ result ∷ [] }
        ensures subs { self.new.subs ≡ self.old.subs }
        ensures named { self.new.named ≡ self.old.named }
        ensures opening { self.new.opening ≡ self.old.opening }
    {
        let call = EndedCall::of(&self.subs, ended, by);
        self.given.push(&call);
        call
    }

    /// Tells further calls by these subscriptions, unless they have another number of lines.
    pub(crate) fn rename(&mut self, subs: Subs)
        ensures subs { self.new.subs ≡ (if line_count subs == line_count self.old.subs then subs else self.old.subs) }
        ensures lines { line_count self.new.subs ≡ line_count self.old.subs }
        ensures named { (later : List Tables) × (self.new.named ≡ self.old.named ++ later) }
        ensures opening { self.new.opening ≡ self.old.opening }
        ensures given { self.new.given ≡ self.old.given }
    {
        if subs.counts().lines == self.subs.counts().lines {
            self.earlier.push(&self.subs);
            self.subs = subs;
        }
    }
}
