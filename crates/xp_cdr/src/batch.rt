//! Several call detail records as one text.

ghost use Rattle.std.specs.Prelude.{◌≡◌, ◌∷◌, [], ◌+◌, ◌^◌, ◌<◌, IfNone, IfSome, OnErr, OnOk, drop, length};
ghost use Rattle.xp_cdr.specs.Details.{detail_text};
ghost use Rattle.xp_cdr.specs.steps.Batch.{end_of_all, no_texts, with_text, with_texts};

use crate::cut::Cut;
use crate::detail::write_detail;
use crate::ended::EndedCall;
use crate::record_file::RecordFile;
use crate::run::ExchangeRun;
use std::alloc::{AllocError, Global};
use std::marker::Model;

/// Call detail records, one after the other, with cuts where the text of a later part begins.
#[derive(Drop)]
pub struct Batch {
    octets: Vec<u8>,
    /// How many there are.
    count: usize,
    cuts: Vec<Cut>,
    /// The part of the last cut, or the one with which it began.
    part: u64,
}

impl Model for Batch {
    ghost use Rattle.xp_cdr.specs.steps.Batch.{Texts};

    ghost Value = { Texts };

    ghost view = { λ batch. record { octets = batch.octets.items; count = batch.count; cuts = batch.cuts.items; part = batch.part } };
}

impl Batch {
    /// A batch of no call detail record, which begins in this part.
    pub fn new(alloc: Global, part: u64) -> Batch
        ensures { result ≡ no_texts part }
    {
        Batch {
            octets: Vec::new(alloc),
            count: 0,
            cuts: Vec::new(alloc),
            part,
        }
    }

    /// The text of all of them.
    pub fn octets(&self) -> &[u8]
        ensures { result.now ≡ self.now.octets }
    {
        self.octets.as_slice()
    }

    /// How many there are.
    pub fn count(&self) -> usize
        ensures { result ≡ self.now.count }
    {
        self.count
    }

    /// The last part.
    pub fn part(&self) -> u64
        ensures { result ≡ self.now.part }
    {
        self.part
    }

    /// The cut at this place, from 0 on.
    pub fn cut(&self, place: usize) -> Option<Cut>
        ensures some { IfSome result (λ cut. drop place self.now.cuts ≡ cut ∷ drop (place + 1) self.now.cuts) }
        ensures within { IfSome result (λ _. place < length self.now.cuts) }
        ensures fits { IfSome result (λ _. place + 1 < 2 ^ 64) }
        ensures none { IfNone result (drop place self.now.cuts ≡ []) }
    {
        if place < self.cuts.len() {
            Some(self.cuts[place])
        } else {
            None
        }
    }

    /// The end of all, as a cut.
    pub fn end(&self) -> Cut
        ensures { result ≡ end_of_all self.now }
    {
        Cut {
            part: self.part,
            octets: self.octets.len(),
            count: self.count,
        }
    }

    /// Drops all of them, and keeps the memory. The next begin in this part.
    pub fn clear(&mut self, part: u64)
        ensures { self.new ≡ no_texts part }
    {
        self.octets.clear();
        self.count = 0;
        self.cuts.clear();
        self.part = part;
    }

    /// Adds the call detail records of these calls, for this file.
    ///
    /// # Errors
    ///
    /// Memory is wanting. Then the batch is as it was.
    pub fn push_all<F: RecordFile>(
        &mut self,
        file: &F,
        run: &ExchangeRun,
        calls: &[EndedCall],
    ) -> Result<(), AllocError>
        ensures ok { OnOk result (self.new ≡ with_texts F.part_of (detail_text run.now) self.old calls.now) }
        ensures err { OnErr result (self.new ≡ self.old) }
    {
        let (octets, count) = (self.octets.len(), self.count);
        let (cuts, part) = (self.cuts.len(), self.part);
        for call in calls {
            let own = file.part_at(call.charging.ended);
            match self.push(own, run, call) {
                Ok(()) => {}
                Err(refused) => {
                    self.octets.truncate(octets);
                    self.count = count;
                    self.cuts.truncate(cuts);
                    self.part = part;
                    return Err(refused);
                }
            }
        }
        Ok(())
    }

    /// Adds the call detail record of a call of this part, or nothing if memory is wanting.
    fn push(&mut self, part: u64, run: &ExchangeRun, call: &EndedCall) -> Result<(), AllocError>
        ensures ok { OnOk result (self.new ≡ with_text self.old part (detail_text run.now call.now)) }
        ensures err { OnErr result (self.new ≡ self.old) }
    {
        let count = self.count.checked_add(1).ok_or(AllocError)?;
        self.cuts.reserve(1)?;
        let cut = Cut {
            part,
            octets: self.octets.len(),
            count: self.count,
        };
        let alloc = *self.octets.allocator();
        write_detail(alloc, run, call, &mut self.octets)?;
        self.count = count;
        if self.part < part {
            self.cuts.push_reserved(cut);
            self.part = part;
        }
        Ok(())
    }
}
