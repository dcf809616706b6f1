//! What is noted of an exchange that is played with.
//!
//! Outputs, refusals and books are looked into by reference: of a value that is looked into, the prover takes each kind of packet
//! apart as it is dropped.

use std::alloc::{AllocError, Allocator, Global};
use xp_charge::Record;
use xp_lock::{Book, OfferFault, Receipt};
use xp_packets::Packet;
use xp_step::{Outgoing, Put};

/// What is noted.
#[derive(Drop)]
pub struct Log {
    pub alloc: Global,
    /// What was told, in words.
    pub told: String,
    /// The moment of the next offer.
    pub moment: u64,
    /// The number of the last entry of these offers.
    pub entry: u64,
    /// The first line that was given something by the last offer that was taken, or 999.
    pub given: u64,
    /// How often memory was wanting for an offer, and for a taking of records.
    pub offers_again: u64,
    pub takes_again: u64,
    /// The number of the last record.
    pub record: u64,
}

impl Log {
    pub fn new(alloc: Global) -> Log {
        Log {
            alloc,
            told: String::new(alloc),
            moment: 0,
            entry: 0,
            given: 999,
            offers_again: 0,
            takes_again: 0,
            record: 0,
        }
    }

    /// Tells a word.
    pub fn tell(&mut self, word: &str) -> Result<(), AllocError> {
        self.told.push_str(word)?;
        self.told.push_str(" ")
    }

    /// Tells numbers.
    pub fn tell_numbers(&mut self, numbers: &[u64]) -> Result<(), AllocError> {
        let alloc = self.alloc;
        for number in numbers {
            let text = format!(in alloc; "{} ", *number)?;
            self.told.push_str(text.as_str())?;
        }
        Ok(())
    }

    /// Notes what came of an offer: a refusal is told, and an entry whose number is no greater than the one before.
    pub fn note<A: Allocator>(
        &mut self,
        tried: &Result<Receipt, OfferFault<A>>,
    ) -> Result<(), AllocError> {
        match tried {
            Ok(done) => self.note_entry(done),
            Err(OfferFault::Halted(_)) => self.tell("halted"),
            Err(OfferFault::JournalFull(_)) => self.tell("full"),
            Err(OfferFault::NoRoom(_)) => self.tell("no-room"),
            Err(OfferFault::Memory(_)) => self.tell("memory"),
        }
    }

    fn note_entry(&mut self, done: &Receipt) -> Result<(), AllocError> {
        self.given = match done.given().first() {
            Some(line) => u64::from(*line),
            None => 999,
        };
        let before = self.entry;
        self.entry = done.entry();
        if self.entry <= before {
            self.tell("disorder")?;
        }
        Ok(())
    }

    /// Notes records, which are numbered one after the other.
    pub fn note_records(&mut self, records: &[Record]) -> Result<(), AllocError> {
        for record in records {
            self.record = self.record.saturating_add(1);
            if record.number != self.record {
                self.tell("gap")?;
            }
        }
        Ok(())
    }

    /// Tells how many entries the closed book has, how many outputs a1 and b1 took, how many records there are, and of each that
    /// still waits its number, the moment of its end, its segments and its seconds.
    pub fn tell_book<A: Allocator + Copy>(&mut self, book: &Book<A>) -> Result<(), AllocError> {
        self.tell_numbers(&[book.count(), book.taken(0), book.taken(1)])?;
        self.tell_numbers(&[book.record_count()])?;
        for record in book.records() {
            let (caller, called) = (record.from_caller, record.from_called);
            self.tell_numbers(&[record.number, record.ended])?;
            self.tell_numbers(&[u64::from(caller), u64::from(called), record.seconds()])?;
        }
        Ok(())
    }
}

/// What an output is; of a clear indication, its cause and its diagnostic, which is 999 where there is none.
pub fn kind_of<A: Allocator>(item: &Outgoing<A>) -> (&'static str, u64, u64) {
    match &item.put {
        Put::Close => ("close", 0, 0),
        Put::Send { packet, .. } => match packet {
            Packet::Call { .. } => ("call", 0, 0),
            Packet::Clear {
                cause,
                diagnostic,
                ..
            } => ("clear", u64::from(*cause), number_of(*diagnostic)),
            _ => ("other", 0, 0),
        },
    }
}

fn number_of(diagnostic: Option<u8>) -> u64 {
    match diagnostic {
        Some(diagnostic) => u64::from(diagnostic),
        None => 999,
    }
}
