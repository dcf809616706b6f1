//! Places that many threads mark, and one thread takes.

ghost use Rattle.std.specs.Prelude.{◌≡◌, ◌+◌, ◌≤◌, ◌++◌, vec_capacity, vec_len};
ghost use Rattle.xp_door.specs.Marks.{ones};

use std::alloc::{AllocError, Global};
use std::sync::atomic::AtomicU64;
use std::sync::atomic::Ordering::SeqCst;

/// How many places a word has.
const PLACES_OF_A_WORD: usize = 64;

/// How many words there are at most: a place is a number of 16 bits.
const MOST_WORDS: usize = 1_024;

/// A set of places, from 0 on. Any thread marks a place, and one thread takes those that are marked. There is a word for each 64
/// places, so a look whether any is marked reads a 64th of them.
#[derive(Drop)]
pub struct Marks {
    words: Vec<AtomicU64>,
}

impl Marks {
    /// So many places, none of them marked.
    ///
    /// # Errors
    ///
    /// `AllocError` if an allocation fails.
    pub fn new(alloc: Global, places: usize) -> Result<Marks, AllocError> {
        let count = places.div_ceil(PLACES_OF_A_WORD).min(MOST_WORDS);
        let mut words = Vec::with_capacity(alloc, count)?;
        for _word in 0..count {
            words.push(AtomicU64::new(0))?;
        }
        Ok(Marks { words })
    }

    /// Marks a place.
    pub fn mark(&self, place: usize) {
        let Some(word) = self.words.get(place / PLACES_OF_A_WORD) else {
            return;
        };
        let one = 1 << (place % PLACES_OF_A_WORD);
        if word.load(SeqCst) & one == 0 {
            word.fetch_or(one, SeqCst);
        }
    }

    /// Whether a place is marked.
    pub fn is_any(&self) -> bool {
        self.words.iter().any(|word| word.load(SeqCst) != 0)
    }

    /// Takes the marked places, the lowest first. From now on they are not marked.
    ///
    /// # Errors
    ///
    /// `AllocError` if an allocation fails. Places that were not taken stay marked.
    pub fn take(&self, places: &mut Vec<usize>) -> Result<(), AllocError> {
        places.clear();
        for index in 0..self.words.len().min(MOST_WORDS) {
            let word = &self.words[index];
            if word.load(SeqCst) != 0 {
                places.reserve(PLACES_OF_A_WORD)?;
                push_ones(word.swap(0, SeqCst), index * PLACES_OF_A_WORD, places);
            }
        }
        Ok(())
    }
}

/// Adds the places of the ones of a word, the lowest first. Its last digit has the place `first`.
#[tactic(auto, using(crate::proofs::Digits::all_digits, crate::proofs::Digits::after_one, crate::proofs::Digits::after_none))]
pub fn push_ones(word: u64, first: usize, places: &mut Vec<usize>)
    requires place { first ≤ 65536 }
    requires room { vec_len places.old + 64 ≤ vec_capacity places.old }
    ensures { places.new.items ≡ places.old.items ++ ones 64 first word }
{
    let mut rest = word;
    for digit in 0..PLACES_OF_A_WORD {
        if rest % 2 == 1 {
            places.push_reserved(first + digit);
        }
        rest /= 2;
    }
}
