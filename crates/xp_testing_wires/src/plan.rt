//! What a link does.

use std::alloc::{AllocError, Global};
use xp_testing::{number, octets_of};

/// Octets that a link gives once it took so many; no octets are its end.
#[derive(Drop)]
pub struct Piece {
    pub after: usize,
    pub octets: Vec<u8>,
}

/// What a link gives, and what it is to be given.
#[derive(Drop)]
pub struct Plan {
    pub words: String,
    pub gives: Vec<Piece>,
    /// All octets that it is to be given.
    pub wants: Vec<u8>,
    /// How many of them it is given before a stop.
    pub before_stop: usize,
    /// How many octets a push takes at most, and all pushes together.
    pub most: u64,
    pub all: u64,
}

impl Plan {
    /// The plan that these words tell.
    pub fn new(alloc: Global, words: &str) -> Result<Plan, AllocError> {
        let mut plan = Plan {
            words: String::new(alloc),
            gives: Vec::new(alloc),
            wants: Vec::new(alloc),
            before_stop: 0,
            most: number(words, "most=", u64::MAX),
            all: number(words, "all=", u64::MAX),
        };
        plan.read(alloc, words)?;
        Ok(plan)
    }

    fn read(&mut self, alloc: Global, words: &str) -> Result<(), AllocError> {
        self.words.push_str(words)?;
        for word in words.split_whitespace() {
            self.add(alloc, word)?;
        }
        Ok(())
    }

    fn add(&mut self, alloc: Global, word: &str) -> Result<(), AllocError> {
        let after = self.wants.len();
        if word == "|" {
            self.before_stop = after;
        } else if let Some(name) = word.strip_prefix('<') {
            add_frame(alloc, name, &mut self.wants)?;
        } else if let Some(name) = word.strip_prefix('>') {
            let mut octets = Vec::new(alloc);
            add_frame(alloc, name, &mut octets)?;
            self.gives.push(Piece { after, octets })?;
        }
        Ok(())
    }
}

/// Adds the frame of the packet with this name; nothing where no packet has it.
fn add_frame(alloc: Global, name: &str, into: &mut Vec<u8>) -> Result<(), AllocError> {
    let octets = octets_of(alloc, name)?;
    if octets.is_empty() {
        return Ok(());
    }
    into.extend_from_slice(&[0, 0, 0, octets.len().min(255) as u8])?;
    into.extend_from_slice(&octets)
}

/// The words behind this name in a scene; none, of a line, where the scene does not name it.
pub fn words_of<'a>(scene: &'a str, name: &str) -> &'a str {
    for line in scene.lines() {
        if let Some(words) = line.strip_prefix(name) {
            return words;
        }
    }
    "none"
}
