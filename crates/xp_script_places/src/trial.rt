//! Parts of a faulty line, each tried in a line of its own.

use std::alloc::{AllocError, Global};
use xp_script::{Command, LineFault, NamedTables};
use xp_subs::{LineNo, Subs};

/// What a line begins with that brings subscriptions into force. A trial does not find it where none have a name.
const TABLES: &[u8] = b"tables";

/// What a line of a script wants behind its first word.
#[derive(Clone, Copy)]
pub(crate) enum Form {
    /// The name of a line.
    Line,
    /// The name of a line, and hexadecimal digits.
    Octets,
    /// A moment.
    Moment,
    /// The name of subscriptions.
    Tables,
}

/// What reads lines of scripts, to which parts of a faulty line are tried.
#[derive(Clone, Copy)]
pub(crate) struct Trial<'a, 'n> {
    pub(crate) alloc: Global,
    pub(crate) subs: &'a Subs,
    pub(crate) named: &'a [NamedTables<'n>],
}

impl Trial<'_, '_> {
    /// Whether this is a line of a script.
    pub(crate) fn is_line(&self, line: &[u8]) -> Result<bool, AllocError> {
        Ok(self.read(line)?.is_some())
    }

    /// Whether these words, with a space between them, are a line of a script.
    pub(crate) fn are_line(&self, words: &[&[u8]]) -> Result<bool, AllocError> {
        self.is_line(&joined(self.alloc, words)?)
    }

    /// What a line wants that begins with this word. `None` where no line does.
    pub(crate) fn form_of(&self, word: &[u8]) -> Result<Option<Form>, AllocError> {
        if self.is_moment(word)? {
            return Ok(Some(Form::Moment));
        }
        let name = self.first_name().as_bytes();
        if self.are_line(&[word, name])? {
            return Ok(Some(Form::Line));
        }
        if self.are_line(&[word, name, b"00"])? {
            return Ok(Some(Form::Octets));
        }
        if word == TABLES {
            return Ok(Some(Form::Tables));
        }
        Ok(None)
    }

    /// Whether a line that begins with this word tells a moment.
    fn is_moment(&self, word: &[u8]) -> Result<bool, AllocError> {
        let command = self.read(&joined(self.alloc, &[word, b"0"])?)?;
        Ok(matches!(command, Some(Command::At(_))))
    }

    /// The name of the first line.
    fn first_name(&self) -> &str {
        for number in 0..self.subs.counts().lines {
            let line = number as LineNo;
            if !self.subs.is_spare(line) {
                return self.subs.name_of(line);
            }
        }
        ""
    }

    /// What a line asks for. `None` where it is no line of a script.
    fn read(&self, line: &[u8]) -> Result<Option<Command>, AllocError> {
        match Command::read(self.subs, self.named, line, Vec::new(self.alloc)) {
            Ok(command) => Ok(Some(command)),
            Err(LineFault::Faulty) => Ok(None),
            Err(LineFault::Memory) => Err(AllocError),
        }
    }
}

/// These words with a space between them.
fn joined(alloc: Global, words: &[&[u8]]) -> Result<Vec<u8>, AllocError> {
    let mut line = Vec::new(alloc);
    for word in words {
        if !line.is_empty() {
            line.push(b' ')?;
        }
        line.extend_from_slice(word)?;
    }
    Ok(line)
}
