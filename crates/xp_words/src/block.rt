//! The block of addresses, facilities and user data in words (X.25 clauses 5.2.1 to 5.2.5).

ghost use Rattle.xp_words.specs.Packets.{address_text, bit_text, user_text};

use crate::field::FieldWords;
use crate::octets::BothTexts;
use std::alloc::Allocator;
use std::fmt::{self, Display};
use xp_packets::{Block, Digits};

/// A block, such as ` from 2080010 to 2080020 D, window 3/3, user data 01000000 "...."`.
#[derive(Drop)]
pub(crate) struct BlockWords<'a, A: Allocator> {
    /// The D bit of the packet.
    pub(crate) d: bool,
    pub(crate) block: &'a Block<A>,
}

impl<'a, A: Allocator> Display for BlockWords<'a, A> {
    ghost use Rattle.std.specs.Prelude.{Some};
    ghost use Rattle.xp_words.specs.Packets.{block_text};

    ghost output = { λ words. Some (block_text words.d words.block.now) };

    fn fmt<W: fmt::Write>(&self, f: &mut fmt::Formatter<W>) -> fmt::Result {
        let block = self.block;
        let calling = AddressWords {
            preposition: " from ",
            digits: &block.calling,
        };
        let called = AddressWords {
            preposition: " to ",
            digits: &block.called,
        };
        let d = if self.d { " D" } else { "" };
        let facilities = FieldWords(block.facilities.as_slice());
        let user = UserWords(block.user.as_slice());
        write!(f, "{calling}{called}{d}{facilities}{user}")
    }
}

/// A block, if there is one.
#[derive(Drop)]
pub(crate) struct OptionalBlockWords<'a, A: Allocator> {
    /// The D bit of the packet.
    pub(crate) d: bool,
    pub(crate) block: &'a Option<Block<A>>,
}

impl<'a, A: Allocator> Display for OptionalBlockWords<'a, A> {
    ghost use Rattle.std.specs.Prelude.{Some};
    ghost use Rattle.xp_words.specs.Packets.{optional_block_text};

    ghost output = { λ words. Some (optional_block_text words.d words.block.now) };

    fn fmt<W: fmt::Write>(&self, f: &mut fmt::Formatter<W>) -> fmt::Result {
        match self.block {
            None => f.write_str(if self.d { " D" } else { "" }),
            Some(block) => BlockWords { d: self.d, block }.fmt(f),
        }
    }
}

/// An address behind a preposition, if it has digits.
#[derive(Drop)]
pub(crate) struct AddressWords<'a> {
    pub(crate) preposition: &'static str,
    pub(crate) digits: &'a Digits,
}

impl Display for AddressWords<'_> {
    ghost use Rattle.std.specs.Prelude.{Some};

    ghost output = { λ address. Some (address_text address.preposition.now address.digits.now) };

    fn fmt<W: fmt::Write>(&self, f: &mut fmt::Formatter<W>) -> fmt::Result {
        if self.digits.is_empty() {
            return Ok(());
        }
        write!(f, "{}{}", self.preposition, self.digits)
    }
}

/// User data, if there is any.
#[derive(Clone, Copy)]
struct UserWords<'a>(&'a [u8]);

impl Display for UserWords<'_> {
    ghost use Rattle.std.specs.Prelude.{Some};

    ghost output = { λ user. Some (user_text user.0.now) };

    fn fmt<W: fmt::Write>(&self, f: &mut fmt::Formatter<W>) -> fmt::Result {
        match self.0 {
            [] => Ok(()),
            [_, ..] => write!(f, ", user data {}", BothTexts(self.0)),
        }
    }
}
