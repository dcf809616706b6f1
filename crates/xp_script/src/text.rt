//! The parts of a line of text. Each is added to a text whose front stays, also where memory is wanting.

ghost use Rattle.std.specs.Prelude.{◌≡◌, ◌+◌, ◌≤◌, ◌∷◌, [], ◌++◌, codes, length, OnOk};
ghost use Rattle.std.specs.Vec.{vec_capacity, vec_len};
ghost use Rattle.hex.specs.Hex.{encode_lower};
ghost use Rattle.xp_charge.specs.Text.{field};
ghost use Rattle.xp_charge.specs.steps.Text.{Keeps};

use crate::digits::write_digits;
use std::alloc::{AllocError, Allocator};

/// What a line begins with that tells a packet put out.
const WORD: &[u8] = b"out";

/// Adds what stands before a frame that is put out on a line of this name: a word, a field and a space.
pub fn push_front<A: Allocator>(text: &mut Vec<u8, A>, name: &[u8]) -> Result<(), AllocError>
    ensures ok { OnOk result (text.new.items ≡ text.old.items ++ codes "out" ++ field name.now ++ 32 ∷ []) }
    ensures kept { Keeps text.old.items text.new.items }
{
    let room = WORD.len() + name.len() + 2;
    text.reserve(room)?;
    push_each(text, WORD);
    text.push_reserved(b' ');
    push_each(text, name);
    text.push_reserved(b' ');
    Ok(())
}

/// Adds octets one by one, of which a word has few.
fn push_each<A: Allocator>(text: &mut Vec<u8, A>, octets: &[u8])
    requires { vec_len text.old + length octets.now ≤ vec_capacity text.old }
    ensures items { text.new.items ≡ text.old.items ++ octets.now }
    ensures capacity { vec_capacity text.new ≡ vec_capacity text.old }
    ensures len { vec_len text.new ≡ vec_len text.old + length octets.now }
{
    for octet in octets {
        text.push_reserved(*octet);
    }
}

/// Adds octets in hexadecimal, as many as a frame has.
pub fn push_octets<A: Allocator>(text: &mut Vec<u8, A>, octets: &[u8]) -> Result<(), AllocError>
    requires { length octets.now ≤ 1032 }
    ensures ok { OnOk result (text.new.items ≡ text.old.items ++ encode_lower octets.now) }
    ensures kept { Keeps text.old.items text.new.items }
{
    let start = text.len();
    // Each octet has two digits.
    text.resize(start + 2 * octets.len(), 0)?;
    write_digits(octets, &mut text[start..]);
    Ok(())
}
