//! The words of a line, told apart by single spaces.

ghost use Rattle.std.specs.Prelude.{◌≡◌, [], ◌∷◌, MatchOption};
ghost use Rattle.std.specs.List.{position};
ghost use Rattle.xp_script.specs.Command.{is_space, words};

/// The first word of a text, and what follows the space behind it, if there is one.
pub fn cut_word(text: &[u8]) -> Option<(&[u8], &[u8])>
    ensures { MatchOption result (words text.now ≡ text.now ∷ []) (λ cut. words text.now ≡ cut.0.now ∷ words cut.1.now) }
{
    let place = place_of_space(text)?;
    Some((&text[..place], &text[place + 1..]))
}

fn place_of_space(text: &[u8]) -> Option<usize>
    ensures { result ≡ position is_space text.now }
{
    text.iter().position(|octet| *octet == b' ')
}
