//! The lines of a script.

ghost use Rattle.std.specs.Prelude.{◌≡◌, ◌+◌, ◌≤◌, [], ◌∷◌, IfSome, MatchOption, length};
ghost use Rattle.std.specs.List.{position};
ghost use Rattle.xp_transcript.specs.Telling.{is_feed, lines_of};

/// The first line of a script, and what follows its line feed, if there is one.
pub(crate) fn cut_line(script: &[u8]) -> Option<(&[u8], &[u8])>
    ensures lines { MatchOption result (lines_of script.now ≡ script.now ∷ []) (λ cut. lines_of script.now ≡ cut.0.now ∷ lines_of cut.1.now) }
    ensures shorter { IfSome result (λ cut. length cut.1.now + 1 ≤ length script.now) }
{
    let place = place_of_feed(script)?;
    Some((&script[..place], &script[place + 1..]))
}

fn place_of_feed(script: &[u8]) -> Option<usize>
    ensures { result ≡ position is_feed script.now }
{
    script.iter().position(|octet| *octet == b'\n')
}
