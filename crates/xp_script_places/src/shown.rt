use std::fmt;

/// The most octets of a text that are shown.
const MOST_SHOWN: usize = 40;

/// Octets of a script as a text in quotes, where the octets that are no printable characters of ASCII are escaped.
#[derive(Clone, Copy)]
pub(crate) struct Shown<'a>(pub(crate) &'a [u8]);

impl fmt::Display for Shown<'_> {
    fn fmt<W: fmt::Write>(&self, f: &mut fmt::Formatter<W>) -> fmt::Result {
        let octets = self.0;
        let front = octets.get(..MOST_SHOWN).unwrap_or(octets);
        let rest = if front.len() < octets.len() { ".." } else { "" };
        write!(f, "\"{}{rest}\"", front.escape_ascii())
    }
}
