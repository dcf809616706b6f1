//! The characters of addresses and names.
ghost use Rattle.std.specs.Prelude.{◌≡◌};
ghost use Rattle.std.specs.List.{list_all};
ghost use Rattle.xp_file.specs.steps.Letters.{is_of, is_spelled};
ghost use Rattle.xp_file.specs.Name.{is_line_letter, is_group_letter};
ghost use Rattle.xp_file.specs.Sources.{is_ip_letter};

/// The characters of which a text of the file consists.
#[derive(Clone, Copy)]
pub(crate) enum Letters {
    /// Decimal digits.
    Digits,
    /// Small letters and digits.
    LineName,
    /// Letters and digits.
    GroupName,
    /// Hexadecimal digits, colons and full stops.
    IpAddress,
    /// Those of an IP address, and slashes.
    Source,
}

impl Letters {
    /// Whether a text has `low` to `high` characters, all of them these.
    pub(crate) fn spell(self, text: &str, low: usize, high: usize) -> bool
        ensures { result ≡ is_spelled self low high text.now }
    {
        (low..=high).contains(&text.len()) && self.are_all_of(text.as_bytes())
    }

    fn are_all_of(self, octets: &[u8]) -> bool
        ensures { result ≡ list_all (is_of self) octets.now }
    {
        octets.iter().all(|octet| self.has(*octet))
    }

    fn has(self, octet: u8) -> bool
        ensures { result ≡ is_of self octet }
    {
        match self {
            Letters::Digits => octet.is_ascii_digit(),
            Letters::LineName => is_line_letter(octet),
            Letters::GroupName => is_group_letter(octet),
            Letters::IpAddress => is_ip_letter(octet),
            Letters::Source => is_ip_letter(octet) || octet == b'/',
        }
    }
}

fn is_line_letter(octet: u8) -> bool
    ensures { result ≡ is_line_letter octet }
{
    matches!(octet, b'a'..=b'z' | b'0'..=b'9')
}

fn is_group_letter(octet: u8) -> bool
    ensures { result ≡ is_group_letter octet }
{
    matches!(octet, b'A'..=b'Z' | b'a'..=b'z' | b'0'..=b'9')
}

fn is_ip_letter(octet: u8) -> bool
    ensures { result ≡ is_ip_letter octet }
{
    matches!(octet, b'0'..=b':' | b'a'..=b'f' | b'A'..=b'F' | b'.')
}
