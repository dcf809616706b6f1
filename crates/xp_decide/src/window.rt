ghost use Rattle.std.specs.Prelude.{◌≡◌};
ghost use Rattle.xp_decide.specs.Asks.{windows_fit};
ghost use Rattle.xp_decide.specs.Indicated.{largest_window_on};

use xp_facilities::DirectionSizes;
use xp_facilities::limits::LARGEST_WINDOW;
use xp_packets::Modulus;

/// The largest window of a line modulo 8: one less than its numbers.
const LARGEST_WINDOW_OF_EIGHT: u8 = 7;

/// The largest window of a line with this modulus (X.25 clause 7.2.2.1.2).
pub(crate) fn largest_window_on(modulus: Modulus) -> u8
    ensures { result ≡ largest_window_on modulus }
{
    match modulus {
        Modulus::Eight => LARGEST_WINDOW_OF_EIGHT,
        Modulus::Long => LARGEST_WINDOW,
    }
}

/// Whether a line with this modulus may request these windows.
pub(crate) fn windows_fit(modulus: Modulus, asked: Option<DirectionSizes>) -> bool
    ensures { result ≡ windows_fit modulus asked }
{
    let most = largest_window_on(modulus);
    asked.is_none_or(|windows| windows.from_called <= most && windows.from_calling <= most)
}
