//! Lines by their names.

ghost use Rattle.std.specs.Prelude.{◌≡◌, ◌<◌, IfSome};
ghost use Rattle.xp_subs.specs.Tables.{line_count, line_named_of};

use std::str;
use xp_subs::{LineNo, Subs};

/// The line of this name.
pub fn line_named(subs: &Subs, name: &[u8]) -> Option<LineNo>
    ensures found { result ≡ line_named_of subs.now name.now }
    ensures line { IfSome result (λ line. line < line_count subs.now) }
{
    match str::from_utf8(name) {
        Ok(name) => subs.line_named(name),
        Err(_) => {
            // All subscriptions have names of letters and digits alone: that comes with the counts.
            let _ = subs.counts();
            None
        }
    }
}
