ghost use Rattle.std.specs.Prelude.{◌≡◌, ◌<◌, ◌↔◌, ℕ, IfSome, None, true};
ghost use Rattle.xp_reload.specs.Frame.{Differs, HasSameSettings, IsSameFrame, KeepsLine};
ghost use Rattle.xp_subs.specs.Tables.{line_at, line_count, modulus_of};

use xp_subs::{LineNo, Subs};

/// What differs between the frames of two subscriptions.
#[derive(Clone, Copy, Debug, PartialEq, Eq)]
pub enum FrameChange {
    /// There are more places for lines, or fewer.
    LineCount,
    /// The place with this number has another modulus.
    Modulus(LineNo),
    /// The most segments that a call may have in one direction.
    SegmentLimit,
    /// The most entries that the history may have.
    Journal,
    /// The host on whose ports the exchange listens.
    Host,
    /// The port for XOT routers.
    XotPort,
    /// The name of the exchange.
    Name,
}

/// Returns the first thing in which the frame of the new subscriptions differs from that of the old ones. `None` where the
/// new ones may take the place of the old ones while the exchange serves.
pub fn frame_change(old: &Subs, new: &Subs) -> Option<FrameChange>
    ensures same { result ≡ None → IsSameFrame old.now new.now }
    ensures changed { IfSome result (Differs old.now new.now) }
{
    if new.counts().lines != old.counts().lines {
        return Some(FrameChange::LineCount);
    }
    match changed_modulus(old, new) {
        Some(line) => Some(FrameChange::Modulus(line)),
        None => changed_setting(old, new),
    }
}

/// Returns the first place that has another modulus.
fn changed_modulus(old: &Subs, new: &Subs) -> Option<LineNo>
    requires { line_count new.now ≡ line_count old.now }
    ensures same { result ≡ None → (line : ℕ) → line < line_count old.now → modulus_of new.now line ≡ modulus_of old.now line }
    ensures changed { IfSome result (λ line. (line < line_count old.now) × (modulus_of new.now line ≡ modulus_of old.now line → ⊥)) }
{
    for number in 0..old.counts().lines {
        let line = number as LineNo;
        if new.modulus_of(line) != old.modulus_of(line) {
            return Some(line);
        }
    }
    None
}

/// Returns whether a place keeps its line: it has the same name, and the same port or router.
pub fn keeps_line(old: &Subs, new: &Subs, line: LineNo) -> bool
    requires old { line < line_count old.now }
    requires new { line < line_count new.now }
    ensures { result ≡ true ↔ KeepsLine (line_at old.now line) (line_at new.now line) }
{
    let old = old.line(line);
    let new = new.line(line);
    old.name == new.name && old.access == new.access
}

/// Returns the first setting of the exchange that differs.
fn changed_setting(old: &Subs, new: &Subs) -> Option<FrameChange>
    ensures same { result ≡ None → HasSameSettings old.now new.now }
    ensures changed { IfSome result (Differs old.now new.now) }
{
    if new.segment_limit() != old.segment_limit() {
        return Some(FrameChange::SegmentLimit);
    }
    if new.journal() != old.journal() {
        return Some(FrameChange::Journal);
    }
    if new.host() != old.host() {
        return Some(FrameChange::Host);
    }
    if new.xot_port() != old.xot_port() {
        return Some(FrameChange::XotPort);
    }
    if new.exchange_name() != old.exchange_name() {
        return Some(FrameChange::Name);
    }
    None
}
