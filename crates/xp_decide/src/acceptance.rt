ghost use Rattle.xp_decide.specs.steps.Accepts.{Examines};

use xp_causes::Refusal;
use xp_groups::{Admission, Intent, admit};
use xp_subs::Station;

/// What a call requests of each station that it reaches.
#[derive(Clone, Copy)]
pub struct Wanted {
    /// The closed user group within which it is made, and its outside access.
    pub intent: Intent,
    /// Reverse charging: the called station is to pay.
    pub reverse: bool,
    /// Fast select of either kind.
    pub fast: bool,
}

/// How the station takes the call, if its subscription permits this.
///
/// # Errors
///
/// The first refusal: the station has incoming calls barred, closed user groups prevent the call, or the station does
/// not accept reverse charging or fast select.
pub fn accept(wanted: &Wanted, station: &Station) -> Result<Admission, Refusal>
    ensures { Examines wanted.now station.now result }
{
    if station.facilities.incoming_barred {
        return Err(Refusal::INCOMING_CALLS_BARRED);
    }
    let admission = admit(&wanted.intent, station)?;
    if wanted.reverse && !station.facilities.reverse_charging {
        return Err(Refusal::REVERSE_CHARGING_NOT_ACCEPTED);
    }
    if wanted.fast && !station.facilities.fast_select {
        return Err(Refusal::FAST_SELECT_NOT_ACCEPTED);
    }
    Ok(admission)
}
