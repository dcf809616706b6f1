ghost use Rattle.xp_groups.specs.Laws.{IntentIsDetermined, AdmissionIsDetermined, EverySelectionIsAnswered, EveryIntentIsAnswered, JoinedMayJoin};

/// A station and a selection have only one result: an intent or a refusal.
pub fn intent_is_determined()
    ensures { IntentIsDetermined }
{}

/// An intent and a station have only one result: an admission or a refusal.
pub fn admission_is_determined()
    ensures { AdmissionIsDetermined }
{}

/// Whatever a station selects, there is an intent or a refusal.
pub fn every_selection_is_answered()
    ensures { EverySelectionIsAnswered }
{}

/// Whatever the intent of a call, a station admits the call or there is a refusal.
pub fn every_intent_is_answered()
    ensures { EveryIntentIsAnswered }
{}

/// If a caller may make a call and a station admits it, then closed user groups permit the two to be joined.
pub fn joined_stations_may_join()
    ensures { JoinedMayJoin }
{}
