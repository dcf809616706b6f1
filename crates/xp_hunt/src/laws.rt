ghost use Rattle.xp_hunt.specs.Picks.{PicksIdle, EveryGroupIsPicked};

/// A hunt group with an idle line never counts as busy or out of service.
pub fn picks_where_one_is_idle()
    ensures { PicksIdle }
{}

/// Every hunt group, even an empty one, has an idle line, is busy or is out of service.
pub fn every_group_is_picked()
    ensures { EveryGroupIsPicked }
{}
