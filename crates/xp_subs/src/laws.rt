//! Laws of all subscription files, over the definitions that the contracts cite.
ghost use Rattle.xp_subs.specs.Laws.{OneAnswer};

/// A text has only one result: a set of tables, or a first fault. So `Subs::read` returns each fault exactly where
/// its condition holds, unless it is out of memory.
pub fn one_answer()
    ensures { OneAnswer }
{}
