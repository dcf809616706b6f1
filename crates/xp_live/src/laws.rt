//! A law of live calls: the contract is the law, and the body is empty.

ghost use Rattle.xp_live.specs.AreLive.{TakesConnected};

/// Where a view shows the state to which a run leads, the calls that are taken from it as live are those that are connected in that
/// state, each once, as they would have ended if the exchange died then.
pub fn live_calls_are_connected()
    ensures { TakesConnected }
{}
