//! The name of a board.

use std::marker::Brand;
use xp_sink::ShownExchange;

/// Names a board by the exchange that it shows, and by what holds where it may ask for a stop or a reload. A status is put there only
/// where it was made of what is seen of the exchange, and no other is shown. The two ends are proved for every such name, so one asks
/// for nothing that the other did not grant.
pub trait BoardName: ShownExchange {
    ghost use Rattle.std.specs.Prelude.{ℕ, List};
    ghost use Rattle.std.specs.declared.net.ip_addr.IpAddr.{IpAddr};
    ghost use Rattle.http.specs.declared.request.Parts.{Parts};
    ghost use Rattle.xp_console.specs.Requests.{IsAnswer};
    ghost use Rattle.xp_console.specs.declared.requests.Answer.TheVariants.{Granted};
    ghost use Rattle.xp_console.specs.declared.requests.Resource.TheVariants.{Reload, Stop};

    // What holds where the board asks for a stop.
    ghost may_stop: { Type 0 };

    // It holds where a console grants a stop to a request.
    ghost granted: { (own : IpAddr) → (head : Parts) → (body : List ℕ) → IsAnswer own head body (Granted Stop) → may_stop };

    // What holds where the board asks for a reload.
    ghost may_reload: { Type 0 };

    // It holds where a console grants a reload to a request.
    ghost reload_granted: { (own : IpAddr) → (head : Parts) → (body : List ℕ) → IsAnswer own head body (Granted Reload) → may_reload };
}

impl BoardName for Brand {
    ghost use Rattle.std.specs.Prelude.{⊤};

    ghost may_stop = { ⊤ };

    ghost granted = { λ _ _ _ _. tt };

    ghost may_reload = { ⊤ };

    ghost reload_granted = { λ _ _ _ _. tt };
}
