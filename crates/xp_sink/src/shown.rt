//! The name of an exchange that is shown.

use std::marker::Brand;

/// Names an exchange that is shown, by its subscriptions. What shows an exchange is proved for every such name, so it takes nothing
/// that is seen of an exchange of other subscriptions.
pub trait ShownExchange {
    ghost use Rattle.xp_subs.specs.Tables.{Tables};

    // The subscriptions of the exchange.
    ghost tables: { Tables };
}

impl ShownExchange for Brand {
    ghost use Rattle.xp_sink.specs.steps.Shown.{no_tables};

    ghost tables = { no_tables };
}
