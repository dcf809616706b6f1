//! The name of an exchange, which ties its passes to it.

use std::marker::Brand;

/// Names one exchange by its subscriptions, the table of its seats, and the queues of its outboxes. The exchange, what its lock
/// protects and its passes have one name, so no pass of another exchange can be passed in.
pub trait Name {
    ghost use Rattle.std.specs.Prelude.{List};
    ghost use Rattle.atomic_table.specs.Seated.{TableId};
    ghost use Rattle.xp_subs.specs.Tables.{Tables};

    ghost subs: { Tables };

    ghost seats: { TableId };

    ghost queues: { List TableId };
}

impl Name for Brand {
    ghost use Rattle.std.specs.Prelude.{[]};
    ghost use Rattle.xp_seats.specs.Views.{no_table};
    ghost use Rattle.xp_seats.specs.steps.Name.{no_tables};

    ghost subs = { no_tables };

    ghost seats = { no_table };

    ghost queues = { [] };
}
