use xp_subs::Subs;

/// Subscriptions that a line of a script brings into force, once the lines that go are given up.
#[derive(Drop)]
pub struct NextTables {
    /// Their number among those that have names.
    pub number: usize,
    /// The subscriptions, with their lines at the places of the exchange.
    pub subs: Subs,
}

/// What a line asks for that brings subscriptions into force.
#[derive(Clone, Copy)]
pub struct AskedTables {
    /// The number of the line.
    pub line: u64,
    /// The number of the subscriptions among those that have names.
    pub tables: usize,
}
