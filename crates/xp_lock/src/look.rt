use std::alloc::{Allocator, Global};
use xp_charge::Record;
use xp_view::ExchangeView;

/// What the recorder finds as it looks at the exchange.
#[derive(Drop)]
pub struct Look<A: Allocator = Global> {
    /// The charging records that waited, in the order in which the calls ended.
    pub records: Vec<Record, A>,
    /// What can be seen of the exchange at that moment.
    pub view: ExchangeView<A>,
}
