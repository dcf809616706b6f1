/// The closed user group selection (X.25 clauses 6.14.6 and 6.14.7), by an index from 0 to 9,999.
#[derive(Clone, Copy, Default)]
pub enum Selection {
    /// No group is selected.
    #[default]
    Nothing,
    /// A group, with no access outside the group.
    Closed(u16),
    /// A group with outside access: outgoing access in a call request, incoming access in an incoming call.
    WithOutsideAccess(u16),
}
