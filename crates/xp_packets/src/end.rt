/// One of the two ends of a virtual call.
#[derive(Clone, Copy, Default, PartialEq, Eq)]
pub enum End {
    /// The line that made the call request.
    #[default]
    Caller,
    /// The line that the call is offered to.
    Called,
}
