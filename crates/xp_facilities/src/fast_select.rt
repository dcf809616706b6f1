/// Fast select (X.25 clause 6.16).
#[derive(Clone, Copy, Default, PartialEq, Eq)]
pub enum FastSelect {
    /// No fast select.
    #[default]
    No,
    /// The called DTE may accept or clear the call.
    Unrestricted,
    /// The called DTE may only clear the call.
    Restricted,
}
