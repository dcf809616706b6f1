use xp_subs::GroupNo;

/// How a call is made, according to the caller's closed user groups (X.301).
#[derive(Clone, Copy)]
pub struct Intent {
    /// The group within which the call is made.
    pub group: Option<GroupNo>,
    /// Whether the call has outside access: it may go to a station outside the group.
    pub outside: bool,
}

impl Intent {
    /// A call with outside access and within no group.
    pub const OUTSIDE: Intent = Intent {
        group: None,
        outside: true,
    };
}
