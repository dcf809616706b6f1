/// The decision on a data packet.
#[derive(Clone, Copy)]
pub enum Judged {
    /// It is accepted.
    Accept,
    /// Its sender owes a reset confirmation, so it is dropped.
    Discard,
    /// It resets the call with this diagnostic.
    Reset(u8),
}
