/// What an event does to its line, and to the line's call.
#[derive(Clone, Copy)]
pub enum Action {
    /// The event is ignored.
    Nothing,
    /// The line comes into service.
    Rise,
    /// The line goes out of service, and its call ends.
    Fall,
    /// The exchange decides on a call request.
    NewCall,
    /// Call collision (X.25 clause 4.1.6). The exchange cancels the incoming call, and decides on the line's own
    /// request.
    Collision,
    /// The line answers the incoming call.
    Answer,
    /// The exchange confirms the clear request, and the line's call ends.
    Confirm,
    /// The line is free again. The exchange sends nothing.
    Free,
    /// A procedure error. The exchange clears with this diagnostic.
    Error(u8),
    /// Data, flow control, an interrupt or a reset, for the line's call.
    Relayed,
    /// The line did not answer the incoming call in time. The exchange clears the call.
    Expired,
}
