/// The form in which a script is told.
#[derive(Clone, Copy, PartialEq, Eq)]
pub enum Form {
    /// A line of words for each event, each packet that is put out and each charging record.
    Words,
    /// A row of a ladder diagram for each packet, between its line and the exchange.
    Ladder,
    /// A capture file (pcap) of the packets, as X.25 over TCP (RFC 1613).
    Capture,
}
