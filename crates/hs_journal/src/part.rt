//! Where in a journal the next line stands.

/// What the newest line began or went on with.
#[derive(Clone, Copy)]
pub enum JournalPart {
    /// No line was read.
    Start,
    /// The first line.
    Head,
    /// The draws of a client.
    Draws,
    /// The log of a node.
    Logs,
    /// The coordinator's order.
    Order,
    /// The last line.
    Ended,
}
