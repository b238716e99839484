//! The queues from which a node's agent takes.

/// Three queues of each client, by its number at the node, and the asks of the coordinator.
#[derive(Clone, Copy)]
pub(crate) enum Queue {
    Chunks { client: u16 },
    Crumbs { client: u16 },
    Triggers { client: u16 },
    Asks,
}
