//! What a message leads to.

use hs_base::{Ask, NodeSet};

/// An ask and the nodes that it goes to, each once and in rising order of node. There may be none.
#[derive(Clone, Copy)]
pub struct Asks {
    pub ask: Ask,
    pub to: NodeSet,
}

/// What a message of a group leads to, and whether an ask of the group waited for its answer before the message, and waits
/// after it.
#[derive(Clone, Copy)]
pub struct Led {
    pub asks: Asks,
    pub was_open: bool,
    pub is_open: bool,
}
