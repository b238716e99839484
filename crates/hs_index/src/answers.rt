//! What the calls of an index answer.

use hs_base::{List, NodeSet};
use hs_words::{Held, Token};

/// A chunk whose trace went, and how many chunks and traces were indexed just before.
#[derive(Drop)]
pub struct Gone<L: Token> {
    pub held: Held<L>,
    pub chunks: u32,
    pub traces: u32,
}

/// What was indexed of a trace that was claimed: its chunks in the order of arrival, and the nodes to which
/// its crumbs lead. Both are empty where the trace was not indexed.
#[derive(Drop)]
pub struct TakenTrace<L: Token> {
    pub held: List<Held<L>>,
    pub crumbs: NodeSet,
}
