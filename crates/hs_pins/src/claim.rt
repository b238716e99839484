//! What the pins are given, and what they answer.

use hs_base::{Group, List, NodeSet};
use hs_words::{Held, Token};

/// Whether a trigger is admitted.
#[derive(Clone, Copy, Debug, PartialEq, Eq)]
pub enum Admitted {
    /// It is, and so many triggers were admitted at this node before.
    Admitted { number: u32 },
    /// It is not: there is less than a token. The level is in millionths of a token.
    Limited { level: u64 },
}

/// What was indexed of a trace that is claimed: its chunks in the order of arrival, and the nodes to
/// which its crumbs lead.
#[derive(Drop)]
pub struct Taken2<L: Token> {
    pub held: List<Held<L>>,
    pub crumbs: NodeSet,
}

/// A chunk that is no longer pinned, and the group for which it was.
#[derive(Drop)]
pub struct Dropped<L: Token> {
    pub held: Held<L>,
    pub group: Group,
}
