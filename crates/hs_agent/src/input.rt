//! What an agent takes, and what it leaves.

use hs_base::{Ask, Crumb, List, Trigger};
use hs_records::AgentBook;
use hs_words::{Held, Token};

/// What an agent takes, or that it is to make a fair turn. A client is named by its number at the node.
#[derive(Drop)]
pub enum Input<L: Token> {
    Chunk { client: u16, held: Held<L> },
    Crumb { client: u16, crumb: Crumb },
    Trigger { client: u16, trigger: Trigger },
    Ask { ask: Ask },
    Turn,
}

/// What is left of an agent: its book, and the chunks that are indexed or in its hand.
#[derive(Drop)]
pub struct Finished<L: Token> {
    pub book: AgentBook,
    pub rest: List<Held<L>>,
}
