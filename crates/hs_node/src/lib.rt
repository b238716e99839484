//! A node of a service: the agent's pass, with what it says and what it heard of its clients' segments (`docs/RULES.md`, "A node's pass").
#![tactic(auto)]

mod calls;
mod hearing;
mod laws;
mod making;
mod node;
mod pass;
mod standing;

pub use laws::whole_is_said_where_crumbs_were_told;
pub use making::{
    ASKS, CALLS, CLAIMS_MORE, MadeNode, NodeFault, PAGE_MORE, WORD_BYTES, WORDS, make_node,
};
pub use node::Node;
pub use pass::{MOST_NOTES, MOST_OFFERS, Passed};
