//! The ground that every crate of Hindsight stands on: ids, ranks, fates and settings, lists whose
//! room contracts can see, and the traits of the outside world with their in-memory forms. In `proofs/` stand, by subject, the lemmas
//! on lists, Booleans, numbers and options that std lacks, each once, for the proofs of all other crates.
#![tactic(auto)]

mod ids;
mod laterals;
mod laws;
pub mod limits;
mod list;
mod memory;
mod node_set;
mod notes;
mod outside;
mod rank;
mod settings;
mod told;
mod trail;

pub use ids::{ClientId, Failed, GroupId, Memory, NodeId, Rank, RecordId, TraceId, TriggerId};
pub use laterals::Laterals;
pub use laws::same_nodes_are_one_set;
pub use list::{Bytes, List};
pub use memory::{MemorySink, MemorySource};
pub use node_set::NodeSet;
pub use notes::Notes;
pub use outside::{Gate, OpenGate, Sink, Source};
pub use rank::rank_of;
pub use settings::{AutoRule, Settings, TriggerRule};
pub use told::{Ask, Crumb, Fate, Group, Told, Trigger, Why};
pub use trail::{Noting, Trail};
