//! What C calls of Hindsight. No call has a condition but that pointers point to what their types say: every misuse that can be tested
//! answers a code.
#![tactic(auto)]

mod cells;
mod clients;
mod codes;
mod handles;
mod hubs;
mod loose;
mod messages;
mod nodes;
mod opening;
mod pages;
mod ports;
mod slots;

pub use clients::{
    hindcore_begin, hindcore_client_free, hindcore_counts, hindcore_crumb, hindcore_crumb_of,
    hindcore_end, hindcore_flush, hindcore_point, hindcore_sample, hindcore_trigger,
};
pub use handles::{HindClient, HindCounts, HindFault, HindHub, HindNode, HindPort, HindTrace};
pub use hubs::{
    HindClaim, HindHubCounts, HindLife, HindLifeId, HindMessageId, HindRow,
    hindcore_hub_acknowledge, hindcore_hub_claim, hindcore_hub_counts, hindcore_hub_deliver,
    hindcore_hub_free, hindcore_hub_lateral, hindcore_hub_life, hindcore_hub_life_at,
    hindcore_hub_next, hindcore_hub_node, hindcore_hub_open, hindcore_hub_part, hindcore_hub_pass,
    hindcore_hub_row, hindcore_hub_saved, hindcore_hub_take, hindcore_hub_whole,
};
pub use messages::{HindHead, hindcore_message_copy, hindcore_message_head};
pub use nodes::{
    HindDigest, hindcore_node_acknowledged, hindcore_node_again, hindcore_node_client,
    hindcore_node_deliver, hindcore_node_free, hindcore_node_hello, hindcore_node_limited,
    hindcore_node_next, hindcore_node_open, hindcore_node_pass, hindcore_node_sent,
};
pub use opening::{hindcore_client_open, hindcore_open};
pub use pages::{HindPage, HindPiece, hindcore_page_read};
pub use ports::{hindcore_port_free, hindcore_take, hindcore_take_notes};
