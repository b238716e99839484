//! What a hub of a service does with what nodes tell it: it asks nodes, holds pages until they are saved, and says when a trace may be
//! given out (`docs/RULES.md`, "The hub").
#![tactic(auto)]

mod answers;
mod births;
mod hub;
mod laws;
mod limits;
mod ready;

pub use answers::{Delivered, HubCounts, HubLimits, MakeFault, OutReason};
pub use hub::Hub;
pub use laws::{
    held_pages_are_unacknowledged, held_pages_come_again, held_pages_stay_until_they_are_saved,
    kept_messages_are_not_named, messages_decide_the_part, named_messages_brought_what_was_saved,
    pages_come_and_go, rows_are_of_what_came, whole_is_said_of_sure_lives,
};
pub use limits::{
    DEFAULT_AGE, DEFAULT_TRIES, DEFAULT_WAIT, MESSAGES_OF_A_TRACE, STANDINGS_OF_A_TRACE, hub_limits,
};
