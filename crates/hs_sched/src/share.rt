//! What a scheduler keeps of a trigger id.

use hs_base::TriggerId;

/// A trigger id with its weight, and the bytes that it may send beyond the next visit's own.
#[derive(Clone, Copy)]
pub struct Share {
    pub trigger: TriggerId,
    pub weight: u32,
    pub deficit: u64,
}
