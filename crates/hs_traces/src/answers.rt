//! What the calls take and answer.

use hs_base::limits::{MAX_SIZE, UNCOUNTED_BYTES};
use thiserror::Error;

/// The least that a limit of bytes may be: as many as a page of the greatest size has.
pub const LEAST_BYTES: u64 = 32_776;

const _: () = prove!(LEAST_BYTES as usize == MAX_SIZE as usize + UNCOUNTED_BYTES);

/// How much may be held.
#[derive(Clone, Copy, Debug, PartialEq, Eq)]
pub struct TraceLimits {
    /// The most traces that wait to be given out.
    pub hold: u32,
    /// The most traces that are given out and not saved.
    pub outs: u32,
    /// The most bytes of all pages.
    pub bytes: u64,
}

/// Why nothing was made.
#[derive(Clone, Copy, Debug, PartialEq, Eq, Error)]
pub enum MakeFault {
    /// No trace may wait, or none may be given out, or the bytes are fewer than those of a page of the greatest size.
    #[error("a limit is too small")]
    Limits,
    /// There was no memory for it.
    #[error("out of memory")]
    Memory,
}

/// What became of a page.
#[derive(Clone, Copy, Debug, PartialEq, Eq)]
pub enum Added {
    /// It is kept.
    Added,
    /// A page with its key is kept already.
    Repeated,
    /// The bytes are those of no page.
    NoPage,
    /// The page names another node or client than those that sent it.
    Foreign,
    /// The page exceeds the bytes that may be held, or it begins a trace and as many wait as may wait.
    Full,
}

/// What became of a trace that is to be given out.
#[derive(Clone, Copy, Debug, PartialEq, Eq)]
pub enum Offered {
    /// What waited of it is given out.
    Given,
    /// None of it waits.
    Unknown,
    /// A part of it is given out already, and not saved.
    Unsaved,
    /// As many parts are given out as may be.
    Busy,
}

/// How much is held.
#[derive(Clone, Copy, Debug, PartialEq, Eq)]
pub struct TraceCounts {
    /// Traces that wait to be given out.
    pub waiting: usize,
    /// Traces that are given out and not saved.
    pub out: usize,
    /// Bytes of all pages.
    pub bytes: u64,
}
