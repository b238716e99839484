//! A record as it comes.

use hs_base::{RecordId, TraceId};

/// A record with its trace and the bytes of its payload.
#[derive(Clone, Copy)]
pub(crate) struct Coming {
    pub(crate) id: RecordId,
    pub(crate) trace: TraceId,
    pub(crate) bytes: usize,
}
