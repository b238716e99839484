//! What happens in an operation.

use hs_base::{RecordId, TraceId};

/// A record comes, or a trace is named.
#[derive(Clone, Copy)]
pub(crate) enum ScriptEvent {
    Comes { id: RecordId, trace: TraceId },
    Names { trace: TraceId },
}

/// An event with the number of its operation.
#[derive(Clone, Copy)]
pub(crate) struct NumberedEvent {
    pub(crate) number: usize,
    pub(crate) event: ScriptEvent,
}
