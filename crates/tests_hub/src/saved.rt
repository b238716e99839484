//! Traces that are saved once and more often, of as many as are kept.

use crate::rows::row;
use hs_base::{Memory, TraceId};
use hs_saved::Saved;
use std::alloc::Global;

/// Trace 8 is saved twice and trace 9 once; then trace 7, so that trace 9 goes.
fn parts_are_counted(alloc: Global) -> Result<bool, Memory> {
    let mut saved = Saved::make(alloc, 2)?;
    saved.note(TraceId(8));
    saved.note(TraceId(9));
    saved.note(TraceId(8));
    let both = (saved.parts(TraceId(8)), saved.parts(TraceId(9)));
    saved.note(TraceId(7));
    Ok(both == (2, 1) && (saved.parts(TraceId(8)), saved.parts(TraceId(9))) == (2, 0))
}

#[test]
fn saved_traces(rt: HostRuntime) {
    row(&rt, "parts", parts_are_counted(rt.alloc()));
}
