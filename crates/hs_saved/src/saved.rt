//! The traces that were saved last.

ghost use Rattle.std.specs.Prelude.{◌≡◌, ◌<◌, ◌++◌, ◌∷◌, [], length, drop, ◌≤◌, nat_le, find, vec_len, vec_capacity, option_copied, IfOk, if◌then◌else◌};
ghost use Rattle.hs_saved.specs.Saved.{no_saved, is_of, parts_of, without, noted};

use hs_base::{Memory, TraceId};
use std::alloc::Global;
use std::marker::Model;

/// The traces that were saved last, the last one behind, each with how many parts of it were saved. At most so many are kept, in memory
/// that is taken at first.
#[derive(Drop)]
pub struct Saved {
    most: u32,
    traces: Vec<(TraceId, u32)>,
}

impl Model for Saved {
    ghost use Rattle.hs_saved.specs.Saved.{PlainSaved};
    ghost use Rattle.hs_saved.specs.SavedLayout.{saved_in, IsKept};

    ghost Value = { PlainSaved };

    ghost view = { saved_in };

    ghost invariant = { IsKept };
}

impl Saved {
    /// No traces, of at most so many. All memory is taken here.
    pub fn make(alloc: Global, most: u32) -> Result<Saved, Memory>
        ensures { IfOk result (λ saved. saved ≡ no_saved most) }
    {
        Ok(Saved {
            most,
            traces: Vec::with_capacity(alloc, most as usize)?,
        })
    }

    /// How many parts of a trace were saved: 0 where it is not among those that were saved last.
    pub fn parts(&self, trace: TraceId) -> u32
        ensures { result ≡ parts_of self.now trace }
    {
        match entry_of(&self.traces, trace) {
            Some(entry) => entry.1,
            None => 0,
        }
    }

    /// Notes that a part of a trace was saved. The trace is the last one then, and where there are too many the first one goes. Takes no
    /// memory.
    pub fn note(&mut self, trace: TraceId)
        ensures { self.new ≡ noted self.old trace }
    {
        let parts = self.parts(trace).saturating_add(1);
        forget(&mut self.traces, trace);
        if self.most > 0 {
            drop_first(&mut self.traces, self.most as usize);
            self.traces.push_reserved((trace, parts));
        }
    }
}

/// The trace with the number of its saved parts, if it is one of those that were saved last.
fn entry_of(traces: &[(TraceId, u32)], trace: TraceId) -> Option<&(TraceId, u32)>
    ensures { option_copied result ≡ find (is_of trace) traces.now }
{
    traces.iter().find(|entry| trace == entry.0)
}

/// Takes a trace out, if it is there.
fn forget(traces: &mut Vec<(TraceId, u32)>, trace: TraceId)
    ensures items { traces.new.items ≡ without trace traces.old.items }
    ensures len { length traces.new.items ≤ length traces.old.items }
    ensures capacity { vec_capacity traces.new ≡ vec_capacity traces.old }
{
    traces.retain(|entry| trace != entry.0);
}

/// Lets the first one go, if there are so many.
fn drop_first(traces: &mut Vec<(TraceId, u32)>, most: usize)
    requires { 0 < most }
    ensures items { traces.new.items ≡ (if nat_le most (length traces.old.items) then drop 1 traces.old.items else traces.old.items) }
    ensures capacity { vec_capacity traces.new ≡ vec_capacity traces.old }
{
    if traces.len() >= most {
        traces.remove(0);
    }
}
