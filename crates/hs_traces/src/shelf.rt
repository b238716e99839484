//! What is given out and not saved.

ghost use Rattle.std.specs.Prelude.{◌≡◌, ◌+◌, ◌<◌, ◌≤◌, [], ◌∷◌, ◌++◌, length, position, IfOk, OnErr, IfSome, IfNone, None, option_copied};
ghost use Rattle.std.specs.Map.{lookup, remove_entry};
ghost use Rattle.hs_base.specs.Ids.{same_trace};
ghost use Rattle.hs_traces.specs.Shelves.{shelf_of};

use crate::part::Part;
use hs_base::{Memory, TraceId};
use std::alloc::Global;
use std::marker::Model;

/// Parts in the order in which they came, in places that are taken once.
#[derive(Drop)]
pub struct Shelf {
    parts: Vec<(TraceId, Part)>,
}

impl Model for Shelf {
    ghost use Rattle.std.specs.Prelude.{vec_capacity};
    ghost use Rattle.hs_traces.specs.Shelves.{Shelved, shelf_of};

    ghost Value = { Shelved };

    ghost view = { λ a. shelf_of a.parts.items (vec_capacity a.parts) };
}

impl Shelf {
    /// No parts, with so many places.
    pub fn make(alloc: Global, places: usize) -> Result<Shelf, Memory>
        ensures empty { IfOk result (λ shelf. shelf.parts ≡ []) }
        ensures room { IfOk result (λ shelf. places ≤ shelf.room) }
    {
        Ok(Shelf {
            parts: Vec::with_capacity(alloc, places)?,
        })
    }

    /// How many parts there are.
    pub fn len(&self) -> usize
        ensures { result ≡ length self.now.parts }
    {
        self.parts.len()
    }

    /// Where the part of a trace stands, or `None` where there is none.
    fn place(&self, trace: TraceId) -> Option<usize>
        ensures { result ≡ position (λ part. same_trace trace part.0) self.now.parts }
    {
        self.parts.iter().position(|part| trace == part.0)
    }

    /// The part of a trace.
    pub fn get(&self, trace: TraceId) -> Option<&Part>
        ensures { option_copied result ≡ lookup (same_trace trace) self.now.parts }
    {
        match self.place(trace) {
            Some(place) => Some(&self.parts[place].1),
            None => None,
        }
    }

    /// Adds a part behind the others.
    pub fn add(&mut self, trace: TraceId, part: Part)
        requires { length self.old.parts < self.old.room }
        ensures parts { self.new.parts ≡ self.old.parts ++ (trace, part) ∷ [] }
        ensures room { self.old.room ≤ self.new.room }
    {
        match self.parts.push((trace, part)) {
            Ok(()) => {}
            Err(_) => unreachable!(),
        }
    }

    /// Takes the part of a trace out. Where there is none nothing changes.
    pub fn take(&mut self, trace: TraceId) -> Option<Part>
        ensures taken { result ≡ lookup (same_trace trace) self.old.parts }
        ensures parts { self.new.parts ≡ remove_entry (same_trace trace) self.old.parts }
        ensures room { self.new.room ≡ self.old.room }
    {
        let place = self.place(trace)?;
        let (_, part) = self.parts.remove(place);
        Some(part)
    }
}
