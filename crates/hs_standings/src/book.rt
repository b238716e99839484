//! The standings of one trace.

ghost use Rattle.std.specs.Prelude.{◌≡◌, ◌≢◌, ◌+◌, [], length, None, OnOk, OnErr, option_copied};
ghost use Rattle.std.specs.Map.{lookup};
ghost use Rattle.hs_standings.specs.Standing.{same_life, with_latest};
ghost use Rattle.hs_standings.specs.Closing.{all_closed};

use crate::answers::{Latest, Life};
use hs_base::Memory;
use indexmap::IndexMap;
use indexmap::map::Slice;
use std::alloc::Global;
use std::marker::Model;

/// The latest standing of each life that spoke of a trace, in the order in which they spoke first.
#[derive(Drop)]
pub struct Book {
    lives: IndexMap<Life, Latest>,
}

impl Model for Book {
    ghost use Rattle.hs_standings.specs.Standing.{Lives};

    ghost Value = { Lives };

    ghost view = { λ a. a.lives.entries };
}

impl Book {
    /// No standing. Takes no memory.
    pub fn new(alloc: Global) -> Book
        ensures { result ≡ [] }
    {
        Book {
            lives: IndexMap::new(alloc),
        }
    }

    /// How many lives there are.
    pub fn len(&self) -> usize
        ensures { result ≡ length self.now }
    {
        self.lives.len()
    }

    /// What is noted of a life.
    pub fn get(&self, life: Life) -> Option<&Latest>
        ensures { option_copied result ≡ lookup (same_life life) self.now }
    {
        self.lives.get(&life)
    }

    /// The lives, in the order in which they spoke first.
    pub fn lives(&self) -> Slice<'_, Life, Latest>
        ensures { result ≡ self.now }
    {
        self.lives.as_slice()
    }

    /// Whether each life is closed to the trace.
    pub fn are_closed(&self) -> bool
        ensures { result ≡ all_closed self.now }
    {
        for (_, latest) in self.lives.iter() {
            if !latest.is_closed() {
                return false;
            }
        }
        true
    }

    /// Notes a standing in place of the one of its life. After `Memory` the book is as it was.
    pub fn put(&mut self, life: Life, latest: Latest) -> Result<(), Memory>
        ensures ok { OnOk result (self.new ≡ with_latest self.old life latest) }
        ensures known { OnOk result (lookup (same_life life) self.old ≢ None → length self.new ≡ length self.old) }
        ensures new { OnOk result (lookup (same_life life) self.old ≡ None → length self.new ≡ length self.old + 1) }
        ensures err { OnErr result (self.new ≡ self.old) }
    {
        match self.lives.insert(life, latest) {
            Ok(_) => Ok(()),
            Err(_) => Err(Memory),
        }
    }
}
