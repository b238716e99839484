//! A window of values that also stands sorted.

ghost use Rattle.std.specs.Prelude.{◌≡◌, ◌≤◌, ◌∷◌, [], ◌==◌, length, take, count_by, nat_lt, IfOk};

use crate::rising::{exchange, place_of, put};
use circular_buffer::HeapCircularBuffer;
use hs_base::Memory;
use std::alloc::Global;
use std::marker::Model;

/// The last values, as many as its size. Contracts see the size, and the values from the latest on.
#[derive(Drop)]
pub struct RankedWindow {
    arrived: HeapCircularBuffer<u64>,
    sorted: Vec<u64>,
}

impl Model for RankedWindow {
    ghost use Rattle.hs_auto.specs.Windows.{Window};

    ghost Value = { Window };

    ghost use Rattle.hs_auto.specs.Ranks.{IsRanked};

    ghost view = { λ a. record { size = a.arrived.capacity; values = a.arrived.items } };

    ghost invariant = { IsRanked };
}

impl RankedWindow {
    /// An empty window of this size, with memory for all that it will hold.
    pub fn make(alloc: Global, size: u32) -> Result<RankedWindow, Memory>
        ensures { IfOk result (λ window. window ≡ record { size = size; values = [] }) }
    {
        let size = size as usize;
        let arrived = HeapCircularBuffer::with_capacity(alloc, size)?;
        let sorted = Vec::with_capacity(alloc, size)?;
        Ok(RankedWindow { arrived, sorted })
    }

    /// The most values that it holds.
    pub fn size(&self) -> usize
        ensures { result ≡ self.now.size }
    {
        self.arrived.capacity()
    }

    /// Whether it has as many values as its size.
    pub fn is_full(&self) -> bool
        ensures { result ≡ (length self.now.values == self.now.size) }
    {
        self.arrived.is_full()
    }

    /// How many of its values are less than this one.
    pub fn count_less(&self, value: u64) -> usize
        ensures count { result ≡ count_by (λ earlier. nat_lt earlier value) self.now.values }
        ensures bound { result ≤ self.now.size }
    {
        place_of(&self.sorted, value)
    }

    /// Takes a value in, where so many of its values are less. Where the window was full, its oldest value
    /// leaves.
    pub fn push(&mut self, value: u64, less: usize)
        requires { less ≡ count_by (λ earlier. nat_lt earlier value) self.old.values }
        ensures { self.new ≡ record {
          size = self.old.size;
          values = take self.old.size (value ∷ self.old.values);
        } }
    {
        if self.arrived.capacity() == 0 {
            return;
        }
        match self.arrived.push_front(value) {
            Some(oldest) => exchange(&mut self.sorted, oldest, value, less),
            None => put(&mut self.sorted, value, less),
        }
    }
}
