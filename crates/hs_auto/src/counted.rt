//! A window of values that are counted by value.

ghost use Rattle.std.specs.Prelude.{◌≡◌, ◌≤◌, ◌∷◌, [], ◌==◌, length, take, count_by, IfOk};

use crate::value_counts::{ValueCount, add, take_out, times_of};
use circular_buffer::HeapCircularBuffer;
use hs_base::Memory;
use std::alloc::Global;
use std::marker::Model;

/// The last values, as many as its size. Contracts see the size, and the values from the latest on.
#[derive(Drop)]
pub struct CountedWindow {
    arrived: HeapCircularBuffer<u64>,
    counts: Vec<ValueCount>,
}

impl Model for CountedWindow {
    ghost use Rattle.hs_auto.specs.Windows.{Window};

    ghost Value = { Window };

    ghost use Rattle.hs_auto.specs.Counts.{IsCountedWindow};

    ghost view = { λ a. record { size = a.arrived.capacity; values = a.arrived.items } };

    ghost invariant = { IsCountedWindow };
}

impl CountedWindow {
    /// An empty window of this size, with memory for all that it will hold.
    pub fn make(alloc: Global, size: u32) -> Result<CountedWindow, Memory>
        ensures { IfOk result (λ window. window ≡ record { size = size; values = [] }) }
    {
        let size = size as usize;
        let arrived = HeapCircularBuffer::with_capacity(alloc, size)?;
        let counts = Vec::with_capacity(alloc, size + 1)?;
        Ok(CountedWindow { arrived, counts })
    }

    /// The most values that it holds.
    pub fn size(&self) -> usize
        ensures { result ≡ self.now.size }
    {
        self.arrived.capacity()
    }

    /// Whether it has as many values as its size.
    pub fn is_full(&self) -> bool
        ensures { result ≡ (length self.now.values == self.now.size) }
    {
        self.arrived.is_full()
    }

    /// How many of its values are equal to this one.
    pub fn count_equal(&self, value: u64) -> usize
        ensures count { result ≡ count_by (λ earlier. earlier == value) self.now.values }
        ensures bound { result ≤ self.now.size }
    {
        times_of(&self.counts, value)
    }

    /// Takes a value in. Where the window was full, its oldest value leaves.
    pub fn push(&mut self, value: u64)
        ensures { self.new ≡ record {
          size = self.old.size;
          values = take self.old.size (value ∷ self.old.values);
        } }
    {
        add(&mut self.counts, value);
        if let Some(oldest) = self.arrived.push_front(value) {
            take_out(&mut self.counts, oldest);
        }
    }
}
