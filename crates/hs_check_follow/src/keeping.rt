//! Chunks that are kept for when they are asked for.

ghost use Rattle.std.specs.Prelude.{◌≡◌, ◌≤◌, ◌+◌, ◌*◌, IsTrue, [], ◌∷◌, ◌++◌, length, map, OnOk, if◌then◌else◌};
ghost use Rattle.hs_words.specs.Buffers.{buffer_of};

use hs_base::Memory;
use hs_records::{Draw, Op};
use hs_words::Held;
use std::collections::VecDeque;

/// What a chunk takes beside its buffer, in bytes: its place in a queue, and what an allocator notes of the buffer.
const BESIDE: usize = 88;

/// For each chunk of a client whose chunks are kept there are so many operations at least.
const FEWEST: usize = 4;

/// And for each of its operations its chunks take so many bytes at most.
const MOST: usize = 80;

/// The chunks that a client sent so far, where they are kept.
#[derive(Drop)]
pub(crate) struct Keeping {
    pub(crate) keeps: bool,
    pub(crate) chunks: VecDeque<Held<()>>,
}

impl Keeping {
    /// Keeps a chunk, or lets it go.
    pub(crate) fn keep(&mut self, held: Held<()>) -> Result<(), Memory>
        ensures keeps { OnOk result (self.new.keeps ≡ self.old.keeps) }
        ensures chunks { OnOk result (map buffer_of self.new.chunks.items ≡ (if self.old.keeps then map buffer_of self.old.chunks.items ++ buffer_of held ∷ [] else map buffer_of self.old.chunks.items)) }
    {
        if self.keeps {
            self.chunks.push_back(held)?;
        }
        Ok(())
    }
}

/// Whether the chunks of a client with these operations are kept at these draws: where they are few, and take little, for so many
/// operations.
pub(crate) fn may_keep(size: u32, operations: &[Op], draws: &[Draw]) -> bool
    ensures few { IsTrue result → length draws.now * FEWEST ≤ length operations.now }
    ensures little { IsTrue result → length draws.now * (size + BESIDE) ≤ length operations.now * MOST }
{
    let count = operations.len();
    let chunk = (size as usize).saturating_add(BESIDE);
    draws.len() <= count / FEWEST && draws.len() <= count.saturating_mul(MOST) / chunk
}
