//! The pinned chunks of one group.

ghost use Rattle.std.specs.Prelude.{◌≡◌, ◌+◌, ◌≤◌, [], ◌∷◌, ◌++◌, length, map, drop, slice_get, OnOk, OnErr, IfOk, IfErr, option_map, nat_eq};
ghost use Rattle.std.specs.VecDeque.{deque_len, deque_capacity};
ghost use Rattle.hs_words.specs.Buffers.{buffer_of};
ghost use Rattle.hs_pins.specs.Waiting.{used_bytes};

use hs_base::{List, Memory};
use hs_words::{Held, Token};
use std::alloc::Global;
use std::collections::VecDeque;
use std::marker::Model;
use std::mem::replace;

/// The pinned chunks of one group, first to last as they were pinned.
#[derive(Drop)]
pub struct Pile<L: Token> {
    chunks: VecDeque<Held<L>>,
}

impl<L: Token> Model for Pile<L> {
    ghost use Rattle.std.specs.Prelude.{List, map};
    ghost use Rattle.hs_words.specs.Buffers.{Buffer, buffer_of};

    ghost Value = { List (Buffer L) };

    ghost view = { λ a. map buffer_of a.chunks.items };
}

impl<L: Token> Pile<L> {
    /// A pile of these chunks. It takes no memory.
    pub fn of(chunks: List<Held<L>>) -> Pile<L>
        ensures { result ≡ map buffer_of chunks.items }
    {
        Pile {
            chunks: VecDeque::from_vec(chunks.into_vec()),
        }
    }

    /// A pile of these chunks, first to last. It takes no memory.
    pub fn from_deque(chunks: VecDeque<Held<L>>) -> Pile<L>
        ensures { result ≡ map buffer_of chunks.items }
    {
        Pile { chunks }
    }

    /// Takes all chunks out, with room for so many more. For want of memory nothing changes.
    pub fn take_all(&mut self, alloc: Global, room: usize) -> Result<VecDeque<Held<L>>, Memory>
        ensures chunks { IfOk result (λ chunks. map buffer_of chunks.items ≡ self.old) }
        ensures room { IfOk result (λ chunks. deque_len chunks + room ≤ deque_capacity chunks) }
        ensures none { OnOk result (self.new ≡ []) }
        ensures err { OnErr result (self.new ≡ self.old) }
    {
        self.chunks.reserve(room)?;
        Ok(replace(&mut self.chunks, VecDeque::new(alloc)))
    }

    /// The chunks of a pile. It takes no memory.
    pub fn into_list(self) -> List<Held<L>>
        ensures { map buffer_of result.items ≡ self }
    {
        let Pile { chunks } = self;
        List::from_vec(Vec::from(chunks))
    }

    /// The number of chunks.
    pub fn len(&self) -> usize
        ensures { result ≡ length self.now }
    {
        self.chunks.len()
    }

    /// Whether there is no chunk.
    pub fn is_empty(&self) -> bool
        ensures { result ≡ nat_eq (length self.now) 0 }
    {
        self.chunks.is_empty()
    }

    /// Adds chunks at the end. For want of memory they come back.
    pub fn append(&mut self, chunks: List<Held<L>>) -> Result<(), List<Held<L>>>
        ensures ok { OnOk result (self.new ≡ self.old ++ map buffer_of chunks.items) }
        ensures err { OnErr result (self.new ≡ self.old) }
        ensures back { IfErr result (λ back. map buffer_of back.items ≡ map buffer_of chunks.items) }
    {
        let mut added = VecDeque::from_vec(chunks.into_vec());
        match self.chunks.append(&mut added) {
            Ok(()) => Ok(()),
            Err(_) => Err(List::from_vec(Vec::from(added))),
        }
    }

    /// Adds a chunk at the end. For want of memory it comes back.
    pub fn push(&mut self, held: Held<L>) -> Result<(), Held<L>>
        ensures ok { OnOk result (self.new ≡ self.old ++ buffer_of held ∷ []) }
        ensures err { OnErr result (self.new ≡ self.old) }
        ensures back { IfErr result (λ back. buffer_of back ≡ buffer_of held) }
    {
        match self.chunks.push_back(held) {
            Ok(()) => Ok(()),
            Err(failed) => Err(failed.value),
        }
    }

    /// Takes the first chunk out, or answers `None` where there is none.
    pub fn take_first(&mut self) -> Option<Held<L>>
        ensures first { option_map buffer_of result ≡ slice_get self.old 0 }
        ensures rest { self.new ≡ drop 1 self.old }
    {
        self.chunks.pop_front()
    }

    /// The used bytes of the first chunk, or `None` where there is none.
    pub fn first_used(&self) -> Option<u32>
        ensures { result ≡ option_map used_bytes (slice_get self.now 0) }
    {
        match self.chunks.front() {
            Some(held) => Some(held.chunk.used()),
            None => None,
        }
    }
}
