//! The pool of one thread.

ghost use Rattle.std.specs.Prelude.{◌≡◌, ℕ, ◌+◌, ◌-◌, ◌≤◌, ◌<◌, ◌^◌, [], ◌∷◌, ◌++◌, length, None, Some, IfOk};
ghost use Rattle.std.specs.VecDeque.{deque_capacity};
ghost use Rattle.hs_words.specs.Chunks.{clear_chunks, with_page};
ghost use Rattle.hs_words.specs.PoolHistory.{Given as GivenBack};
ghost use Rattle.hs_words.specs.PoolAnswers.{event_drawn, stamp_drawn};
ghost use Rattle.hs_pool.specs.Pool.{IsAfter, Extends, IsOut, HasSize, Draws, HasDrawnSize, IsGiven};

use hs_base::limits::MOST_BUFFERS;
use hs_base::{List, Memory};
use hs_words::{Chunk, Drawn, Given, Held};
use std::alloc::Global;
use std::collections::VecDeque;
use std::marker::Model;

/// A pool of buffers in one queue. A draw takes the buffer at the front, a give puts one at the back, and
/// each has the next stamp, from 0.
#[derive(Drop)]
pub struct PlainPool {
    queue: VecDeque<Chunk>,
    events: u64,
}

impl Model for PlainPool {
    ghost use Rattle.hs_pool.specs.Pool.{Pool};

    ghost Value = { Pool };

    ghost use Rattle.hs_pool.specs.Queue.{pool_of, IsPool};

    ghost view = { pool_of };

    ghost invariant = { IsPool };
}

impl PlainPool {
    /// A pool of these chunks, which wait in their order. It takes memory for the queue; no other call does.
    pub fn make(alloc: Global, chunks: List<Chunk>) -> Result<PlainPool, Memory>
        requires some { 1 ≤ length chunks.items }
        requires few { length chunks.items ≤ MOST_BUFFERS }
        // They are clear, of one size and numbered from 0.
        requires clear { (size : ℕ) × (chunks.items ≡ clear_chunks (length chunks.items) size) }
        ensures queue { IfOk result (λ pool. pool.queue ≡ chunks.items) }
        ensures after { IfOk result (λ pool. IsAfter [] pool) }
        ensures buffers { IfOk result (λ pool. pool.buffers ≡ length chunks.items) }
    {
        let queue = queue_of(alloc, chunks)?;
        Ok(PlainPool { queue, events: 0 })
    }

    /// Takes the buffer at the front of the queue, or answers that the queue is empty.
    pub fn draw(&mut self) -> Drawn<()>
        requires { self.old.events < 2 ^ 64 - 1 }
        ensures drawn { Draws self.old result self.new }
        ensures stamp { stamp_drawn result ≡ self.old.events }
        ensures events { self.new.events ≡ self.old.events + 1 }
        ensures buffers { self.new.buffers ≡ self.old.buffers }

        // Where the pool came to be by a history, it is then by that history and this draw.
        ensures after { Extends self.old (event_drawn result) self.new }

        // Where all that wait have one size, so has what was drawn, and so have those that still wait.
        ensures size { (size : ℕ) → HasSize size self.old → HasDrawnSize size result × HasSize size self.new }
    {
        let stamp = self.events;
        self.events += 1;
        match self.queue.pop_front() {
            Some(chunk) => Drawn::Got {
                held: Held { chunk, lease: () },
                stamp,
            },
            None => Drawn::Empty { stamp },
        }
    }

    /// Puts a buffer back at the end of the queue, cleared. The answer is always `Given`.
    pub fn give(&mut self, held: Held<()>) -> Given<()>
        requires out { IsOut self.old held.chunk.number }
        requires events { self.old.events < 2 ^ 64 - 1 }
        ensures given { IsGiven self.old.events result }
        ensures queue { self.new.queue ≡ self.old.queue ++ with_page held.chunk None ∷ [] }
        ensures events { self.new.events ≡ self.old.events + 1 }
        ensures buffers { self.new.buffers ≡ self.old.buffers }

        // Where the pool came to be by a history, it is then by that history and this give.
        ensures after { Extends self.old (GivenBack held.chunk.number) self.new }

        // A buffer of the pool's size leaves the pool with one size.
        ensures size { (size : ℕ) → HasSize size self.old → held.chunk.size ≡ size → HasSize size self.new }
    {
        let stamp = self.events;
        self.events += 1;
        let Held {
            mut chunk,
            lease: (),
        } = held;
        chunk.clear();
        self.queue.push_back_reserved(chunk);
        Given::Given { stamp }
    }
}

/// The chunks in a queue that has room for them alone.
fn queue_of(alloc: Global, chunks: List<Chunk>) -> Result<VecDeque<Chunk>, Memory>
    ensures items { IfOk result (λ queue. queue.items ≡ chunks.items) }
    ensures room { IfOk result (λ queue. deque_capacity queue ≡ length chunks.items) }
{
    let mut queue = VecDeque::with_capacity(alloc, chunks.len())?;
    for chunk in chunks.into_vec() {
        queue.push_back_reserved(chunk);
    }
    Ok(queue)
}
