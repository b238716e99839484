//! What lies under the lock.
ghost use Rattle.std.specs.Prelude.{◌≡◌, ℕ, ◌+◌, ◌-◌, ◌^◌, ◌<◌};
ghost use Rattle.hs_words.specs.PoolAnswers.{event_drawn, stamp_drawn};
ghost use Rattle.hs_words.specs.PoolHistory.{Given as GivenBack};
ghost use Rattle.hs_pool.specs.Pool.{IsOut, HasSize, Draws, HasDrawnSize, waiting};
ghost use Rattle.hs_locked.specs.Stored.{next_draw, GoesOn, IsCounted};

use hs_pool::PlainPool;
use hs_words::{Chunk, Drawn, Given, Held, Tally};

/// The plain pool, and how often each answer was given.
#[derive(Drop)]
pub struct Store {
    pub pool: PlainPool,
    pub tally: Tally,
}

impl Store {
    /// Draws of the pool, and counts the answer.
    pub fn draw(&mut self) -> Drawn<()>
        requires few { self.old.pool.events < 2 ^ 64 - 1 }
        requires counted { IsCounted self.old }
        ensures drawn { Draws self.old.pool result self.new.pool }
        ensures event { event_drawn result ≡ next_draw (waiting self.old.pool) }
        ensures stamp { stamp_drawn result ≡ self.old.pool.events }
        ensures sized { (size : ℕ) → HasSize size self.old.pool → HasDrawnSize size result }
        ensures goes_on { (size : ℕ) → HasSize size self.old.pool → GoesOn size self.old (event_drawn result) self.new }
    {
        let drawn = self.pool.draw();
        match &drawn {
            Drawn::Got { .. } => self.tally.gots += 1,
            Drawn::Empty { .. } => self.tally.empties += 1,
        }
        drawn
    }

    /// Gives a chunk to the pool, and counts the answer. Gives the stamp.
    pub fn give(&mut self, chunk: Chunk) -> u64
        requires few { self.old.pool.events < 2 ^ 64 - 1 }
        requires counted { IsCounted self.old }
        requires out { IsOut self.old.pool chunk.number }
        ensures stamp { result ≡ self.old.pool.events }
        ensures goes_on { (size : ℕ) → HasSize size self.old.pool → chunk.size ≡ size → GoesOn size self.old (GivenBack chunk.number) self.new }
    {
        let Given::Given { stamp } = self.pool.give(Held { chunk, lease: () }) else {
            unreachable!()
        };
        self.tally.gives += 1;
        stamp
    }
}
