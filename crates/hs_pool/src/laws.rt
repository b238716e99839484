//! Laws of the pool. Each is the contract of a function that does nothing.

ghost use Rattle.std.specs.Prelude.{ℕ, List, reverse, ◌↔◌};
ghost use Rattle.hs_words.specs.PoolHistory.{PoolEvent, Given, MayFollow};
ghost use Rattle.hs_pool.specs.Pool.{Pool, IsAfter, IsOut};

/// A buffer is out exactly where the history allows that it is given: it was got more often than given.
pub fn what_is_out_may_be_given()
    ensures { (pool : Pool) (history : List PoolEvent) (number : ℕ) → IsAfter history pool
        → (IsOut pool number ↔ MayFollow pool.buffers (reverse history) (Given number)) }
{}
