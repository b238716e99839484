//! A pool of one buffer, and those of as many as may be.

ghost use Rattle.std.specs.Prelude.{◌≡◌, ◌≤◌};
ghost use Rattle.hs_words.specs.Chunks.{clear_chunks};

use crate::rows::row;
use hs_base::Memory;
use hs_base::limits::{MAX_BUFFERS, MAX_SIZE, MIN_SIZE, MOST_BUFFERS};
use hs_pool::PlainPool;
use hs_words::{Drawn, Given, Stock};
use std::alloc::Global;

/// The buffer that a draw got, and its stamp.
fn answer_of(drawn: &Drawn<()>) -> (Option<u32>, u64) {
    match drawn {
        Drawn::Got { held, stamp } => (Some(held.chunk.number()), *stamp),
        Drawn::Empty { stamp } => (None, *stamp),
    }
}

/// So many buffers wait in their order, and then none.
fn all_buffers_are_got(alloc: Global, buffers: u32, size: u32) -> Result<bool, Memory>
    requires buffers { (1 ≤ buffers) × (buffers ≤ MOST_BUFFERS) }
    requires size { (MIN_SIZE ≤ size) × (size ≤ MAX_SIZE) }
{
    let chunks = Stock::make(alloc, buffers, size)?;
    let mut pool = PlainPool::make(alloc, chunks)?;
    let mut right = true;
    for number in 0..buffers {
        right &= answer_of(&pool.draw()) == (Some(number), u64::from(number));
    }
    Ok(right && answer_of(&pool.draw()) == (None, u64::from(buffers)))
}

/// Whether a pool of one buffer gets it, is empty, is given it, and gets it again, with a stamp for each.
fn goes_round(mut pool: PlainPool) -> bool
    requires buffers { pool.buffers ≡ 1 }
    requires queue { pool.queue ≡ clear_chunks 1 MIN_SIZE }
    requires events { pool.events ≡ 0 }
{
    let Drawn::Got { held, stamp: 0 } = pool.draw() else {
        return false;
    };
    let is_empty = answer_of(&pool.draw()) == (None, 1);
    let is_given = matches!(pool.give(held), Given::Given { stamp: 2 });
    is_empty && is_given && answer_of(&pool.draw()) == (Some(0), 3)
}

/// A buffer that was drawn can be given, and is drawn again.
fn a_buffer_goes_round(alloc: Global) -> Result<bool, Memory> {
    let chunks = Stock::make(alloc, 1, MIN_SIZE)?;
    Ok(goes_round(PlainPool::make(alloc, chunks)?))
}

#[test]
fn pools(rt: HostRuntime) {
    row(
        &rt,
        "the largest buffers of a workload",
        all_buffers_are_got(rt.alloc(), MAX_BUFFERS, MAX_SIZE),
    );
    row(
        &rt,
        "the most buffers of a service",
        all_buffers_are_got(rt.alloc(), MOST_BUFFERS, MIN_SIZE),
    );
    row(&rt, "a buffer goes round", a_buffer_goes_round(rt.alloc()));
}
