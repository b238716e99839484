//! A locked pool, made.

ghost use Rattle.std.specs.Prelude.{◌≡◌, ◌≤◌, length, sum, IfOk};
ghost use Rattle.hs_ring.specs.Parts.{AreNewEnds};

use hs_base::limits::{MAX_OPERATIONS, MIN_SIZE, MOST_BUFFERS};
use hs_base::{List, Memory};
use hs_locked::{LockedDrawer, LockedGiver, LockedPool};
use hs_words::Stock;
use std::alloc::Global;

/// A locked pool of so many chunks of 64 bytes.
pub fn locked_of(
    alloc: Global,
    chunks: u32,
    allowances: &[u32],
) -> Result<(LockedGiver, List<LockedDrawer>), Memory>
    requires chunks { (1 ≤ chunks) × (chunks ≤ MOST_BUFFERS) }
    requires allowances { (1 ≤ length allowances.now) × (sum allowances.now ≤ MAX_OPERATIONS) }
    ensures { IfOk result (λ ends. AreNewEnds chunks MIN_SIZE allowances.now ends.0 ends.1.items) }
{
    let chunks = Stock::make(alloc, chunks, MIN_SIZE)?;
    LockedPool::make(alloc, chunks, allowances)
}
