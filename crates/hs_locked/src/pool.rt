//! How a locked pool is made.
ghost use Rattle.std.specs.Prelude.{◌≡◌, ℕ, ◌≤◌, [], length, sum, IfOk};
ghost use Rattle.std.specs.Arc.{arc_value};
ghost use Rattle.hs_base.specs.declared.limits.TheConstants.{MOST_BUFFERS, MOST_AHEAD};
ghost use Rattle.hs_words.specs.Chunks.{clear_chunks};
ghost use Rattle.hs_ring.specs.Parts.{AreNewEnds, new_drawers};
ghost use Rattle.hs_ring.specs.Seats.{name_of};
ghost use Rattle.hs_locked.specs.Views.{giver_seat_of};
ghost use Rattle.hs_locked.specs.Making.{IsMaking};

use crate::board::{Place, Plan};
use crate::drawer::LockedDrawer;
use crate::giver::LockedGiver;
use crate::lock::TicketLock;
use crate::plays::MakeDrawer;
use crate::store::Store;
use atomic_table::Table;
use hs_base::{List, Memory};
use hs_pool::PlainPool;
use hs_words::{Chunk, Tally};
use std::alloc::Global;
use std::snapshot::Snapshot;
use std::sync::Arc;

/// The maker of locked pools.
pub struct LockedPool;

/// The lock over a new pool, with the giver's seat.
fn lock_of(
    alloc: Global,
    chunks: List<Chunk>,
    allowances: &[u32],
) -> Result<(TicketLock, Place), Memory>
    requires some { 1 ≤ length chunks.items }
    requires few { length chunks.items ≤ MOST_BUFFERS }
    requires clear { (size : ℕ) × (chunks.items ≡ clear_chunks (length chunks.items) size) }
    requires draws { sum allowances.now ≤ MOST_AHEAD }
    ensures { (size : ℕ) → chunks.items ≡ clear_chunks (length chunks.items) size
        → IfOk result (λ made. IsMaking made.0.board.shared.table_id made.1 (length chunks.items) size 0 allowances.now) }
{
    let Some(first) = chunks.get(0) else {
        unreachable!()
    };
    let plan = Plan {
        buffers: chunks.len() as u32,
        first: Snapshot::of(first),
        allowances: Vec::from_slice(alloc, allowances)?,
    };
    let store = Store {
        pool: PlainPool::make(alloc, chunks)?,
        tally: Tally {
            gots: 0,
            empties: 0,
            gives: 0,
            misses: 0,
        },
    };
    let mut slots = Vec::with_capacity(alloc, 1)?;
    slots.push_reserved(store);
    match Table::new(alloc, &[0, 0], slots, &plan) {
        Ok((board, place)) => Ok((TicketLock { board }, place)),
        Err(_) => Err(Memory),
    }
}

/// A drawer for each allowance.
fn drawers_of(
    alloc: Global,
    lock: &Arc<TicketLock>,
    place: &mut Place,
    allowances: &[u32],
) -> Result<List<LockedDrawer>, Memory>
    requires making { IsMaking (arc_value lock.now).board.shared.table_id place.old (giver_seat_of place.old.me.0).buffers (giver_seat_of place.old.me.0).size 0 allowances.now }
    ensures making { IfOk result (λ _. IsMaking (arc_value lock.now).board.shared.table_id place.new (giver_seat_of place.old.me.0).buffers (giver_seat_of place.old.me.0).size (length allowances.now) []) }
    ensures drawers { IfOk result (λ drawers. drawers.items ≡ new_drawers (name_of (arc_value lock.now).board.shared.table_id) (giver_seat_of place.old.me.0).buffers (giver_seat_of place.old.me.0).size 0 allowances.now) }
{
    let mut drawers = List::with_room(alloc, allowances.len())?;
    for left in allowances {
        let shared = Arc::try_clone(lock)?;
        let seat = shared.board.shared.split_seat::<MakeDrawer>(place);
        drawers.push(LockedDrawer {
            lock: shared,
            place: seat,
            left: *left,
        });
    }
    Ok(drawers)
}

impl LockedPool {
    /// A pool of these chunks, which wait in their order, with its giver and a drawer for each allowance. The chunks are
    /// clear, of one size and numbered from 0. `Memory` comes where memory is wanting, and no other call of a locked pool
    /// takes any.
    pub fn make(
        alloc: Global,
        chunks: List<Chunk>,
        allowances: &[u32],
    ) -> Result<(LockedGiver, List<LockedDrawer>), Memory>
        requires some { 1 ≤ length chunks.items }
        requires few { length chunks.items ≤ MOST_BUFFERS }
        requires clear { (size : ℕ) × (chunks.items ≡ clear_chunks (length chunks.items) size) }
        requires drawers { 1 ≤ length allowances.now }
        requires draws { sum allowances.now ≤ MOST_AHEAD }
        ensures { (size : ℕ) → chunks.items ≡ clear_chunks (length chunks.items) size
            → IfOk result (λ made. AreNewEnds (length chunks.items) size allowances.now made.0 made.1.items) }
    {
        let (lock, mut place) = lock_of(alloc, chunks, allowances)?;
        let lock = Arc::new(alloc, lock)?;
        let drawers = drawers_of(alloc, &lock, &mut place, allowances)?;
        Ok((LockedGiver { lock, place }, drawers))
    }
}
