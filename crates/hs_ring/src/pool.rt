//! How a ring is made.
ghost use Rattle.std.specs.Prelude.{◌≡◌, ℕ, ◌+◌, ◌*◌, ◌^◌, ◌≤◌, ◌<◌, [], length, sum, IfOk};
ghost use Rattle.std.specs.Arc.{arc_value};
ghost use Rattle.hs_base.specs.declared.limits.TheConstants.{MOST_BUFFERS, MOST_AHEAD};
ghost use Rattle.hs_words.specs.Chunks.{clear_chunks};
ghost use Rattle.hs_ring.specs.Views.{giver_seat_of};
ghost use Rattle.hs_ring.specs.Parts.{AreNewEnds, new_drawers};
ghost use Rattle.hs_ring.specs.Seats.{IsSeatAt, name_of};
ghost use Rattle.hs_ring.specs.Making.{first_words, first_slots, IsMaking};

use crate::board::{Board, LEVEL, Place, Plan};
use crate::drawer::Drawer;
use crate::giver::Giver;
use crate::plays::MakeDrawer;
use atomic_table::Table;
use hs_base::{List, Memory};
use hs_words::Chunk;
use std::alloc::Global;
use std::snapshot::Snapshot;
use std::sync::Arc;

/// The maker of rings.
pub struct RingPool;

/// The words of a new table: all buffers are published, each under its own number.
fn words_of(alloc: Global, buffers: u32) -> Result<Vec<u64>, Memory>
    requires { buffers ≤ MOST_BUFFERS }
    ensures { IfOk result (λ words. words.items ≡ first_words buffers) }
{
    let mut words = Vec::with_capacity(alloc, 2 * buffers as usize + 1)?;
    words.push_reserved(u64::from(buffers) + LEVEL);
    for number in 0..buffers {
        words.push_reserved(u64::from(number) + 1);
    }
    for _more in 0..buffers {
        words.push_reserved(0);
    }
    Ok(words)
}

/// The slots of a new table: the chunks, and as many that are empty.
fn slots_of(alloc: Global, chunks: List<Chunk>) -> Result<Vec<Option<Chunk>>, Memory>
    requires { length chunks.items ≤ MOST_BUFFERS }
    ensures { IfOk result (λ slots. slots.items ≡ first_slots chunks.items) }
{
    let buffers = chunks.len();
    let mut slots = Vec::with_capacity(alloc, 2 * buffers)?;
    for chunk in chunks.into_vec() {
        slots.push_reserved(Some(chunk));
    }
    for _more in 0..buffers {
        slots.push_reserved(None);
    }
    Ok(slots)
}

/// The table, with the giver's seat.
fn table_of(
    alloc: Global,
    chunks: List<Chunk>,
    allowances: &[u32],
) -> Result<(Board, Place), Memory>
    requires some { 1 ≤ length chunks.items }
    requires few { length chunks.items ≤ MOST_BUFFERS }
    requires clear { (size : ℕ) × (chunks.items ≡ clear_chunks (length chunks.items) size) }
    requires draws { sum allowances.now ≤ MOST_AHEAD }
    ensures { (size : ℕ) → chunks.items ≡ clear_chunks (length chunks.items) size
        → IfOk result (λ made. IsMaking made.0.shared.table_id made.1 size 0 allowances.now × (made.0.shared.table_id.slots ≡ 2 * length chunks.items)) }
{
    let Some(first) = chunks.get(0) else {
        unreachable!()
    };
    let buffers = chunks.len() as u32;
    let plan = Plan {
        buffers,
        first: Snapshot::of(first),
        allowances: Vec::from_slice(alloc, allowances)?,
    };
    let words = words_of(alloc, buffers)?;
    let slots = slots_of(alloc, chunks)?;
    match Table::new(alloc, words.as_slice(), slots, &plan) {
        Ok(made) => Ok(made),
        Err(_) => Err(Memory),
    }
}

/// A drawer for each allowance.
fn drawers_of(
    alloc: Global,
    board: &Arc<Board>,
    place: &mut Place,
    buffers: u32,
    allowances: &[u32],
) -> Result<List<Drawer>, Memory>
    requires making { IsMaking (arc_value board.now).shared.table_id place.old (giver_seat_of place.old.me.0).size 0 allowances.now }
    requires halves { 2 * buffers ≡ (arc_value board.now).shared.table_id.slots }
    ensures making { IfOk result (λ _. IsMaking (arc_value board.now).shared.table_id place.new (giver_seat_of place.old.me.0).size (length allowances.now) []) }
    ensures drawers { IfOk result (λ drawers. drawers.items ≡ new_drawers (name_of (arc_value board.now).shared.table_id) buffers (giver_seat_of place.old.me.0).size 0 allowances.now) }
{
    let mut drawers = List::with_room(alloc, allowances.len())?;
    for left in allowances {
        let shared = Arc::try_clone(board)?;
        let seat = shared.shared.split_seat::<MakeDrawer>(place);
        drawers.push(Drawer {
            board: shared,
            place: seat,
            most: *left,
            left: *left,
            buffers,
        });
    }
    Ok(drawers)
}

impl RingPool {
    /// A pool of these chunks, which wait in their order, with its giver and a drawer for each allowance. The chunks are
    /// clear, of one size and numbered from 0. Its ring is twice as long as the list of chunks. `Memory` comes where memory is
    /// wanting, and no other call of a ring takes any.
    pub fn make(
        alloc: Global,
        chunks: List<Chunk>,
        allowances: &[u32],
    ) -> Result<(Giver, List<Drawer>), Memory>
        requires some { 1 ≤ length chunks.items }
        requires few { length chunks.items ≤ MOST_BUFFERS }
        requires clear { (size : ℕ) × (chunks.items ≡ clear_chunks (length chunks.items) size) }
        requires drawers { 1 ≤ length allowances.now }
        requires draws { sum allowances.now ≤ MOST_AHEAD }
        ensures { (size : ℕ) → chunks.items ≡ clear_chunks (length chunks.items) size
            → IfOk result (λ made. AreNewEnds (length chunks.items) size allowances.now made.0 made.1.items) }
    {
        let buffers = chunks.len() as u32;
        let (table, mut place) = table_of(alloc, chunks, allowances)?;
        let board = Arc::new(alloc, table)?;
        let drawers = drawers_of(alloc, &board, &mut place, buffers, allowances)?;
        let giver = Giver {
            board,
            place,
            buffers,
            published: u64::from(buffers),
            misses: 0,
        };
        Ok((giver, drawers))
    }
}
