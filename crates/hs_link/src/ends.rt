//! How a link is made.
ghost use Rattle.std.specs.Prelude.{◌<◌, IfOk};
ghost use Rattle.hs_link.specs.Contents.{AreNewEnds};

use crate::board::{Board, Fact, STRIDE};
use crate::plays::MakeEnds;
use crate::receiver::Receiver;
use crate::sender::Sender;
use atomic_table::Table;
use hs_base::Memory;
use std::alloc::Global;
use std::collections::VecDeque;
use std::sync::Arc;

/// Makes a link whose ring has `capacity` entries, at least one. The outbox has memory for the `room` items that may be
/// sent in all. The key is what the link's condition reads beside an item; only contracts see it. `Memory` comes where
/// memory is wanting, and no other call of a link takes any.
pub fn link<T: Drop, F: Fact<T>>(
    alloc: Global,
    capacity: u32,
    room: u32,
    key: &F,
) -> Result<(Sender<T, F>, Receiver<T, F>), Memory>
    requires { 0 < capacity }
    ensures { IfOk result (λ ends. AreNewEnds key.now capacity room ends.0 ends.1) }
{
    let capacity = capacity as usize;
    let outbox = VecDeque::with_capacity(alloc, room as usize)?;
    let words = Vec::from_elem(alloc, 0u64, STRIDE * capacity)?;
    let (table, mut place): (Board<T, F>, _) = Table::vacant(
        alloc,
        words.as_slice(),
        capacity,
        key,
    )?;
    let board = Arc::new(alloc, table)?;
    let shared = Arc::try_clone(&board)?;
    let other = board.shared.split_seat::<MakeEnds>(&mut place);
    let receiver = Receiver::new(shared, other, capacity);
    Ok((Sender::new(board, place, capacity, outbox, room), receiver))
}
