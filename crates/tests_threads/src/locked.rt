//! Locked pools: the calls of one thread, one after another, and five drawers and a giver in threads of their own.

ghost use Rattle.std.specs.Prelude.{◌≡◌, ◌+◌, ◌≤◌, IfOk, IfSome};
ghost use Rattle.std.specs.Thread.{IsSync};
ghost use Rattle.tests_threads.specs.Seats.{HaveSeats};

use crate::marks::{are_set, mark, marks_of};
use crate::rows::row;
use hs_base::limits::MOST_BUFFERS;
use hs_base::{List, Memory};
use hs_locked::{LockedDrawer, LockedGiver, LockedLease, close};
use hs_words::{Drawn, Given, Held, Tally};
use std::alloc::Global;
use std::sync::Wait;
use std::sync::atomic::AtomicU64;
use std::thread;
use std::thread::{Threads, join_mut};
use tests_with::locked_of;

/// How often each of five drawers draws: so seldom that four of them leave some of the chunks to the fifth.
const DRAWS: u32 = 250;

/// A pool of one chunk with one drawer.
fn one_drawer(alloc: Global) -> Result<(LockedGiver, LockedDrawer), Memory>
    ensures { IfOk result (λ ends. (ends.1.pool ≡ ends.0.pool) × (ends.1.size ≡ ends.0.size) × (ends.1.left ≡ 3) × (ends.1.number ≡ 0) × (ends.0.drawers ≡ 1)) }
{
    let (giver, mut drawers) = locked_of(alloc, 1, &[3])?;
    let Some(drawer) = drawers.pop() else {
        unreachable!()
    };
    Ok((giver, drawer))
}

/// Draws a chunk. Gives it with the draw's stamp.
fn draw_chunk<R: Wait>(rt: &R, drawer: &mut LockedDrawer) -> Option<(Held<LockedLease>, u64)>
    requires { 1 ≤ drawer.old.left }
    ensures same { (drawer.new.pool ≡ drawer.old.pool) × (drawer.new.size ≡ drawer.old.size) × (drawer.new.number ≡ drawer.old.number) }
    ensures left { drawer.new.left + 1 ≡ drawer.old.left }
    ensures held { IfSome result (λ got. (got.0.lease.pool ≡ drawer.old.pool) × (got.0.chunk.size ≡ drawer.old.size)) }
{
    match drawer.draw(rt) {
        Drawn::Got { held, stamp } => Some((held, stamp)),
        Drawn::Empty { .. } => None,
    }
}

/// Draws where no chunk is left. Gives the stamp.
fn draw_nothing<R: Wait>(rt: &R, drawer: &mut LockedDrawer) -> Option<u64>
    requires { 1 ≤ drawer.old.left }
    ensures same { (drawer.new.pool ≡ drawer.old.pool) × (drawer.new.size ≡ drawer.old.size) × (drawer.new.number ≡ drawer.old.number) }
    ensures left { drawer.new.left + 1 ≡ drawer.old.left }
{
    match drawer.draw(rt) {
        Drawn::Got { .. } => None,
        Drawn::Empty { stamp } => Some(stamp),
    }
}

/// Gives a chunk. Gives the stamp.
fn give_chunk<R: Wait>(rt: &R, giver: &mut LockedGiver, held: Held<LockedLease>) -> Option<u64>
    requires { (held.lease.pool ≡ giver.old.pool) × (held.chunk.size ≡ giver.old.size) }
    ensures { (giver.new.pool ≡ giver.old.pool) × (giver.new.size ≡ giver.old.size) × (giver.new.drawers ≡ giver.old.drawers) }
{
    match giver.give(rt, held) {
        Given::Given { stamp } => Some(stamp),
        _ => None,
    }
}

/// Draws twice and gives once on one chunk, behind which it can be drawn again. Answers whether the stamps count up from 0.
fn play<R: Wait>(rt: &R, giver: &mut LockedGiver, drawer: &mut LockedDrawer) -> Option<bool>
    requires drawer { (drawer.old.pool ≡ giver.old.pool) × (drawer.old.size ≡ giver.old.size) × (drawer.old.left ≡ 3) }
    ensures giver { (giver.new.pool ≡ giver.old.pool) × (giver.new.drawers ≡ giver.old.drawers) }
    ensures drawer { (drawer.new.pool ≡ drawer.old.pool) × (drawer.new.size ≡ drawer.old.size) × (drawer.new.number ≡ drawer.old.number) }
    ensures left { IfSome result (λ _. drawer.new.left ≡ 1) }
{
    let (held, first) = draw_chunk(rt, drawer)?;
    let second = draw_nothing(rt, drawer)?;
    let third = give_chunk(rt, giver, held)?;
    Some(first == 0 && second == 1 && third == 2)
}

/// Closes a pool with one drawer while a chunk is leased, behind a meeting.
fn close_one(
    alloc: Global,
    mut giver: LockedGiver,
    mut drawer: LockedDrawer,
    held: Held<LockedLease>,
) -> Result<Tally, Memory>
    requires drawer { (drawer.pool ≡ giver.pool) × (drawer.number ≡ 0) × (giver.drawers ≡ 1) }
    requires held { held.lease.pool ≡ giver.pool }
{
    giver.meet(&mut drawer);
    let mut rest = List::with_room(alloc, 1)?;
    rest.push(held);
    let mut drawers = List::with_room(alloc, 1)?;
    drawers.push(drawer);
    Ok(close(giver, drawers, rest))
}

/// Two draws got a chunk and one did not, and the one give was taken.
fn no_miss_for_an_empty_draw<R: Wait>(rt: &R, alloc: Global) -> Result<bool, Memory> {
    let (mut giver, mut drawer) = one_drawer(alloc)?;
    let Some(rises) = play(rt, &mut giver, &mut drawer) else {
        return Ok(false);
    };
    let Some((held, last)) = draw_chunk(rt, &mut drawer) else {
        return Ok(false);
    };
    let is_whole = rises && last == 3 && held.chunk.number() == 0 && drawer.left() == 0;
    let tally = close_one(alloc, giver, drawer, held)?;
    Ok(is_whole && (tally.gots, tally.empties, tally.gives, tally.misses) == (2, 1, 1, 0))
}

// ---- five drawers and a giver that are closed

/// The stamp of a draw.
fn stamp_of(drawn: Drawn<LockedLease>) -> u64 {
    match drawn {
        Drawn::Got { stamp, .. } => stamp,
        Drawn::Empty { stamp } => stamp,
    }
}

/// Draws as often as the allowance says, and lets go what was got.
fn draw_all<R: Wait>(rt: &R, drawer: &mut LockedDrawer, marks: &[AtomicU64])
    ensures { (drawer.new.pool ≡ drawer.old.pool) × (drawer.new.number ≡ drawer.old.number) }
{
    for _ in 0..DRAWS {
        if drawer.left() == 0 {
            break;
        }
        mark(marks, stamp_of(drawer.draw(rt)));
    }
}

/// Draws once, and gives back what was got.
fn go_round<R: Wait>(
    rt: &R,
    giver: &mut LockedGiver,
    drawer: &mut LockedDrawer,
    marks: &[AtomicU64],
)
    requires left { 1 ≤ drawer.old.left }
    requires pool { (drawer.old.pool ≡ giver.old.pool) × (drawer.old.size ≡ giver.old.size) }
    ensures giver { (giver.new.pool ≡ giver.old.pool) × (giver.new.size ≡ giver.old.size) × (giver.new.drawers ≡ giver.old.drawers) }
    ensures drawer { (drawer.new.pool ≡ drawer.old.pool) × (drawer.new.size ≡ drawer.old.size) × (drawer.new.number ≡ drawer.old.number) }
{
    match drawer.draw(rt) {
        Drawn::Got { held, stamp } => {
            mark(marks, stamp);
            if let Some(stamp) = give_chunk(rt, giver, held) {
                mark(marks, stamp);
            }
        }
        Drawn::Empty { stamp } => mark(marks, stamp),
    }
}

/// Does so as often as the allowance says.
fn go_all<R: Wait>(rt: &R, giver: &mut LockedGiver, drawer: &mut LockedDrawer, marks: &[AtomicU64])
    requires { (drawer.old.pool ≡ giver.old.pool) × (drawer.old.size ≡ giver.old.size) }
    ensures giver { (giver.new.pool ≡ giver.old.pool) × (giver.new.drawers ≡ giver.old.drawers) }
    ensures drawer { (drawer.new.pool ≡ drawer.old.pool) × (drawer.new.number ≡ drawer.old.number) }
{
    for _ in 0..DRAWS {
        if drawer.left() == 0 {
            break;
        }
        go_round(rt, giver, drawer, marks);
    }
}

/// Each of these draws, in a thread of its own where one can be made.
fn draw_each<R: Threads + Wait + Sync>(
    rt: &R,
    drawers: &mut List<LockedDrawer>,
    marks: &[AtomicU64],
)
    ensures { HaveSeats drawers.old.items drawers.new.items }
{
    thread::for_each_mut(
        rt,
        drawers.as_mut_slice(),
        4,
        &|_place: usize, drawer: &mut LockedDrawer|
            requires { IsSync R.row }
            ensures { (drawer.exit.now.pool ≡ drawer.entry.now.pool) × (drawer.exit.now.number ≡ drawer.entry.now.number) }
        { draw_all(rt, drawer, marks) },
    );
}

/// One drawer and the giver go round while the others draw.
fn work_all<R: Threads + Wait + Sync>(
    rt: &R,
    giver: &mut LockedGiver,
    last: &mut LockedDrawer,
    others: &mut List<LockedDrawer>,
    marks: &[AtomicU64],
)
    requires { (last.old.pool ≡ giver.old.pool) × (last.old.size ≡ giver.old.size) }
    ensures giver { (giver.new.pool ≡ giver.old.pool) × (giver.new.drawers ≡ giver.old.drawers) }
    ensures last { (last.new.pool ≡ last.old.pool) × (last.new.number ≡ last.old.number) }
    ensures others { HaveSeats others.old.items others.new.items }
{
    join_mut(
        rt,
        &mut ||
            requires { IsSync R.row × (last.now.pool ≡ giver.now.pool) × (last.now.size ≡ giver.now.size) }
            ensures giver { (giver.exit.now.pool ≡ giver.entry.now.pool) × (giver.exit.now.drawers ≡ giver.entry.now.drawers) }
            ensures last { (last.exit.now.pool ≡ last.entry.now.pool) × (last.exit.now.number ≡ last.entry.now.number) }
        { go_all(rt, giver, last, marks) },
        &mut ||
            requires { IsSync R.row }
            ensures { HaveSeats others.entry.now.items others.exit.now.items }
        { draw_each(rt, others, marks) },
    );
}

/// Whether all draws are counted, some gives are, none missed, and each stamp was answered once.
fn are_counted(tally: &Tally, marks: &[AtomicU64]) -> bool {
    let draws = tally.gots.saturating_add(tally.empties);
    let is_whole = draws == 5 * u64::from(DRAWS) && tally.gives > 0 && tally.misses == 0;
    is_whole && are_set(marks, draws.saturating_add(tally.gives))
}

/// Five drawers, of which one gives back what it gets; and all are closed.
fn five_drawers_are_closed<R: Threads + Wait + Sync>(
    rt: &R,
    alloc: Global,
) -> Result<bool, Memory> {
    let marks = marks_of(alloc, 4000)?;
    let (mut giver, mut drawers) = locked_of(
        alloc,
        MOST_BUFFERS,
        &[DRAWS, DRAWS, DRAWS, DRAWS, DRAWS],
    )?;
    let Some(mut last) = drawers.pop() else {
        unreachable!()
    };
    work_all(rt, &mut giver, &mut last, &mut drawers, &marks);
    drawers.append(last)?;
    Ok(are_counted(&close(giver, drawers, List::new(alloc)), &marks))
}

#[test]
fn locked_pools(rt: HostRuntime) {
    row(
        &rt,
        "no miss for an empty draw",
        no_miss_for_an_empty_draw(&rt, rt.alloc()),
    );
    row(
        &rt,
        "five drawers",
        five_drawers_are_closed(&rt, rt.alloc()),
    );
}
