//! Rings: the calls of one thread, one after another, and four drawers and a giver in threads of their own.

ghost use Rattle.std.specs.Prelude.{◌≡◌, ◌+◌, ◌≤◌, IfOk, IfSome};
ghost use Rattle.std.specs.Thread.{IsSync};
ghost use Rattle.tests_threads.specs.Seats.{HaveSeats};

use crate::marks::{are_set, mark, marks_of};
use crate::rows::row;
use hs_base::limits::MOST_BUFFERS;
use hs_base::{List, Memory};
use hs_ring::{Drawer, Giver, Lease, close};
use hs_words::{Drawn, Given, Held, Tally};
use std::alloc::Global;
use std::rt::Clock;
use std::sync::Wait;
use std::sync::atomic::AtomicU64;
use std::thread;
use std::thread::{Threads, join_mut};
use tests_with::{ring_of, work_ring};

/// How often each of five drawers draws: so seldom that four of them leave some of the chunks to the fifth.
const DRAWS: u32 = 250;

/// A pool of one chunk with one drawer.
fn one_drawer(alloc: Global) -> Result<(Giver, Drawer), Memory>
    ensures { IfOk result (λ ends. (ends.1.pool ≡ ends.0.pool) × (ends.1.size ≡ ends.0.size) × (ends.1.left ≡ 8) × (ends.1.number ≡ 0) × (ends.0.drawers ≡ 1)) }
{
    let (giver, mut drawers) = ring_of(alloc, 1, &[8])?;
    let Some(drawer) = drawers.pop() else {
        unreachable!()
    };
    Ok((giver, drawer))
}

/// Draws a chunk. Gives it with the draw's stamp.
fn draw_chunk(drawer: &mut Drawer) -> Option<(Held<Lease>, u64)>
    requires { 1 ≤ drawer.old.left }
    ensures same { (drawer.new.pool ≡ drawer.old.pool) × (drawer.new.size ≡ drawer.old.size) × (drawer.new.number ≡ drawer.old.number) }
    ensures most { drawer.new.most ≡ drawer.old.most }
    ensures left { drawer.new.left + 1 ≡ drawer.old.left }
    ensures held { IfSome result (λ got. (got.0.lease.pool ≡ drawer.old.pool) × (got.0.chunk.size ≡ drawer.old.size)) }
{
    match drawer.draw() {
        Drawn::Got { held, stamp } => Some((held, stamp)),
        Drawn::Empty { .. } => None,
    }
}

/// Draws where no chunk is left. Gives the stamp.
fn draw_nothing(drawer: &mut Drawer) -> Option<u64>
    requires { 1 ≤ drawer.old.left }
    ensures same { (drawer.new.pool ≡ drawer.old.pool) × (drawer.new.size ≡ drawer.old.size) × (drawer.new.number ≡ drawer.old.number) }
    ensures left { drawer.new.left + 1 ≡ drawer.old.left }
{
    match drawer.draw() {
        Drawn::Got { .. } => None,
        Drawn::Empty { stamp } => Some(stamp),
    }
}

/// Gives a chunk for which the number is void. It comes back with the stamp.
fn give_void(giver: &mut Giver, held: Held<Lease>) -> Option<(Held<Lease>, u64)>
    requires { (held.lease.pool ≡ giver.old.pool) × (held.chunk.size ≡ giver.old.size) }
    ensures giver { (giver.new.pool ≡ giver.old.pool) × (giver.new.size ≡ giver.old.size) × (giver.new.drawers ≡ giver.old.drawers) }
    ensures held { IfSome result (λ back. (back.0.lease.pool ≡ giver.old.pool) × (back.0.chunk.size ≡ giver.old.size)) }
{
    match giver.give(held) {
        Given::Missed { held, stamp } => Some((held, stamp)),
        _ => None,
    }
}

/// Gives a chunk. Gives the stamp.
fn give_chunk(giver: &mut Giver, held: Held<Lease>) -> Option<u64>
    requires { (held.lease.pool ≡ giver.old.pool) × (held.chunk.size ≡ giver.old.size) }
    ensures { (giver.new.pool ≡ giver.old.pool) × (giver.new.size ≡ giver.old.size) × (giver.new.drawers ≡ giver.old.drawers) }
{
    match giver.give(held) {
        Given::Given { stamp } => Some(stamp),
        _ => None,
    }
}

/// Draws twice and gives twice on one chunk, behind which it can be drawn again. Answers whether the stamps count up from 0.
fn play(giver: &mut Giver, drawer: &mut Drawer) -> Option<bool>
    requires drawer { (drawer.old.pool ≡ giver.old.pool) × (drawer.old.size ≡ giver.old.size) × (drawer.old.left ≡ 8) }
    ensures giver { (giver.new.pool ≡ giver.old.pool) × (giver.new.drawers ≡ giver.old.drawers) }
    ensures drawer { (drawer.new.pool ≡ drawer.old.pool) × (drawer.new.size ≡ drawer.old.size) × (drawer.new.number ≡ drawer.old.number) }
    ensures left { IfSome result (λ _. drawer.new.left ≡ 6) }
{
    let (held, first) = draw_chunk(drawer)?;
    let second = draw_nothing(drawer)?;
    let (held, third) = give_void(giver, held)?;
    let fourth = give_chunk(giver, held)?;
    Some(first == 0 && second == 1 && third == 2 && fourth == 3)
}

/// Closes a pool with one drawer while a chunk is leased, behind a meeting.
fn close_one(
    alloc: Global,
    mut giver: Giver,
    mut drawer: Drawer,
    held: Held<Lease>,
) -> Result<Tally, Memory>
    requires drawer { (drawer.pool ≡ giver.pool) × (drawer.number ≡ 0) × (giver.drawers ≡ 1) }
    requires held { held.lease.pool ≡ giver.pool }
{
    giver.meet(&mut drawer);
    let mut rest = List::with_room(alloc, 1)?;
    rest.push(held);
    let mut drawers = List::with_room(alloc, 1)?;
    drawers.push(drawer);
    Ok(close(giver, drawers, rest))
}

/// Two draws got a chunk and one did not, and one give was taken and one missed.
fn one_miss_for_one_empty_draw(alloc: Global) -> Result<bool, Memory> {
    let (mut giver, mut drawer) = one_drawer(alloc)?;
    let Some(rises) = play(&mut giver, &mut drawer) else {
        return Ok(false);
    };
    let Some((held, last)) = draw_chunk(&mut drawer) else {
        return Ok(false);
    };
    let is_whole = rises && last == 4 && held.chunk.number() == 0 && drawer.left() == 5;
    let tally = close_one(alloc, giver, drawer, held)?;
    Ok(is_whole && (tally.gots, tally.empties, tally.gives, tally.misses) == (2, 1, 1, 1))
}

// ---- a drawer that looks at the counts

/// A pool of eight chunks with one drawer, which draws twice before it looks.
fn two_draws(alloc: Global) -> Result<(Giver, Drawer), Memory>
    ensures { IfOk result (λ ends. (ends.1.most ≡ 2) × (ends.1.left ≡ 2)) }
{
    let (giver, mut drawers) = ring_of(alloc, 8, &[2])?;
    let Some(drawer) = drawers.pop() else {
        unreachable!()
    };
    Ok((giver, drawer))
}

/// Draws twice, and answers whether both draws got a chunk and the allowance has nothing left.
fn draw_two(drawer: &mut Drawer) -> bool
    requires { 2 ≤ drawer.old.left }
    ensures { drawer.new.most ≡ drawer.old.most }
{
    let first = draw_chunk(drawer).is_some();
    let second = draw_chunk(drawer).is_some();
    first && second && drawer.left() == 0
}

/// An allowance of two is drawn, made whole again and drawn once more.
fn an_allowance_is_made_whole_again(alloc: Global) -> Result<bool, Memory> {
    let (_giver, mut drawer) = two_draws(alloc)?;
    let first = draw_two(&mut drawer);
    if !drawer.refill() {
        return Ok(false);
    }
    let is_whole = drawer.left() == 2 && drawer.most() == 2;
    Ok(first && is_whole && draw_two(&mut drawer))
}

/// Draws the one chunk, and once more.
fn draw_past(drawer: &mut Drawer) -> Option<Held<Lease>>
    requires { 2 ≤ drawer.old.left }
    ensures { IfSome result (λ held. (held.lease.pool ≡ drawer.old.pool) × (held.chunk.size ≡ drawer.old.size)) }
{
    let (held, _) = draw_chunk(drawer)?;
    draw_nothing(drawer)?;
    Some(held)
}

/// While a void number stands out the allowance stays, and when the give that misses has published it, it is whole again.
fn a_void_number_keeps_the_allowance(alloc: Global) -> Result<bool, Memory> {
    let (mut giver, mut drawer) = one_drawer(alloc)?;
    let Some(held) = draw_past(&mut drawer) else {
        return Ok(false);
    };
    let stays = !drawer.refill() && drawer.left() == 6;
    let misses = give_void(&mut giver, held).is_some();
    let is_whole = drawer.refill() && drawer.left() == 8;
    Ok(stays && misses && is_whole)
}

// ---- five threads

/// The stamps that four drawers and a giver were answered leave no gap, and are as many as their calls.
fn five_threads_leave_no_gap<R: Threads + Clock + Wait + Sync>(
    rt: &R,
    alloc: Global,
) -> Result<bool, Memory> {
    let mut seen = work_ring(rt, alloc, 500, 0)?;
    let is_counted = seen.draws() == 2000 && seen.answers() == seen.stamps.len() as u64;
    Ok(seen.leaves_no_gap() && is_counted)
}

// ---- five drawers and a giver that are closed

/// The stamp of a draw.
fn stamp_of(drawn: Drawn<Lease>) -> u64 {
    match drawn {
        Drawn::Got { stamp, .. } => stamp,
        Drawn::Empty { stamp } => stamp,
    }
}

/// Draws as often as the allowance says, and lets go what was got.
fn draw_all(drawer: &mut Drawer, marks: &[AtomicU64])
    ensures { (drawer.new.pool ≡ drawer.old.pool) × (drawer.new.number ≡ drawer.old.number) }
{
    for _ in 0..DRAWS {
        if drawer.left() == 0 {
            break;
        }
        mark(marks, stamp_of(drawer.draw()));
    }
}

/// Gives a chunk back, again after each answer but `Given`.
fn give_back(giver: &mut Giver, held: Held<Lease>, marks: &[AtomicU64])
    requires { (held.lease.pool ≡ giver.old.pool) × (held.chunk.size ≡ giver.old.size) }
    ensures { (giver.new.pool ≡ giver.old.pool) × (giver.new.size ≡ giver.old.size) × (giver.new.drawers ≡ giver.old.drawers) }
{
    let mut held = held;
    for _ in 0..10_000 {
        held = match giver.give(held) {
            Given::Given { stamp } => return mark(marks, stamp),
            Given::Missed { held, stamp } => {
                mark(marks, stamp);
                held
            }
            Given::Unread { held } => {
                thread::yield_now();
                held
            }
        };
    }
}

/// Draws once, and gives back what was got.
fn go_round(giver: &mut Giver, drawer: &mut Drawer, marks: &[AtomicU64])
    requires left { 1 ≤ drawer.old.left }
    requires pool { (drawer.old.pool ≡ giver.old.pool) × (drawer.old.size ≡ giver.old.size) }
    ensures giver { (giver.new.pool ≡ giver.old.pool) × (giver.new.size ≡ giver.old.size) × (giver.new.drawers ≡ giver.old.drawers) }
    ensures drawer { (drawer.new.pool ≡ drawer.old.pool) × (drawer.new.size ≡ drawer.old.size) × (drawer.new.number ≡ drawer.old.number) }
{
    match drawer.draw() {
        Drawn::Got { held, stamp } => {
            mark(marks, stamp);
            give_back(giver, held, marks);
        }
        Drawn::Empty { stamp } => mark(marks, stamp),
    }
}

/// Does so as often as the allowance says.
fn go_all(giver: &mut Giver, drawer: &mut Drawer, marks: &[AtomicU64])
    requires { (drawer.old.pool ≡ giver.old.pool) × (drawer.old.size ≡ giver.old.size) }
    ensures giver { (giver.new.pool ≡ giver.old.pool) × (giver.new.drawers ≡ giver.old.drawers) }
    ensures drawer { (drawer.new.pool ≡ drawer.old.pool) × (drawer.new.number ≡ drawer.old.number) }
{
    for _ in 0..DRAWS {
        if drawer.left() == 0 {
            break;
        }
        go_round(giver, drawer, marks);
    }
}

/// Each of these draws, in a thread of its own where one can be made.
fn draw_each<R: Threads + Sync>(rt: &R, drawers: &mut List<Drawer>, marks: &[AtomicU64])
    ensures { HaveSeats drawers.old.items drawers.new.items }
{
    thread::for_each_mut(
        rt,
        drawers.as_mut_slice(),
        4,
        &|_place: usize, drawer: &mut Drawer|
            ensures { (drawer.exit.now.pool ≡ drawer.entry.now.pool) × (drawer.exit.now.number ≡ drawer.entry.now.number) }
        { draw_all(drawer, marks) },
    );
}

/// One drawer and the giver go round while the others draw.
fn work_all<R: Threads + Sync>(
    rt: &R,
    giver: &mut Giver,
    last: &mut Drawer,
    others: &mut List<Drawer>,
    marks: &[AtomicU64],
)
    requires { (last.old.pool ≡ giver.old.pool) × (last.old.size ≡ giver.old.size) }
    ensures giver { (giver.new.pool ≡ giver.old.pool) × (giver.new.drawers ≡ giver.old.drawers) }
    ensures last { (last.new.pool ≡ last.old.pool) × (last.new.number ≡ last.old.number) }
    ensures others { HaveSeats others.old.items others.new.items }
{
    join_mut(
        rt,
        &mut ||
            requires { (last.now.pool ≡ giver.now.pool) × (last.now.size ≡ giver.now.size) }
            ensures giver { (giver.exit.now.pool ≡ giver.entry.now.pool) × (giver.exit.now.drawers ≡ giver.entry.now.drawers) }
            ensures last { (last.exit.now.pool ≡ last.entry.now.pool) × (last.exit.now.number ≡ last.entry.now.number) }
        { go_all(giver, last, marks) },
        &mut ||
            requires { IsSync R.row }
            ensures { HaveSeats others.entry.now.items others.exit.now.items }
        { draw_each(rt, others, marks) },
    );
}

/// Whether all draws are counted, some gives are, and each stamp was answered once.
fn are_counted(tally: &Tally, marks: &[AtomicU64]) -> bool {
    let draws = tally.gots.saturating_add(tally.empties);
    let gives = tally.gives.saturating_add(tally.misses);
    draws == 5 * u64::from(DRAWS) && tally.gives > 0 && are_set(marks, draws.saturating_add(gives))
}

/// Five drawers, of which one gives back what it gets; and all are closed.
fn five_drawers_are_closed<R: Threads + Sync>(rt: &R, alloc: Global) -> Result<bool, Memory> {
    let marks = marks_of(alloc, 8000)?;
    let (mut giver, mut drawers) = ring_of(
        alloc,
        MOST_BUFFERS,
        &[DRAWS, DRAWS, DRAWS, DRAWS, DRAWS],
    )?;
    let Some(mut last) = drawers.pop() else {
        unreachable!()
    };
    work_all(rt, &mut giver, &mut last, &mut drawers, &marks);
    drawers.append(last)?;
    Ok(are_counted(&close(giver, drawers, List::new(alloc)), &marks))
}

#[test]
fn rings(rt: HostRuntime) {
    row(
        &rt,
        "one miss for one empty draw",
        one_miss_for_one_empty_draw(rt.alloc()),
    );
    row(
        &rt,
        "an allowance is made whole again",
        an_allowance_is_made_whole_again(rt.alloc()),
    );
    row(
        &rt,
        "a void number keeps the allowance",
        a_void_number_keeps_the_allowance(rt.alloc()),
    );
    row(
        &rt,
        "five threads",
        five_threads_leave_no_gap(&rt, rt.alloc()),
    );
    row(
        &rt,
        "five drawers",
        five_drawers_are_closed(&rt, rt.alloc()),
    );
}
