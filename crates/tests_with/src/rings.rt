//! Four drawers and a giver of a ring on eight chunks, each in a thread of its own. What was got goes back to the giver over links.

ghost use Rattle.std.specs.Prelude.{◌≡◌, ◌+◌, ◌*◌, ◌≤◌, [], length, sum, IfOk};
ghost use Rattle.std.specs.Thread.{IsSync};
ghost use Rattle.hs_link.specs.Contents.{sent};
ghost use Rattle.hs_ring.specs.Parts.{AreNewEnds};

use crate::spent::{Pace, Seen, add_up, now, rest, since};
use hs_base::limits::{MAX_OPERATIONS, MIN_SIZE, MOST_BUFFERS};
use hs_base::{List, Memory};
use hs_link::{Fact, Receiver, Sender, link};
use hs_ring::{Drawer, Giver, Lease, RingPool};
use hs_words::{Drawn, Given, Held, Stock};
use std::alloc::{AllocError, Global};
use std::rt::Clock;
use std::snapshot::Snapshot;
use std::sync::Wait;
use std::sync::atomic::{AtomicU64, Ordering};
use std::thread;
use std::thread::Threads;

/// A pool of so many chunks of 64 bytes.
pub fn ring_of(
    alloc: Global,
    chunks: u32,
    allowances: &[u32],
) -> Result<(Giver, List<Drawer>), Memory>
    requires chunks { (1 ≤ chunks) × (chunks ≤ MOST_BUFFERS) }
    requires allowances { (1 ≤ length allowances.now) × (sum allowances.now ≤ MAX_OPERATIONS) }
    ensures { IfOk result (λ ends. AreNewEnds chunks MIN_SIZE allowances.now ends.0 ends.1.items) }
{
    let chunks = Stock::make(alloc, chunks, MIN_SIZE)?;
    RingPool::make(alloc, chunks, allowances)
}

/// What the chunks of a link have in common: their pool, and its size.
#[derive(Drop)]
struct OfPool {
    giver: Snapshot<Giver>,
}

impl Fact<Held<Lease>> for OfPool {
    ghost holds = { λ key held. (held.lease.pool ≡ key.giver.value.pool) × (held.chunk.size ≡ key.giver.value.size) };
}

type Chunks = Receiver<Held<Lease>, OfPool>;

/// Two drawers.
type Two = (Drawer, Drawer);

/// A drawer, and the link that takes its chunks to the giver.
#[derive(Drop)]
struct Draws {
    drawer: Drawer,
    chunks: Sender<Held<Lease>, OfPool>,
    ghost pool: { (drawer.pool ≡ chunks.key.giver.value.pool) × (drawer.size ≡ chunks.key.giver.value.size) },
    ghost room: { (sent chunks ≡ []) × (drawer.left ≤ chunks.room) },
}

/// The links on which the chunks of two drawers come.
#[derive(Drop)]
struct Links {
    one: Chunks,
    two: Chunks,
}

/// The giver, and the links on which chunks come.
#[derive(Drop)]
struct Gives {
    giver: Giver,
    front: Links,
    back: Links,
    ghost of_one: { (front.one.key.giver.value.pool ≡ giver.pool) × (front.one.key.giver.value.size ≡ giver.size) },
    ghost of_two: { (front.two.key.giver.value.pool ≡ giver.pool) × (front.two.key.giver.value.size ≡ giver.size) },
    ghost of_three: { (back.one.key.giver.value.pool ≡ giver.pool) × (back.one.key.giver.value.size ≡ giver.size) },
    ghost of_four: { (back.two.key.giver.value.pool ≡ giver.pool) × (back.two.key.giver.value.size ≡ giver.size) },
}

/// What one of the threads does.
#[derive(Drop)]
enum Job {
    Draw(Draws),
    Give(Gives),
}

/// Draws once, and sends what was got.
fn draw_one<R: Clock>(
    rt: &R,
    drawer: &mut Drawer,
    chunks: &mut Sender<Held<Lease>, OfPool>,
    rests: u32,
    seen: &mut Seen,
) -> u64
    requires left { 1 ≤ drawer.old.left }
    requires pool { (drawer.old.pool ≡ chunks.old.key.giver.value.pool) × (drawer.old.size ≡ chunks.old.key.giver.value.size) }
    requires room { length (sent chunks.old) + drawer.old.left ≤ chunks.old.room }
    ensures left { drawer.new.left + 1 ≡ drawer.old.left }
    ensures pool { (drawer.new.pool ≡ chunks.new.key.giver.value.pool) × (drawer.new.size ≡ chunks.new.key.giver.value.size) }
    ensures room { length (sent chunks.new) + drawer.new.left ≤ chunks.new.room }
{
    let start = now(rt);
    match drawer.draw() {
        Drawn::Got { held, stamp } => {
            seen.drawn.add(since(rt, start));
            chunks.send(held);
            rest(rests);
            stamp
        }
        Drawn::Empty { stamp } => {
            seen.empties = seen.empties.saturating_add(1);
            thread::yield_now();
            stamp
        }
    }
}

/// Draws as often as the allowance says.
fn draw_all<R: Clock>(rt: &R, alloc: Global, job: Draws, rests: u32) -> Result<Seen, AllocError> {
    let Draws {
        mut drawer,
        mut chunks,
    } = job;
    let mut seen = Seen::nothing(alloc);
    'draws: while drawer.left() > 0 {
        let stamp = draw_one(rt, &mut drawer, &mut chunks, rests, &mut seen);
        seen.stamps.push(stamp)?;
    }
    Ok(seen)
}

/// Gives a chunk back, again after each answer but `Given`.
fn give_back<R: Wait + Clock>(
    rt: &R,
    giver: &mut Giver,
    held: Held<Lease>,
    seen: &mut Seen,
) -> Result<(), AllocError>
    requires { (held.lease.pool ≡ giver.old.pool) × (held.chunk.size ≡ giver.old.size) }
    ensures { (giver.new.pool ≡ giver.old.pool) × (giver.new.size ≡ giver.old.size) }
{
    let mut held = held;
    for _ in rt.forever() {
        let start = now(rt);
        held = match giver.give(held) {
            Given::Given { stamp } => {
                seen.given.add(since(rt, start));
                seen.stamps.push(stamp)?;
                return Ok(());
            }
            Given::Missed { held, stamp } => {
                seen.misses = seen.misses.saturating_add(1);
                seen.stamps.push(stamp)?;
                held
            }
            Given::Unread { held } => {
                seen.unread = seen.unread.saturating_add(1);
                thread::yield_now();
                held
            }
        };
    }
    unreachable!()
}

/// Gives back what one drawer sent, as far as it has come.
fn serve<R: Wait + Clock>(
    rt: &R,
    giver: &mut Giver,
    chunks: &mut Chunks,
    seen: &mut Seen,
) -> Result<(), AllocError>
    requires { (chunks.old.key.giver.value.pool ≡ giver.old.pool) × (chunks.old.key.giver.value.size ≡ giver.old.size) }
    ensures giver { (giver.new.pool ≡ giver.old.pool) × (giver.new.size ≡ giver.old.size) }
    ensures chunks { chunks.new.key ≡ chunks.old.key }
{
    for _ in 0..8 {
        let Some(held) = chunks.receive() else {
            break;
        };
        give_back(rt, giver, held, seen)?;
    }
    Ok(())
}

/// Gives back what two drawers sent, as far as it has come.
fn serve_two<R: Wait + Clock>(
    rt: &R,
    giver: &mut Giver,
    links: &mut Links,
    seen: &mut Seen,
) -> Result<(), AllocError>
    requires one { (links.old.one.key.giver.value.pool ≡ giver.old.pool) × (links.old.one.key.giver.value.size ≡ giver.old.size) }
    requires two { (links.old.two.key.giver.value.pool ≡ giver.old.pool) × (links.old.two.key.giver.value.size ≡ giver.old.size) }
    ensures giver { (giver.new.pool ≡ giver.old.pool) × (giver.new.size ≡ giver.old.size) }
    ensures links { (links.new.one.key ≡ links.old.one.key) × (links.new.two.key ≡ links.old.two.key) }
{
    serve(rt, giver, &mut links.one, seen)?;
    serve(rt, giver, &mut links.two, seen)
}

/// Gives back what comes, until all four drawers are done.
fn give_all<R: Wait + Clock>(
    rt: &R,
    alloc: Global,
    job: Gives,
    pace: &Pace,
) -> Result<Seen, AllocError> {
    let Gives {
        mut giver,
        mut front,
        mut back,
    } = job;
    let mut seen = Seen::nothing(alloc);
    for _ in rt.forever() {
        let last = pace.over.load(Ordering::SeqCst) >= 4;
        serve_two(rt, &mut giver, &mut front, &mut seen)?;
        serve_two(rt, &mut giver, &mut back, &mut seen)?;
        if last {
            return Ok(seen);
        }
    }
    unreachable!()
}

/// Does what one of the threads does. One that draws says when it is done.
fn work<R: Wait + Clock>(rt: &R, alloc: Global, job: Job, pace: &Pace) -> Result<Seen, AllocError> {
    match job {
        Job::Draw(draws) => {
            let seen = draw_all(rt, alloc, draws, pace.rests);
            pace.over.fetch_add(1, Ordering::SeqCst);
            seen
        }
        Job::Give(gives) => give_all(rt, alloc, gives, pace),
    }
}

/// A link for the chunks of a drawer.
fn job_of(alloc: Global, giver: &Giver, drawer: Drawer) -> Result<(Draws, Chunks), Memory>
    requires { (drawer.pool ≡ giver.now.pool) × (drawer.size ≡ giver.now.size) }
    ensures { IfOk result (λ made. (made.1.key.giver.value.pool ≡ giver.now.pool) × (made.1.key.giver.value.size ≡ giver.now.size)) }
{
    let key = OfPool {
        giver: Snapshot::of(giver),
    };
    let (sender, receiver) = link::<Held<Lease>, OfPool>(alloc, 8, drawer.left(), &key)?;
    let job = Draws {
        drawer,
        chunks: sender,
    };
    Ok((job, receiver))
}

/// Jobs of two drawers, and the links for their chunks.
fn jobs_of(alloc: Global, giver: &Giver, drawers: Two) -> Result<(Draws, Draws, Links), Memory>
    requires one { (drawers.0.pool ≡ giver.now.pool) × (drawers.0.size ≡ giver.now.size) }
    requires two { (drawers.1.pool ≡ giver.now.pool) × (drawers.1.size ≡ giver.now.size) }
    ensures one { IfOk result (λ made. (made.2.one.key.giver.value.pool ≡ giver.now.pool) × (made.2.one.key.giver.value.size ≡ giver.now.size)) }
    ensures two { IfOk result (λ made. (made.2.two.key.giver.value.pool ≡ giver.now.pool) × (made.2.two.key.giver.value.size ≡ giver.now.size)) }
{
    let (one, first) = job_of(alloc, giver, drawers.0)?;
    let (two, second) = job_of(alloc, giver, drawers.1)?;
    let links = Links {
        one: first,
        two: second,
    };
    Ok((one, two, links))
}

/// Eight chunks of 64 bytes, and four drawers with so many draws each.
fn four_drawers(alloc: Global, allowance: u32) -> Result<(Giver, Two, Two), Memory>
    requires { 4 * allowance ≤ MAX_OPERATIONS }
    ensures pools { IfOk result (λ ends. (ends.1.0.pool ≡ ends.0.pool) × (ends.1.1.pool ≡ ends.0.pool) × (ends.2.0.pool ≡ ends.0.pool) × (ends.2.1.pool ≡ ends.0.pool)) }
    ensures sizes { IfOk result (λ ends. (ends.1.0.size ≡ ends.0.size) × (ends.1.1.size ≡ ends.0.size) × (ends.2.0.size ≡ ends.0.size) × (ends.2.1.size ≡ ends.0.size)) }
{
    let (giver, mut drawers) = ring_of(alloc, 8, &[allowance, allowance, allowance, allowance])?;
    let Some(four) = drawers.pop() else {
        unreachable!()
    };
    let Some(three) = drawers.pop() else {
        unreachable!()
    };
    let Some(two) = drawers.pop() else {
        unreachable!()
    };
    let Some(one) = drawers.pop() else {
        unreachable!()
    };
    Ok((giver, (one, two), (three, four)))
}

/// The jobs of five threads, on eight chunks.
fn five_jobs(alloc: Global, allowance: u32) -> Result<Vec<Job>, Memory>
    requires { 4 * allowance ≤ MAX_OPERATIONS }
{
    let mut jobs = List::with_room(alloc, 5)?;
    let (giver, ahead, behind) = four_drawers(alloc, allowance)?;
    let (one, two, front) = jobs_of(alloc, &giver, ahead)?;
    jobs.push(Job::Draw(one));
    jobs.push(Job::Draw(two));
    let (three, four, back) = jobs_of(alloc, &giver, behind)?;
    jobs.push(Job::Draw(three));
    jobs.push(Job::Draw(four));
    jobs.push(Job::Give(Gives { giver, front, back }));
    Ok(jobs.into_vec())
}

/// Lets four drawers draw so often each, and a giver give until they are done. A drawer rests so long behind a draw that got a chunk.
pub fn work_ring<R: Threads + Clock + Wait + Sync>(
    rt: &R,
    alloc: Global,
    allowance: u32,
    rests: u32,
) -> Result<Seen, Memory>
    requires { 4 * allowance ≤ MAX_OPERATIONS }
{
    let pace = Pace {
        over: AtomicU64::new(0),
        rests,
    };
    let jobs = five_jobs(alloc, allowance)?;
    let told = &pace;
    let parts = thread::map_vec(
        rt,
        jobs,
        &|job: Job| -> Result<Seen, AllocError>
            requires { IsSync R.row }
        { work(rt, alloc, job, told) },
    )?;
    Ok(add_up(alloc, parts)?)
}
