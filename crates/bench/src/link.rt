//! Items of 8 and of 64 bytes on their way from one thread to another: through a link, and through the kit's `rtrb` and
//! `crossbeam_queue`, each with 64 entries.

ghost use Rattle.std.specs.Prelude.{◌≡◌, [], ⊤};
ghost use Rattle.std.specs.Thread.{IsSync};
ghost use Rattle.hs_link.specs.Contents.{sent};

use anyhow::{Context, Result};
use crossbeam_queue::ArrayQueue;
use hs_link::{Fact, Receiver, Sender, Sent, link};
use rtrb::{Consumer, Producer, RingBuffer};
use std::alloc::Global;
use std::hint;
use std::rt::Clock;
use std::sync::Wait;
use std::thread::{Threads, join};
use std::time::Instant;

const CAPACITY: u32 = 64;

/// The condition that is true of every item.
pub(crate) struct Anything;

impl<T> Fact<T> for Anything {
    ghost holds = { λ _ _. ⊤ };
}

/// An item of 64 bytes.
#[derive(Clone, Copy, Drop)]
struct Wide {
    words: [u64; 8],
}

/// What the two threads hand over.
trait Item: Copy + Drop + Send {
    fn of(number: u64) -> Self;

    fn number(&self) -> u64;
}

impl Item for u64 {
    fn of(number: u64) -> u64 {
        number
    }

    fn number(&self) -> u64 {
        *self
    }
}

impl Item for Wide {
    fn of(number: u64) -> Wide {
        Wide { words: [number; 8] }
    }

    fn number(&self) -> u64 {
        self.words[7]
    }
}

/// Sends so many items, each as soon as there is room in the ring.
fn send_all<T: Item, R: Wait>(rt: &R, mut sender: Sender<T, Anything>, items: u32)
    requires { (sent sender ≡ []) × (sender.room ≡ items) }
{
    for number in 0..items {
        if sender.send(T::of(u64::from(number))) == Sent::Kept {
            flush_all(rt, &mut sender);
        }
    }
}

/// Flushes until nothing waits.
fn flush_all<T: Item, R: Wait>(rt: &R, sender: &mut Sender<T, Anything>)
    ensures { (sent sender.new ≡ sent sender.old) × (sender.new.room ≡ sender.old.room) }
{
    for _ in rt.forever() {
        if sender.flush() == 0 {
            return;
        }
        hint::spin_loop();
    }
    unreachable!()
}

/// Receives so many items, and adds up their numbers.
fn receive_all<T: Item, R: Wait>(rt: &R, mut receiver: Receiver<T, Anything>, items: u32) -> u64 {
    let mut sum = 0u64;
    for _item in 0..items {
        for _ in rt.forever() {
            if let Some(item) = receiver.receive() {
                sum = sum.wrapping_add(item.number());
                break;
            }
            hint::spin_loop();
        }
    }
    sum
}

/// The same through `rtrb`.
fn push_all<T: Item, R: Wait>(rt: &R, mut producer: Producer<T>, items: u32) {
    for number in 0..items {
        let item = T::of(u64::from(number));
        for _ in rt.forever() {
            if producer.push(item).is_ok() {
                break;
            }
            hint::spin_loop();
        }
    }
}

fn pop_all<T: Item, R: Wait>(rt: &R, mut consumer: Consumer<T>, items: u32) -> u64 {
    let mut sum = 0u64;
    for _item in 0..items {
        for _ in rt.forever() {
            if let Ok(item) = consumer.pop() {
                sum = sum.wrapping_add(item.number());
                break;
            }
            hint::spin_loop();
        }
    }
    sum
}

/// The same through `crossbeam_queue`.
fn queue_all<T: Item, R: Wait>(rt: &R, queue: &ArrayQueue<T>, items: u32) {
    for number in 0..items {
        let item = T::of(u64::from(number));
        for _ in rt.forever() {
            if queue.push(rt, item).is_ok() {
                break;
            }
            hint::spin_loop();
        }
    }
}

fn unqueue_all<T: Item, R: Wait>(rt: &R, queue: &ArrayQueue<T>, items: u32) -> u64 {
    let mut sum = 0u64;
    for _item in 0..items {
        for _ in rt.forever() {
            if let Some(item) = queue.pop(rt) {
                sum = sum.wrapping_add(item.number());
                break;
            }
            hint::spin_loop();
        }
    }
    sum
}

/// Prints the nanoseconds of an item, with the sum of the numbers that came.
fn report<R: Print + Clock>(
    rt: &R,
    name: &str,
    start: Instant,
    items: u32,
    sum: u64,
) -> Result<()> {
    let tenths = start.elapsed(rt)?.as_nanos() * 10 / u128::from(items.max(1));
    println!(rt;
        "{name}: {}.{} ns an item, sum {sum}",
        tenths / 10,
        tenths % 10
    )?;
    Ok(())
}

/// Times so many items through each.
fn time_each<T: Item, R: Print + Clock + Threads + Wait + Sync>(
    rt: &R,
    alloc: Global,
    name: &str,
    items: u32,
) -> Result<()> {
    println!(rt; "{name}")?;
    let (sender, receiver) = link::<T, Anything>(alloc, CAPACITY, items, &Anything)
        .ok()
        .context("memory")?;
    let start = Instant::now(rt)?;
    let ((), sum) = join(
        rt,
        move || -> ()
            requires { IsSync R.row × (sent sender ≡ []) × (sender.room ≡ items) }
        { send_all(rt, sender, items) },
        move || -> u64
            requires { IsSync R.row }
        { receive_all(rt, receiver, items) },
    );
    report(rt, "link", start, items, sum)?;
    let (producer, consumer) = RingBuffer::<T>::new(alloc, CAPACITY as usize)?;
    let start = Instant::now(rt)?;
    let ((), sum) = join(
        rt,
        move || -> ()
            requires { IsSync R.row }
        { push_all(rt, producer, items) },
        move || -> u64
            requires { IsSync R.row }
        { pop_all(rt, consumer, items) },
    );
    report(rt, "rtrb", start, items, sum)?;
    let queue: ArrayQueue<T> = ArrayQueue::new(alloc, CAPACITY as usize)?;
    let start = Instant::now(rt)?;
    let ((), sum) = join(
        rt,
        || -> ()
            requires { IsSync R.row }
        { queue_all(rt, &queue, items) },
        || -> u64
            requires { IsSync R.row }
        { unqueue_all(rt, &queue, items) },
    );
    report(rt, "crossbeam_queue", start, items, sum)
}

/// Times so many items of 8 bytes and of 64 bytes through each.
pub(crate) fn run<R: Print + Clock + AllocGlobal + Threads + Wait + Sync>(
    rt: &R,
    items: u32,
) -> Result<()> {
    time_each::<u64, R>(rt, rt.alloc(), "8 bytes", items)?;
    time_each::<Wide, R>(rt, rt.alloc(), "64 bytes", items)
}
