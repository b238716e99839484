//! Links: a full table of one small ring, and two threads with a link that is closed in the middle of the traffic.
ghost use Rattle.std.specs.Prelude.{◌≡◌, ◌<◌, ◌≤◌, [], IfOk, ⊤};
ghost use Rattle.std.specs.Thread.{IsSync};
ghost use Rattle.hs_link.specs.Contents.{sent};

use crate::rows::row;
use hs_base::Memory;
use hs_link::{Fact, Receiver, Rest, Sender, Sent, Tried, close_both, link};
use std::alloc::{AllocError, Global};
use std::sync::Wait;
use std::thread;
use std::thread::{Threads, join};

/// The condition that is true of every item.
struct Anything;

impl<T> Fact<T> for Anything {
    ghost holds = { λ _ _. ⊤ };
}

/// An item that is made of a number and tells it again.
trait Numbered: Drop + Send {
    fn of(alloc: Global, number: u32) -> Result<Self, AllocError>;

    fn number(self) -> u32;
}

impl Numbered for u32 {
    fn of(_alloc: Global, number: u32) -> Result<u32, AllocError> {
        Ok(number)
    }

    fn number(self) -> u32 {
        self
    }
}

impl Numbered for Box<u32> {
    fn of(alloc: Global, number: u32) -> Result<Box<u32>, AllocError> {
        Ok(Box::new(alloc, number)?)
    }

    fn number(self) -> u32 {
        *self
    }
}

/// Flushes until at most `left` items wait.
fn flush_down<T: Numbered, R: Wait>(rt: &R, sender: &mut Sender<T, Anything>, left: u32)
    ensures { sender.new.link ≡ sender.old.link }
{
    for _ in rt.forever() {
        if sender.flush() <= left {
            break;
        }
        thread::yield_now();
    }
}

/// Sends the numbers from 0 below `count`, and then flushes until at most `left` wait.
fn send_numbers<T: Numbered, R: Wait>(
    rt: &R,
    alloc: Global,
    mut sender: Sender<T, Anything>,
    count: u32,
    left: u32,
) -> Result<Sender<T, Anything>, AllocError>
    requires { (sent sender ≡ []) × (sender.room ≡ count) }
    ensures { IfOk result (λ end. end.link ≡ sender.link) }
{
    for number in 0..count {
        sender.send(T::of(alloc, number)?);
    }
    flush_down(rt, &mut sender, left);
    Ok(sender)
}

/// Waits for an item, and adds its number.
fn receive_one<T: Numbered, R: Wait>(
    rt: &R,
    receiver: &mut Receiver<T, Anything>,
    numbers: &mut Vec<u32>,
) -> Result<(), AllocError>
    ensures { receiver.new.link ≡ receiver.old.link }
{
    for _ in rt.forever() {
        if let Some(item) = receiver.receive() {
            return Ok(numbers.push(item.number())?);
        }
        thread::yield_now();
    }
    Ok(())
}

/// Receives so many items, and gives their numbers.
fn receive_numbers<T: Numbered, R: Wait>(
    rt: &R,
    alloc: Global,
    mut receiver: Receiver<T, Anything>,
    count: u32,
) -> Result<(Receiver<T, Anything>, Vec<u32>), AllocError>
    ensures { IfOk result (λ r. r.0.link ≡ receiver.link) }
{
    let mut numbers = Vec::with_capacity(alloc, count as usize)?;
    for _ in 0..count {
        receive_one(rt, &mut receiver, &mut numbers)?;
    }
    Ok((receiver, numbers))
}

/// Adds the numbers of what is left to those that were received.
fn add_rest<T: Numbered>(
    mut rest: Rest<T, Anything>,
    numbers: &mut Vec<u32>,
) -> Result<(), AllocError> {
    for _ in 0..rest.left() {
        if let Some(item) = rest.next() {
            numbers.push(item.number())?;
        }
    }
    Ok(())
}

/// Closes a link. Gives the numbers that were received, then those of the rest, and how many were left.
fn close_link<T: Numbered>(
    sender: Sender<T, Anything>,
    receiver: Receiver<T, Anything>,
    mut numbers: Vec<u32>,
) -> Result<(Vec<u32>, u64), AllocError>
    requires { sender.link ≡ receiver.link }
{
    let rest = close_both(sender, receiver);
    let left = rest.left();
    add_rest(rest, &mut numbers)?;
    Ok((numbers, left))
}

/// Sends the numbers below `count` from one thread to another, which stops after `stop` of them, and closes the link.
/// Gives the numbers that were received, then those of the rest, and how many were left.
fn exchange<T: Numbered, R: Threads + Wait + Sync>(
    rt: &R,
    alloc: Global,
    capacity: u32,
    count: u32,
    stop: u32,
) -> Result<(Vec<u32>, u64), Memory>
    requires { (0 < capacity) × (stop ≤ count) }
{
    let (sender, receiver) = link::<T, Anything>(alloc, capacity, count, &Anything)?;
    let left = count - stop;
    let (sender, received) = join(
        rt,
        move || -> Result<Sender<T, Anything>, AllocError>
            requires { IsSync R.row × (sent sender ≡ []) × (sender.room ≡ count) }
            ensures { IfOk result (λ end. end.link ≡ sender.link) }
        { send_numbers(rt, alloc, sender, count, left) },
        move || -> Result<(Receiver<T, Anything>, Vec<u32>), AllocError>
            requires { IsSync R.row }
            ensures { IfOk result (λ r. r.0.link ≡ receiver.link) }
        { receive_numbers(rt, alloc, receiver, stop) },
    );
    let sender = sender?;
    let (receiver, numbers) = received?;
    Ok(close_link(sender, receiver, numbers)?)
}

/// What two sends, two receives, a send and a receive answer.
type Told = (Sent, Sent, Option<u8>, Option<u8>, Sent, Option<u8>);

/// Sends a and b, receives twice, sends c and receives.
fn tell(sender: &mut Sender<u8, Anything>, receiver: &mut Receiver<u8, Anything>) -> Told
    requires { (sent sender.old ≡ []) × (sender.old.room ≡ 3) }
    ensures { (sender.new.link ≡ sender.old.link) × (receiver.new.link ≡ receiver.old.link) }
{
    (
        sender.send(b'a'),
        sender.send(b'b'),
        receiver.receive(),
        receiver.receive(),
        sender.send(b'c'),
        receiver.receive(),
    )
}

/// The next two items that are left, between how many there are before and after.
fn tell_rest(mut rest: Rest<u8, Anything>) -> (u64, Option<u8>, Option<u8>, u64) {
    (rest.left(), rest.next(), rest.next(), rest.left())
}

/// Whether the first two items went by the ring one after another, and the third waited.
fn are_in_order(told: Told) -> bool {
    matches!(
        told,
        (
            Sent::Through,
            Sent::Kept,
            Some(b'a'),
            None,
            Sent::Kept,
            Some(b'b')
        )
    )
}

fn a_ring_of_one_entry_keeps_the_order(alloc: Global) -> Result<bool, Memory> {
    let (mut sender, mut receiver) = link::<u8, Anything>(alloc, 1, 3, &Anything)?;
    let told = tell(&mut sender, &mut receiver);
    let left = tell_rest(close_both(sender, receiver));
    Ok(are_in_order(told) && left == (1, Some(b'c'), None, 0))
}

/// Whether these are the numbers below `count`, in their order.
fn are_all(numbers: &[u32], count: u32) -> bool {
    let mut right = numbers.len() == count as usize;
    for (place, number) in numbers.iter().enumerate() {
        right &= *number as usize == place;
    }
    right
}

fn numbers_arrive_in_order_or_are_left<R: Threads + Wait + Sync>(
    rt: &R,
    alloc: Global,
) -> Result<bool, Memory> {
    let (numbers, left) = exchange::<u32, R>(rt, alloc, 8, 10_000, 4_000)?;
    Ok(left == 6_000 && are_all(&numbers, 10_000))
}

fn no_box_is_lost_or_doubled<R: Threads + Wait + Sync>(
    rt: &R,
    alloc: Global,
) -> Result<bool, Memory> {
    let (numbers, left) = exchange::<Box<u32>, R>(rt, alloc, 3, 1_000, 700)?;
    Ok(left == 300 && are_all(&numbers, 1_000))
}

/// The ring takes the first item and the outbox the second; the third comes back.
fn fills(sender: &mut Sender<u8, Anything>) -> bool
    ensures { sender.new.link ≡ sender.old.link }
{
    let through = matches!(sender.try_send(b'a'), Tried::Through);
    let kept = matches!(sender.try_send(b'b'), Tried::Kept);
    let full = matches!(sender.try_send(b'c'), Tried::Full(b'c'));
    through && kept && full && sender.places() == 0
}

/// The first item is received; then the second goes into the ring, and its place takes the next.
fn takes_again(sender: &mut Sender<u8, Anything>, receiver: &mut Receiver<u8, Anything>) -> bool
    ensures { (sender.new.link ≡ sender.old.link) × (receiver.new.link ≡ receiver.old.link) }
{
    let first = receiver.receive();
    let kept = matches!(sender.try_send(b'd'), Tried::Kept);
    let second = receiver.receive();
    first == Some(b'a') && kept && second == Some(b'b')
}

fn a_full_outbox_gives_the_item_back(alloc: Global) -> Result<bool, Memory> {
    let (mut sender, mut receiver) = link::<u8, Anything>(alloc, 1, 1, &Anything)?;
    let fills = fills(&mut sender);
    let again = takes_again(&mut sender, &mut receiver);
    let left = tell_rest(close_both(sender, receiver));
    Ok(fills && again && left == (1, Some(b'd'), None, 0))
}

/// A link whose outbox has one place takes far more items than that, one after another.
fn one_place_is_enough(alloc: Global) -> Result<bool, Memory> {
    let (mut sender, mut receiver) = link::<u32, Anything>(alloc, 64, 1, &Anything)?;
    let mut right = sender.places() == 1;
    for number in 0..1_000_000 {
        right &= matches!(sender.try_send(number), Tried::Through);
        right &= receiver.receive() == Some(number);
    }
    Ok(right && sender.places() == 1)
}

/// A link without a place takes nothing.
fn no_place_takes_nothing(alloc: Global) -> Result<bool, Memory> {
    let (mut sender, _receiver) = link::<u8, Anything>(alloc, 1, 0, &Anything)?;
    Ok(matches!(sender.try_send(b'a'), Tried::Full(b'a')))
}

/// A link of one entry is closed unused.
fn close_least(alloc: Global) -> Result<bool, Memory> {
    let (sender, receiver) = link::<u32, Anything>(alloc, 1, 0, &Anything)?;
    let mut rest = close_both(sender, receiver);
    Ok(rest.left() == 0 && rest.next().is_none())
}

/// The first of 262,144 numbers is taken of a link of 64 entries, and the others are left.
fn close_great<R: Wait>(rt: &R, alloc: Global) -> Result<bool, Memory> {
    let (sender, mut receiver) = link::<u32, Anything>(alloc, 64, 262_144, &Anything)?;
    let sender = send_numbers(rt, alloc, sender, 262_144, 262_080)?;
    let first = receiver.receive();
    let left = close_both(sender, receiver).left();
    Ok(first == Some(0) && left == 262_143)
}

#[test]
fn links(rt: HostRuntime) {
    row(
        &rt,
        "one entry",
        a_ring_of_one_entry_keeps_the_order(rt.alloc()),
    );
    row(
        &rt,
        "a full outbox",
        a_full_outbox_gives_the_item_back(rt.alloc()),
    );
    row(&rt, "one place", one_place_is_enough(rt.alloc()));
    row(&rt, "no place", no_place_takes_nothing(rt.alloc()));
    row(
        &rt,
        "numbers",
        numbers_arrive_in_order_or_are_left(&rt, rt.alloc()),
    );
    row(&rt, "boxes", no_box_is_lost_or_doubled(&rt, rt.alloc()));
    row(&rt, "the least", close_least(rt.alloc()));
    row(&rt, "the greatest", close_great(&rt, rt.alloc()));
}
