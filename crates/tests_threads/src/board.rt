//! What readers see: the first totals, what was published, and what they are told of.

ghost use Rattle.std.specs.Prelude.{◌≡◌, ◌+◌, ◌≤◌, OnOk};
ghost use Rattle.tests_threads.specs.Shown.{EndsBelow};

use crate::rows::row;
use hs_base::limits::MAX_OPERATIONS;
use hs_base::{List, Memory};
use hs_board::{BoardReader, BoardWriter, MAX_READERS, Progress, board};
use std::alloc::Global;
use std::sync::Wait;

/// What a row looks at.
#[derive(Drop)]
struct Seen {
    /// The rounds that the last reader saw before anything was published.
    before: u32,
    /// Those that it saw behind the last publish, by a look.
    looked: u32,
    /// Those that the first reader, which had not looked, saw after it was told.
    told: u32,
    /// How many publishes answered Ok.
    published: u32,
}

/// Totals that are told apart by their rounds.
fn after(rounds: u32) -> Progress
    ensures { result.rounds ≡ rounds }
{
    Progress {
        rounds,
        operations: 2 * (rounds % 1000),
        records: 0,
        nulls: 0,
        taken: 0,
        given: 0,
    }
}

/// Publishes the totals after this round.
fn publish_next<R: Wait>(rt: &R, writer: &mut BoardWriter, round: u32) -> bool
    requires { EndsBelow writer.old round }
    ensures { EndsBelow writer.new (round + 1) }
{
    writer.publish(rt, after(round)).is_ok()
}

/// Publishes the totals after each round from 1 to this one; answers how many publishes were Ok.
fn publish_all<R: Wait>(rt: &R, writer: &mut BoardWriter, rounds: u32) -> u32
    requires fresh { EndsBelow writer.old 1 }
    requires few { rounds ≤ MAX_OPERATIONS }
{
    let mut published = 0u32;
    for round in 1..rounds + 1 {
        if publish_next(rt, writer, round) {
            published += 1;
        }
    }
    published
}

/// The rounds that the first reader sees, once it was told; it did not look before.
fn told(writer: &mut BoardWriter, readers: &mut List<BoardReader>) -> u32 {
    match readers.as_mut_slice().first_mut() {
        Some(reader) => {
            writer.tell(reader);
            reader.look().rounds
        }
        None => 0,
    }
}

/// The rounds that the last reader sees.
fn looked(readers: &mut List<BoardReader>) -> u32 {
    match readers.as_mut_slice().last_mut() {
        Some(reader) => reader.look().rounds,
        None => MAX_OPERATIONS + 1,
    }
}

/// Whether the last reader, none of whose looks was handed back, is handed back a look now, and still answers these rounds.
fn is_over(readers: &mut List<BoardReader>, rounds: u32) -> bool {
    match readers.as_mut_slice().last_mut() {
        Some(reader) => {
            !reader.has_missed() && reader.look().rounds == rounds && reader.has_missed()
        }
        None => false,
    }
}

/// What is seen of a board with so many readers, of these rounds.
fn watch<R: Wait>(
    rt: &R,
    writer: &mut BoardWriter,
    readers: &mut List<BoardReader>,
    rounds: u32,
) -> Seen
    requires fresh { EndsBelow writer.old 1 }
    requires few { rounds ≤ MAX_OPERATIONS }
{
    let before = looked(readers);
    let published = publish_all(rt, writer, rounds);
    let looked = looked(readers);
    let told = told(writer, readers);
    Seen {
        before,
        looked,
        told,
        published,
    }
}

/// Makes a board, shows these rounds on it, and closes it; answers what was seen, and whether the close was Ok and the board is over then.
fn play<R: Wait>(rt: &R, alloc: Global, count: u32, rounds: u32) -> Result<(Seen, bool), Memory>
    requires many { (1 ≤ count) × (count ≤ MAX_READERS) }
    requires few { rounds ≤ MAX_OPERATIONS }
{
    let (mut writer, mut readers) = board(rt, alloc, count)?;
    let seen = watch(rt, &mut writer, &mut readers, rounds);
    let closed = writer.close(rt, readers.as_mut_slice()).is_ok();
    Ok((seen, closed && is_over(&mut readers, rounds)))
}

/// Whether all readers saw nothing before, all rounds behind the last publish, and the close was Ok and ended the board.
fn all_seen<R: Wait>(rt: &R, alloc: Global, count: u32, rounds: u32) -> bool
    requires many { (1 ≤ count) × (count ≤ MAX_READERS) }
    requires few { rounds ≤ MAX_OPERATIONS }
{
    match play(rt, alloc, count, rounds) {
        Ok((seen, closed)) => {
            closed
                && seen.before == 0
                && seen.published == rounds
                && seen.looked == rounds
                && seen.told == rounds
        }
        Err(_) => false,
    }
}

#[test]
fn boards(rt: HostRuntime) {
    row(&rt, "no round", Ok(all_seen(&rt, rt.alloc(), 1, 0)));
    row(&rt, "three rounds", Ok(all_seen(&rt, rt.alloc(), 2, 3)));
    row(
        &rt,
        "sixteen readers",
        Ok(all_seen(&rt, rt.alloc(), MAX_READERS, 20000)),
    );
    row(
        &rt,
        "all rounds",
        Ok(all_seen(&rt, rt.alloc(), 2, MAX_OPERATIONS)),
    );
}
