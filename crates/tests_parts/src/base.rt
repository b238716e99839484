//! The ground: ranks, and lists, notes and streams in memory of great sizes and of none. How nodes, laterals and lists are read and changed is
//! proved, and each outcome in `examples/` and `cases/` rests on it.

ghost use Rattle.std.specs.Prelude.{◌≡◌, ◌≤◌, length};

use crate::rows::row;
use hs_base::limits::MAX_INPUT;
use hs_base::{
    Failed, List, Memory, MemorySink, MemorySource, Notes, Sink, Source, TraceId, rank_of,
};
use std::alloc::Global;

/// Traces and the first words of SplitMix64 from their seeds. The last id is wide: its halves' exclusive-or is
/// the second one's.
const RANKS: [(u128, u64); 5] = [
    (0, 0xe220_a839_7b1d_cdaf),
    (0x9e37_79b9_7f4a_7c15, 0x6e78_9e6a_a1b9_65f4),
    (0x3c6e_f372_fe94_f82a, 0x06c4_5d18_8009_454f),
    (0xdaa6_6d2c_7ddf_743f, 0xf88b_b8a8_724c_81ec),
    (
        0x0000_0000_0000_0001_9e37_79b9_7f4a_7c14,
        0x6e78_9e6a_a1b9_65f4,
    ),
];

/// Whether each trace has its word.
fn ranks() -> bool {
    let mut right = true;
    for (trace, word) in RANKS {
        right &= rank_of(TraceId(trace)).word == word;
    }
    right
}

/// How many items a long list has here.
const LONG: u32 = 1_000_000;

/// Each item is appended for itself.
fn append_all(list: &mut List<u64>) -> Result<(), Memory> {
    for item in 0..LONG {
        list.append(u64::from(item))?;
    }
    Ok(())
}

/// One by one, from no room on.
fn items_are_appended(alloc: Global) -> Result<bool, Memory> {
    let mut list = List::new(alloc);
    append_all(&mut list)?;
    Ok(list.len() == LONG as usize && list.get(999_999).copied() == Some(999_999))
}

/// Nothing, these items, and these once more where room was kept for them.
fn append_slices(list: &mut List<u64>, more: &[u64]) -> Result<(), Memory>
    requires { length more.now ≤ LONG }
{
    list.append_slice(&[])?;
    list.append_slice(more)?;
    list.reserve(LONG as usize)?;
    list.push_slice(more);
    Ok(())
}

fn slices_are_appended(alloc: Global) -> Result<bool, Memory> {
    let more = vec![in alloc; 7u64; LONG as usize]?;
    let mut list = List::new(alloc);
    append_slices(&mut list, &more)?;
    Ok(list.len() == 2_000_000)
}

/// A list of no room takes nothing, and has nothing.
fn nothing_is_appended(alloc: Global) -> Result<bool, Memory> {
    let mut empty = List::<u64>::with_room(alloc, 0)?;
    empty.reserve(0)?;
    empty.push_slice(&[]);
    Ok(empty.is_empty() && empty.pop().is_none())
}

/// Notes each number below `LONG`.
fn note_all(notes: &mut Notes<u64>) -> Result<(), Memory>
    ensures { notes.new.keeps ≡ notes.old.keeps }
{
    for item in 0..LONG {
        notes.append(u64::from(item))?;
    }
    Ok(())
}

/// Whether so many items were kept, the last of which is this one.
fn are_kept(list: Option<&List<u64>>, count: usize, last: u64) -> bool {
    match list {
        Some(list) => list.len() == count && list.as_slice().last() == Some(&last),
        None => false,
    }
}

/// Notes that are kept can be had, from no room on.
fn notes_are_kept(alloc: Global) -> Result<bool, Memory> {
    let mut notes = Notes::new(alloc);
    note_all(&mut notes)?;
    let while_noted = are_kept(notes.list(), LONG as usize, 999_999);
    let list = notes.into_list();
    Ok(while_noted && are_kept(list.as_ref(), LONG as usize, 999_999))
}

/// Notes for which room was taken need no more.
fn notes_have_room(alloc: Global) -> Result<bool, Memory> {
    let mut notes = Notes::with_room(alloc, 2)?;
    notes.push(7u64);
    notes.push(8);
    Ok(are_kept(notes.list(), 2, 8))
}

/// A bare one takes whatever is noted, and has nothing.
fn bare_notes_have_nothing() -> Result<bool, Memory> {
    let mut notes = Notes::bare();
    note_all(&mut notes)?;
    notes.reserve(usize::MAX)?;
    notes.push(7);
    Ok(notes.list().is_none() && notes.into_list().is_none())
}

/// Reads the source to its end, and says how many bytes came.
fn count_read(source: &mut MemorySource) -> Result<usize, Failed> {
    let mut piece = [0; 4096];
    let mut count = 0usize;
    for _call in 0..1_000_000u32 {
        let read = source.read(&mut piece)?;
        if read == 0 {
            break;
        }
        count = count.saturating_add(read);
    }
    Ok(count)
}

/// A source of so many bytes is read whole.
fn is_read(alloc: Global, len: usize) -> Result<bool, Memory> {
    let bytes = vec![in alloc; 7; len]?;
    let mut source = MemorySource::new(alloc, &bytes, 1 << 20, &[])?;
    Ok(count_read(&mut source) == Ok(len))
}

/// A sink of 16 MiB takes as many bytes, and no byte more.
fn the_most_is_written(alloc: Global) -> Result<bool, Memory> {
    let bytes = vec![in alloc; 7; MAX_INPUT]?;
    let mut sink = MemorySink::new(alloc, MAX_INPUT, MAX_INPUT, &[])?;
    let is_full = sink.write(&bytes) == Ok(MAX_INPUT) && sink.write(&[7]) == Err(Failed);
    Ok(is_full && sink.bytes() == bytes.as_slice())
}

/// A sink without room takes no byte.
fn nothing_is_written(alloc: Global) -> Result<bool, Memory> {
    let mut sink = MemorySink::new(alloc, 0, 1, &[])?;
    Ok(sink.write(&[7]) == Err(Failed) && sink.bytes().is_empty())
}

#[test]
fn ranks_and_lists(rt: HostRuntime) {
    row(&rt, "ranks", Ok(ranks()));
    row(&rt, "items are appended", items_are_appended(rt.alloc()));
    row(&rt, "slices are appended", slices_are_appended(rt.alloc()));
    row(&rt, "nothing is appended", nothing_is_appended(rt.alloc()));
}

#[test]
fn notes(rt: HostRuntime) {
    row(&rt, "notes are kept", notes_are_kept(rt.alloc()));
    row(&rt, "notes have room", notes_have_room(rt.alloc()));
    row(&rt, "bare notes have nothing", bare_notes_have_nothing());
}

#[test]
fn streams_in_memory(rt: HostRuntime) {
    row(&rt, "16 MiB are read", is_read(rt.alloc(), MAX_INPUT));
    row(&rt, "nothing is read", is_read(rt.alloc(), 0));
    row(&rt, "16 MiB are written", the_most_is_written(rt.alloc()));
    row(&rt, "nothing is written", nothing_is_written(rt.alloc()));
}
