//! The example of a page, bytes that are no page, and pages of the greatest size. Other pages are shown by `cases/pages` and `examples/`.

ghost use Rattle.std.specs.Prelude.{IsSome};

use crate::rows::row;
use hs_base::limits::{MAX_BUFFERS, MAX_SIZE, MIN_SIZE};
use hs_base::{ClientId, Memory, TraceId};
use hs_words::{Added, Chunk, Header, PageFault, PrefixFault, Stock, read_page, read_prefix};
use std::alloc::Global;

/// Trace 1, node 0, client 0, page 0, first record 0; one piece at moment 5 with the payload aa.
const EXAMPLE: [u8; 43] = [
    0, 0, 0, 0, 0, 0, 0, 0, 0, 0, 0, 0, 0, 0, 0, 1, 0, 0, 0, 0, 0, 0, 0, 0, 0, 0, 0, 0, 0, 1, 0,
    35, 0, 1, 0, 0, 0, 0, 0, 0, 0, 5, 0xaa,
];

/// The same page before a piece was added.
const EMPTY: [u8; 32] = [
    0, 0, 0, 0, 0, 0, 0, 0, 0, 0, 0, 0, 0, 0, 0, 1, 0, 0, 0, 0, 0, 0, 0, 0, 0, 0, 0, 0, 0, 0, 0, 24,
];

fn example_header() -> Header {
    Header {
        trace: TraceId(1),
        client: ClientId { node: 0, number: 0 },
        page: 0,
        first: 0,
    }
}

fn one_chunk(alloc: Global) -> Result<Chunk, Memory> {
    let mut chunks = Stock::make(alloc, 1, MIN_SIZE)?;
    chunks.pop().ok_or(Memory)
}

/// Starts a page with the example's header, and adds the example's piece. Answers whether the page has the bytes of the empty one
/// first, and then the example's.
fn writes_example(mut chunk: Chunk) -> bool {
    chunk.clear();
    chunk.start(example_header());
    chunk.bytes() == EMPTY.as_slice()
        && chunk.add(5, &[0xaa]) == Added::Added
        && chunk.bytes() == EXAMPLE.as_slice()
        && chunk.used() == 35
}

fn the_example_is_written(alloc: Global) -> Result<bool, Memory> {
    Ok(writes_example(one_chunk(alloc)?))
}

fn the_example_is_read(alloc: Global) -> bool {
    let Ok(page) = read_page(alloc, &EXAMPLE) else {
        return false;
    };
    let mut right = page.header == example_header() && page.points.len() == 1;
    for point in page.points.as_slice() {
        right &= point.moment == 5 && point.payload.as_slice() == [0xaa].as_slice();
    }
    right
}

/// The example page with one byte changed and cut to a length, and what reading it answers.
const NO_PAGES: [(usize, usize, u8, PageFault); 7] = [
    (31, 0, 0, PageFault::Short),
    (42, 0, 0, PageFault::Used),
    (43, 31, 36, PageFault::Used),
    (43, 29, 2, PageFault::Count),
    (43, 29, 0, PageFault::Count),
    (43, 33, 2, PageFault::Count),
    (43, 33, 0, PageFault::Count),
];

fn fault_of(
    alloc: Global,
    mut page: [u8; 43],
    len: usize,
    place: usize,
    byte: u8,
) -> Option<PageFault> {
    if let Some(changed) = page.get_mut(place) {
        *changed = byte;
    }
    read_page(alloc, page.get(..len)?).err()
}

/// Whether each is refused for its reason.
fn are_no_pages(alloc: Global) -> bool {
    let mut right = true;
    for (len, place, byte, want) in NO_PAGES {
        right &= fault_of(alloc, EXAMPLE, len, place, byte) == Some(want);
    }
    right
}

/// How many points the bytes show by their counts, or why they show no page.
fn shown(alloc: Global, bytes: &[u8]) -> Result<usize, PrefixFault> {
    match read_prefix(alloc, bytes) {
        Ok(page) => Ok(page.points.len()),
        Err(fault) => Err(fault),
    }
}

/// The example page with one byte changed and cut to a length, and why it then shows no page.
const NOT_SHOWN: [(usize, usize, u8, PrefixFault); 8] = [
    (31, 0, 0, PrefixFault::Short),
    (43, 31, 0, PrefixFault::Empty),
    (42, 0, 0, PrefixFault::Torn),
    (43, 31, 36, PrefixFault::Torn),
    (43, 31, 24, PrefixFault::Torn),
    (43, 31, 23, PrefixFault::Torn),
    (43, 29, 2, PrefixFault::Torn),
    (43, 29, 0, PrefixFault::Torn),
];

fn shown_of(
    alloc: Global,
    mut page: [u8; 43],
    len: usize,
    place: usize,
    byte: u8,
) -> Option<PrefixFault> {
    if let Some(changed) = page.get_mut(place) {
        *changed = byte;
    }
    shown(alloc, page.get(..len)?).err()
}

/// Whether each shows no page for its reason.
fn are_not_shown(alloc: Global) -> bool {
    let mut right = true;
    for (len, place, byte, want) in NOT_SHOWN {
        right &= shown_of(alloc, EXAMPLE, len, place, byte) == Some(want);
    }
    right
}

/// Whether the memory of a chunk shows nothing, a page without pieces, with one, and nothing again.
fn shows_each_step(alloc: Global, mut chunk: Chunk) -> bool {
    let mut right = shown(alloc, chunk.memory()) == Err(PrefixFault::Empty);
    chunk.clear();
    chunk.start(example_header());
    right &= shown(alloc, chunk.memory()) == Ok(0);
    chunk.add(5, &[0xaa]);
    right &= shown(alloc, chunk.memory()) == Ok(1);
    chunk.clear();
    right && shown(alloc, chunk.memory()) == Err(PrefixFault::Empty)
}

fn each_step_is_shown(alloc: Global) -> Result<bool, Memory> {
    Ok(shows_each_step(alloc, one_chunk(alloc)?))
}

/// The first so many of these 34 bytes are written and read again.
const PAYLOAD: [u8; 34] = [
    1, 2, 3, 4, 5, 6, 7, 8, 9, 10, 11, 12, 13, 14, 15, 16, 17, 18, 19, 20, 21, 22, 23, 24, 25, 26,
    27, 28, 29, 30, 31, 32, 33, 34,
];

/// Whether a payload is read again from a page that it was written into.
fn is_copied(alloc: Global, mut chunk: Chunk, payload: &[u8]) -> bool {
    chunk.clear();
    chunk.start(example_header());
    chunk.add(7, payload);
    has_pieces(alloc, chunk.bytes(), payload, 1)
}

/// Payloads of the lengths at which the way of copying changes, and of those beside them.
fn short_payloads(alloc: Global) -> Result<bool, Memory> {
    let mut right = true;
    for len in [0usize, 1, 15, 16, 17, 31, 32, 33] {
        let mut chunks = Stock::make(alloc, 1, 128)?;
        let chunk = chunks.pop().ok_or(Memory)?;
        right &= is_copied(alloc, chunk, PAYLOAD.get(..len).unwrap_or(&[]));
    }
    Ok(right)
}

/// Adds pieces of this payload until there is no room, and says how many.
fn fill(chunk: &mut Chunk, payload: &[u8]) -> u32
    requires { IsSome chunk.old.page }
    ensures { IsSome chunk.new.page }
{
    let mut count = 0u32;
    for moment in 0..4000u64 {
        match chunk.add(moment, payload) {
            Added::Added => count = count.saturating_add(1),
            Added::NoRoom => break,
        }
    }
    count
}

/// Whether the bytes are a page of so many pieces, each with this payload.
fn has_pieces(alloc: Global, bytes: &[u8], payload: &[u8], count: u32) -> bool {
    let Ok(page) = read_page(alloc, bytes) else {
        return false;
    };
    let mut right = page.points.len() == count as usize;
    for point in page.points.as_slice() {
        right &= point.payload.as_slice() == payload;
    }
    right
}

/// Fills a page with pieces of this payload. Answers whether there are so many, and all of them are read.
fn is_filled(alloc: Global, mut chunk: Chunk, payload: &[u8], count: u32) -> bool {
    chunk.clear();
    chunk.start(example_header());
    fill(&mut chunk, payload) == count && has_pieces(alloc, chunk.bytes(), payload, count)
}

/// The last of as many chunks of the greatest size as may be.
fn a_greatest(alloc: Global) -> Result<Chunk, Memory> {
    let mut chunks = Stock::make(alloc, MAX_BUFFERS, MAX_SIZE)?;
    chunks.pop().ok_or(Memory)
}

/// As many pieces as may stand on a page.
fn most_pieces(alloc: Global) -> Result<bool, Memory> {
    Ok(is_filled(alloc, a_greatest(alloc)?, &[], 3274))
}

/// The longest piece.
fn the_longest_piece(alloc: Global) -> Result<bool, Memory> {
    let longest = vec![in alloc; 9; 32_734]?;
    Ok(is_filled(alloc, a_greatest(alloc)?, &longest, 1))
}

#[test]
fn pages(rt: HostRuntime) {
    row(
        &rt,
        "the example is written",
        the_example_is_written(rt.alloc()),
    );
    row(
        &rt,
        "the example is read",
        Ok(the_example_is_read(rt.alloc())),
    );
    row(&rt, "no pages", Ok(are_no_pages(rt.alloc())));
    row(&rt, "not shown", Ok(are_not_shown(rt.alloc())));
    row(&rt, "each step is shown", each_step_is_shown(rt.alloc()));
    row(&rt, "short payloads", short_payloads(rt.alloc()));
    row(&rt, "most pieces", most_pieces(rt.alloc()));
    row(&rt, "the longest piece", the_longest_piece(rt.alloc()));
}
