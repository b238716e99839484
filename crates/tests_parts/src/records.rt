//! How many pieces a payload has.

use crate::rows::row;
use hs_base::limits::{MAX_PAYLOAD, MAX_SIZE, MIN_SIZE};
use hs_records::{piece_count, piece_limit};

/// The size of a page, the bytes of a payload, and its pieces.
const COUNTS: [(u32, usize, usize); 8] = [
    (MIN_SIZE, 0, 1),
    (MIN_SIZE, 30, 1),
    (MIN_SIZE, 31, 2),
    (MIN_SIZE, 60, 2),
    (MIN_SIZE, 61, 3),
    (MIN_SIZE, MAX_PAYLOAD, 2185),
    (MAX_SIZE, 32_734, 1),
    (MAX_SIZE, MAX_PAYLOAD, 3),
];

/// Whether payloads have as many pieces as the table says.
fn pieces_are_counted() -> bool {
    let mut right = true;
    for (size, bytes, count) in COUNTS {
        right &= MIN_SIZE <= size && piece_count(size, bytes) == count;
    }
    right
}

#[test]
fn pieces(rt: HostRuntime) {
    let limits = piece_limit(MIN_SIZE) == 30 && piece_limit(MAX_SIZE) == 32_734;
    row(&rt, "the longest pieces", Ok(limits));
    row(&rt, "pieces are counted", Ok(pieces_are_counted()));
}
