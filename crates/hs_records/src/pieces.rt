//! How a payload is cut.

ghost use Rattle.std.specs.Prelude.{◌≡◌, ◌+◌, ◌≤◌};
ghost use Rattle.hs_records.specs.Records.{piece_limit, piece_count};

use hs_base::limits::{FRAME_COST, MIN_SIZE};

/// The most bytes of a payload that are one piece, where pages have this size in bytes.
pub fn piece_limit(size: u32) -> usize
    requires { MIN_SIZE ≤ size }
    ensures { result ≡ piece_limit size }
{
    size as usize - FRAME_COST
}

/// How many pieces a payload of so many bytes has, where pages have this size in bytes.
#[tactic(auto, using(crate::proofs::Cuts::count_by_division))]
pub fn piece_count(size: u32, bytes: usize) -> usize
    requires { MIN_SIZE ≤ size }
    ensures value { result ≡ piece_count size bytes }
    ensures few { result ≤ bytes + 1 }
{
    1 + bytes.saturating_sub(1) / piece_limit(size)
}
