//! Ranks of traces.

ghost use Rattle.std.specs.Prelude.{◌≡◌};
ghost use Rattle.hs_base.specs.Ranks.{trace_rank};

use crate::ids::{Rank, TraceId};
use rand_core::{Rng, SeedableRng};
use rand_xoshiro::SplitMix64;

/// A trace's rank, which every node computes for itself (`docs/RULES.md`, "Ranks").
pub fn rank_of(trace: TraceId) -> Rank
    ensures { result ≡ trace_rank trace }
{
    let low = (trace.0 % (1 << 64)) as u64;
    let high = (trace.0 >> 64) as u64;
    let mut words = SplitMix64::from_seed((low ^ high).to_le_bytes());
    Rank {
        word: words.next_u64(),
        trace: trace.0,
    }
}
