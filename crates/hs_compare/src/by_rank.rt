//! Head sampling.

ghost use Rattle.std.specs.Prelude.{◌≡◌, ◌≤◌};
ghost use Rattle.hs_compare.specs.Ringing.{kept_by_rank};

use hs_base::{TraceId, rank_of};

/// Whether head sampling of one trace in `one_in` keeps a trace. Its rank alone decides.
pub fn head(trace: TraceId, one_in: u32) -> bool
    requires { 1 ≤ one_in }
    ensures { result ≡ kept_by_rank one_in trace }
{
    rank_of(trace).word % u64::from(one_in) == 0
}
