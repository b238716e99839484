//! Laws of the index. Each is the contract of a function that does nothing.

ghost use Rattle.std.specs.Prelude.{ℕ, List};
ghost use Rattle.hs_index.specs.Index.{Indexed, kept};
ghost use Rattle.hs_index.specs.Calls.{Call, LooksBack, IsLongestEnd};

use hs_words::Token;

/// After any calls an index holds what they say when one looks back over them: each trace with the chunks and
/// crumbs that came since it was last not indexed, in the order of the last touch, and within both limits.
pub fn any_calls_look_back<L: Token>()
    ensures { (threshold most : ℕ) (calls : List (Call L)) → LooksBack threshold most calls }
{}

/// Of any traces in the order of their last touch those stay that make the longest end within both limits.
pub fn longest_end_stays<L: Token>()
    ensures { (threshold most : ℕ) (touched : List (Indexed L))
        → IsLongestEnd threshold most touched (kept threshold most touched) }
{}
