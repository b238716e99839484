//! The law of a link's items. It is the contract of a function that does nothing.

ghost use Rattle.std.specs.Prelude.{◌≡◌, ℕ};
ghost use mathlib.Core.Option.{some};
ghost use lib.ListN.{get_elem?};
ghost use Rattle.hs_link.specs.Ring.{LinkRule};
ghost use Rattle.hs_link.specs.Moments.{Sends, Receives, AreTakenOrLie};

use crate::board::Fact;

/// Between any two steps of the threads, what the sender put is what the receiver took, and behind it the items that lie in the entries,
/// each in its own. So none is lost, comes twice, or overtakes another.
pub fn put_items_are_taken_or_lie_in_the_ring<T: Drop, F: Fact<T>>()
    ensures { (key : _) (s : _) → LinkRule F.holds key s → (i j : ℕ) (sender receiver : _) → get_elem? s.views i ≡ some sender → get_elem? s.views j ≡ some receiver
        → Sends sender → Receives receiver → AreTakenOrLie s sender receiver }
{}
