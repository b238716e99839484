//! Events in the order of their stamps.

ghost use Rattle.std.specs.Prelude.{◌≡◌, ℕ, map, filter, nat_lt, length, IfOk, OnOk};
ghost use Rattle.std.specs.List.Sorted.{IsNonDecreasingBy, IsPermutation};
ghost use Rattle.hs_law_journal.specs.Pooled.{StampedPoolEvent, by_stamp};
ghost use Rattle.hs_check_follow.specs.Happening.{pool_event};
ghost use Rattle.hs_check_follow.specs.declared.happened.StampedEvent.{StampedEvent};

use crate::happened::StampedEvent;
use hs_base::Memory;

/// Puts events in the order of their stamps. Those with a stamp that is no number below their count are behind the others.
pub(crate) fn put_in_order(events: &mut Vec<StampedEvent>) -> Result<(), Memory>
    ensures order { OnOk result ((bound : ℕ) → by_stamp (λ (e : StampedPoolEvent). e.stamp) bound (map pool_event events.old.items)
        ≡ map pool_event (filter (λ (t : StampedEvent). nat_lt t.stamp bound) events.new.items)) }
    ensures rises { OnOk result (IsNonDecreasingBy (λ (t : StampedEvent). t.stamp) events.new.items) }
    ensures same { IsPermutation events.old.items events.new.items }
    ensures count { OnOk result (length events.new.items ≡ length events.old.items) }
{
    events.sort_by_key(|event| event.stamp)?;
    Ok(())
}
