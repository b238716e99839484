//! The steps of the ends on the table.
ghost use Rattle.std.specs.Prelude.{◌≡◌, ℕ, ◌+◌, ◌*◌, ◌%◌, ◌^◌, ◌<◌, [], ◌∷◌, Some, None, MatchBool};
ghost use mathlib.Core.Option.{none};
ghost use Rattle.atomic_table.specs.Table.{step};
ghost use Rattle.hs_ring.specs.Views.{having_collected, having_laid, having_unread, having_retaken, lease_of, without_lease, with_lease};
ghost use Rattle.hs_ring.specs.Steps.{did_draw, did_publish};
ghost use Rattle.hs_ring.specs.Seats.{IsSeatAt, IsSameSeat, CanDraw, CanCollect, CanLease, CanTake, IsLease, CanLay, CanPublish, CanRetake};

use crate::board::{Entries, ONE_DRAW, ONE_GIVE, Place};
use crate::plays::{Collect, DrawNumber, Lay, MakeLease, Publish, Retake, TakeLease};
use hs_words::Chunk;

/// Draws a number. Its word is answered as the step found it.
pub fn draw_number(entries: &Entries, place: &mut Place) -> u64
    requires seat { IsSeatAt entries.now.table_id place.old }
    requires can { CanDraw place.old.me.0 }
    ensures seat { IsSameSeat place.old place.new }
    ensures did { did_draw (step entries.now.table_id.slots 0 ONE_DRAW 0 none) place.old.me result place.new.me }
{
    entries.fetch_add::<DrawNumber>(place, 0, ONE_DRAW)
}

/// Takes the chunk of a number that was drawn out of its entry.
pub fn collect(entries: &Entries, place: &mut Place, entry: usize) -> Chunk
    requires seat { IsSeatAt entries.now.table_id place.old }
    requires can { CanCollect entries.now.table_id.slots entry place.old.me.0 }
    requires low { entry < entries.now.table_id.slots }
    requires chunk { (chunk : _) × (place.old.me.1 ≡ (entry, Some chunk) ∷ []) }
    ensures seat { IsSameSeat place.old place.new }
    ensures chunk { place.old.me.1 ≡ (entry, Some result) ∷ [] }
    ensures did { place.new.me ≡ (having_collected place.old.me.0, []) }
{
    let taken = entries.exchange(place, entry, None);
    entries.swap::<Collect>(place, entry + 1, 0);
    match taken {
        Some(chunk) => chunk,
        None => unreachable!(),
    }
}

/// Makes a lease of the buffer that the seat has.
pub fn make_lease(entries: &Entries, place: &mut Place) -> Place
    requires seat { IsSeatAt entries.now.table_id place.old }
    requires can { CanLease place.old.me.0 }
    ensures seat { IsSameSeat place.old place.new }
    ensures did { place.new.me ≡ (without_lease place.old.me.0, place.old.me.1) }
    ensures lease { (result.table_id ≡ place.old.table_id) × (result.me ≡ (lease_of place.old.me.0, [])) }
{
    entries.split_seat::<MakeLease>(place)
}

/// Takes a lease back.
pub fn take_lease(entries: &Entries, place: &mut Place, lease: Place)
    requires seat { IsSeatAt entries.now.table_id place.old }
    requires can { CanTake place.old.me.0 }
    requires lease { IsSeatAt entries.now.table_id lease × IsLease lease.me.0 × (lease.me.1 ≡ []) }
    ensures seat { IsSameSeat place.old place.new }
    ensures did { place.new.me ≡ (with_lease place.old.me.0 lease.me.0, place.old.me.1) }
{
    entries.join_seat::<TakeLease>(place, lease);
}

/// Lays a number at its entry, and answers whether it could.
pub fn lay(entries: &Entries, place: &mut Place, entry: usize, number: u64) -> bool
    requires seat { IsSeatAt entries.now.table_id place.old }
    requires can { CanLay entries.now.table_id.slots number place.old.me.0 }
    requires entry { entry ≡ number % entries.now.table_id.slots }
    requires low { entry < entries.now.table_id.slots }
    requires few { number + 1 < 2 ^ 64 }
    ensures seat { IsSameSeat place.old place.new }
    ensures did { MatchBool result
        (place.new.me ≡ (having_laid place.old.me.0, (entry, None) ∷ place.old.me.1))
        (place.new.me ≡ (having_unread place.old.me.0, place.old.me.1)) }
{
    entries.compare_exchange::<Lay>(place, entry + 1, 0, number + 1) == 0
}

/// Puts the chunk at the entry that was laid, and publishes its number. The word is answered as the step found it.
pub fn publish(entries: &Entries, place: &mut Place, entry: usize, chunk: Chunk) -> u64
    requires seat { IsSeatAt entries.now.table_id place.old }
    requires can { (number : ℕ) × CanPublish entries.now.table_id.slots number chunk place.old.me.0 × (entry ≡ number % entries.now.table_id.slots) }
    requires slot { place.old.me.1 ≡ (entry, None) ∷ [] }
    ensures seat { IsSameSeat place.old place.new }
    ensures did { did_publish (step entries.now.table_id.slots 0 ONE_GIVE 0 none) (place.old.me.0, (entry, Some chunk) ∷ []) result place.new.me }
{
    match entries.exchange(place, entry, Some(chunk)) {
        None => {}
        Some(_) => unreachable!(),
    }
    entries.fetch_add::<Publish>(place, 0, ONE_GIVE)
}

/// Takes the chunk out of the entry again, whose number was void.
pub fn retake(entries: &Entries, place: &mut Place, entry: usize) -> Chunk
    requires seat { IsSeatAt entries.now.table_id place.old }
    requires can { (number : ℕ) × CanRetake entries.now.table_id.slots number place.old.me.0 × (entry ≡ number % entries.now.table_id.slots) }
    requires low { entry < entries.now.table_id.slots }
    requires chunk { (chunk : _) × (place.old.me.1 ≡ (entry, Some chunk) ∷ []) }
    ensures seat { IsSameSeat place.old place.new }
    ensures chunk { place.old.me.1 ≡ (entry, Some result) ∷ [] }
    ensures did { place.new.me ≡ (having_retaken place.old.me.0, []) }
{
    let taken = entries.exchange(place, entry, None);
    entries.swap::<Retake>(place, entry + 1, 0);
    match taken {
        Some(chunk) => chunk,
        None => unreachable!(),
    }
}
