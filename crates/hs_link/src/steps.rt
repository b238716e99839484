//! The steps of the two ends on the table.
ghost use Rattle.std.specs.Prelude.{◌≡◌, ◌+◌, ◌<◌, ◌≤◌, ◌^◌, [], ◌∷◌, ◌++◌, length, MatchBool, MatchOption};
ghost use Rattle.hs_link.specs.Contents.{IsBeginning, OneBegins};
ghost use Rattle.hs_link.specs.Ring.{IsSender, IsReceiver, IsLaying, IsSameSeat, IsNextEntry, put_of, heard_of, received_of, told_of};

use crate::board::{Entries, Fact, Place, STRIDE};
use crate::plays::{
    Hear, LookToPut, LookToTake, Meet, NotePut, NoteTaken, Pass, Put, Settle, Take,
};

/// Takes the slot of the sender's next entry, if the entry is free.
pub fn look_to_put<T, F: Fact<T>>(
    entries: &Entries<T, F>,
    place: &mut Place<T, F>,
    entry: usize,
) -> bool
    requires seat { IsSender entries.now.table_id entries.now.key place.old (put_of place.old) (heard_of place.old) }
    requires next { IsNextEntry entries.now.table_id (put_of place.old) entry }
    ensures seat { IsSameSeat place.old place.new }
    ensures look { MatchBool result
        (IsLaying entries.now.table_id entries.now.key place.new entry (put_of place.old) (heard_of place.old))
        ((place.new.me ≡ place.old.me) × (heard_of place.old + entries.now.table_id.slots ≤ length (put_of place.old))) }
{
    entries.load::<LookToPut>(place, STRIDE * entry) == 0
}

/// Puts an item into the entry whose slot the sender took.
pub fn put<T, F: Fact<T>>(entries: &Entries<T, F>, place: &mut Place<T, F>, entry: usize, item: T)
    requires seat { IsLaying entries.now.table_id entries.now.key place.old entry (put_of place.old) (heard_of place.old) }
    requires next { IsNextEntry entries.now.table_id (put_of place.old) entry }
    requires few { length (put_of place.old) + 1 < 2 ^ 64 }
    requires fact { F.holds entries.now.key item }
    ensures seat { IsSameSeat place.old place.new }
    ensures sender { IsSender entries.now.table_id entries.now.key place.new (put_of place.old ++ item ∷ []) (heard_of place.old) }
{
    match entries.exchange(place, entry, Some(item)) {
        None => {}
        Some(_) => unreachable!(),
    }
    entries.store::<Put>(place, STRIDE * entry, 1);
}

/// Takes the receiver's next item, if it was put.
pub fn take<T, F: Fact<T>>(
    entries: &Entries<T, F>,
    place: &mut Place<T, F>,
    entry: usize,
) -> Option<T>
    requires seat { IsReceiver entries.now.table_id entries.now.key place.old (received_of place.old) (told_of place.old) }
    requires next { IsNextEntry entries.now.table_id (received_of place.old) entry }
    ensures seat { IsSameSeat place.old place.new }
    ensures taken { MatchOption result
        ((place.new.me ≡ place.old.me) × IsBeginning (told_of place.old) (received_of place.old))
        (λ item. IsReceiver entries.now.table_id entries.now.key place.new (received_of place.old ++ item ∷ []) (told_of place.old) × F.holds entries.now.key item × OneBegins (received_of place.old ++ item ∷ []) (told_of place.old) × (length (received_of place.old) + 1 < 2 ^ 64)) }
{
    if entries.load::<LookToTake>(place, STRIDE * entry) == 0 {
        return None;
    }
    let item = entries.exchange(place, entry, None);
    entries.store::<Take>(place, STRIDE * entry, 0);
    item
}

/// Tells the receiver what was put.
pub fn tell_put<T, F: Fact<T>>(
    entries: &Entries<T, F>,
    sender: &mut Place<T, F>,
    receiver: &mut Place<T, F>,
    key: &Entries<T, F>,
)
    requires sender { IsSender entries.now.table_id entries.now.key sender.old (put_of sender.old) (heard_of sender.old) }
    requires receiver { IsReceiver entries.now.table_id key.now.key receiver.old (received_of receiver.old) (told_of receiver.old) }
    ensures seats { IsSameSeat sender.old sender.new × IsSameSeat receiver.old receiver.new }
    ensures sender { sender.new.me ≡ sender.old.me }
    ensures receiver { IsReceiver entries.now.table_id key.now.key receiver.new (received_of receiver.old) (put_of sender.old) }
    ensures fits { (key.now.key ≡ entries.now.key) × IsBeginning (received_of receiver.old) (put_of sender.old) }
{
    let taken = entries.split_seat::<NoteTaken>(receiver);
    entries.join_seat::<Meet>(sender, taken);
    entries.load::<Pass>(sender, 0);
    let put = entries.split_seat::<NotePut>(sender);
    entries.join_seat::<Hear>(receiver, put);
}

/// Tells the sender what was taken.
pub fn tell_taken<T, F: Fact<T>>(
    entries: &Entries<T, F>,
    sender: &mut Place<T, F>,
    receiver: &mut Place<T, F>,
    key: &Entries<T, F>,
)
    requires sender { IsSender entries.now.table_id entries.now.key sender.old (put_of sender.old) (heard_of sender.old) }
    requires receiver { IsReceiver entries.now.table_id key.now.key receiver.old (received_of receiver.old) (told_of receiver.old) }
    ensures seats { IsSameSeat sender.old sender.new × IsSameSeat receiver.old receiver.new }
    ensures sender { IsSender entries.now.table_id entries.now.key sender.new (put_of sender.old) (length (received_of receiver.old)) }
    ensures receiver { receiver.new.me ≡ receiver.old.me }
    ensures fits { (key.now.key ≡ entries.now.key) × IsBeginning (received_of receiver.old) (put_of sender.old) }
{
    let taken = entries.split_seat::<NoteTaken>(receiver);
    entries.join_seat::<Meet>(sender, taken);
    entries.load::<Settle>(sender, 0);
}
