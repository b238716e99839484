//! The end that sends.
ghost use Rattle.std.specs.Prelude.{◌≡◌, ℕ, ◌+◌, ◌<◌, ◌≤◌, ◌^◌, true, false, [], ◌∷◌, ◌++◌, length, IfSome, IfNone};
ghost use Rattle.std.specs.Arc.{arc_value};
ghost use Rattle.std.specs.VecDeque.{deque_capacity};
ghost use Rattle.hs_link.specs.Contents.{sent, IsBeginning, EndsWith, IsSameSender, SeemsFull, HasPlaces, AreEnds, Contains};
ghost use Rattle.hs_link.specs.Trying.{Tries};
ghost use Rattle.hs_link.specs.Ring.{AllHold, IsSender, IsReceiver, IsSameSeat, IsCounted, put_of, heard_of, received_of, told_of};
ghost use Rattle.hs_link.specs.declared.sender.Sent.TheVariants.{Through, Kept};

use crate::board::{Board, Entries, Fact, Place};
use crate::entry_cursor::EntryCursor;
use crate::receiver::Receiver;
use crate::steps::{look_to_put, put, tell_taken};
use std::collections::VecDeque;
use std::marker::Model;
use std::sync::Arc;

/// What became of an item that was sent.
#[derive(Clone, Copy, Drop)]
pub enum Sent {
    /// It lies in the ring, and nothing waits.
    Through,
    /// It waits in the outbox, behind all others.
    Kept,
}

/// What became of an item that was offered.
#[derive(Drop)]
pub enum Tried<T> {
    /// It lies in the ring, and nothing waits.
    Through,
    /// It waits in the outbox, behind all others.
    Kept,
    /// The outbox has no place. The item comes back.
    Full(T),
}

/// The most items that a link takes in its life.
const MOST_ITEMS: u64 = 1 << 62;

/// The end of a link that sends. It can move to another thread.
///
/// Contracts see it as its link, key, capacity and room, the items that it put into the ring, those that wait in its
/// outbox, and how many it was told were taken.
#[derive(Drop)]
pub struct Sender<T, F: Fact<T>> {
    pub(crate) board: Arc<Board<T, F>>,
    pub(crate) place: Place<T, F>,
    cursor: EntryCursor,
    pub(crate) outbox: VecDeque<T>,
    room: u32,
}

impl<T, F: Fact<T>> Model for Sender<T, F> {
    ghost use Rattle.std.specs.Prelude.{◌≡◌, ◌+◌, ◌^◌, ◌<◌, ◌≤◌, length};
    ghost use Rattle.std.specs.Arc.{arc_value};
    ghost use Rattle.std.specs.VecDeque.{deque_capacity};
    ghost use Rattle.hs_link.specs.Contents.{Outgoing};

    ghost Value = { Outgoing T F };

    ghost use Rattle.hs_link.specs.Ring.{AllHold, IsSender, put_of, heard_of};

    ghost view = { λ s. record { link = s.place.table_id; key = (arc_value s.board).shared.key; capacity = s.cursor.capacity; room = s.room; put = put_of s.place; outbox = s.outbox.items; taken = heard_of s.place } };

    ghost invariant = { λ s.
        IsSender (arc_value s.board).shared.table_id (arc_value s.board).shared.key s.place (put_of s.place) (heard_of s.place)
        × (s.cursor.capacity ≡ s.place.table_id.slots)
        × (s.cursor.count ≡ length (put_of s.place))
        × (s.cursor.count + length s.outbox.items ≤ 2 ^ 62)
        × (length s.outbox.items ≤ s.room)
        × (s.room ≤ deque_capacity s.outbox)
        × (s.room < 2 ^ 32)
        × AllHold (F.holds (arc_value s.board).shared.key) s.outbox.items };
}

/// Empties the outbox into the ring from the front, as far as entries are free.
fn put_outbox<T, F: Fact<T>>(
    entries: &Entries<T, F>,
    place: &mut Place<T, F>,
    cursor: &mut EntryCursor,
    outbox: &mut VecDeque<T>,
)
    requires seat { IsSender entries.now.table_id entries.now.key place.old (put_of place.old) (heard_of place.old) }
    requires cursor { IsCounted entries.now.table_id cursor.old.capacity cursor.old.count (put_of place.old) }
    requires few { length (put_of place.old) + length outbox.old.items < 2 ^ 64 }
    requires fact { AllHold (F.holds entries.now.key) outbox.old.items }
    ensures seat { IsSameSeat place.old place.new }
    ensures sender { IsSender entries.now.table_id entries.now.key place.new (put_of place.new) (heard_of place.old) }
    ensures cursor { IsCounted entries.now.table_id cursor.new.capacity cursor.new.count (put_of place.new) }
    ensures sent { put_of place.new ++ outbox.new.items ≡ put_of place.old ++ outbox.old.items }
    ensures count { length (put_of place.new) + length outbox.new.items ≡ length (put_of place.old) + length outbox.old.items }
    ensures put { IsBeginning (put_of place.old) (put_of place.new) }
    ensures kept { 0 < length outbox.new.items → heard_of place.old + entries.now.table_id.slots ≤ length (put_of place.new) }
    ensures fact { AllHold (F.holds entries.now.key) outbox.new.items }
    ensures capacity { deque_capacity outbox.new ≡ deque_capacity outbox.old }
{
    while !outbox.is_empty() {
        if !look_to_put(entries, place, cursor.entry) {
            return;
        }
        put(entries, place, cursor.entry, outbox.pop_front().unwrap());
        cursor.advance();
    }
}

/// Puts the outbox and then the item, or keeps the item in the outbox.
fn put_or_keep<T, F: Fact<T>>(
    entries: &Entries<T, F>,
    place: &mut Place<T, F>,
    cursor: &mut EntryCursor,
    outbox: &mut VecDeque<T>,
    item: T,
) -> Sent
    requires seat { IsSender entries.now.table_id entries.now.key place.old (put_of place.old) (heard_of place.old) }
    requires cursor { IsCounted entries.now.table_id cursor.old.capacity cursor.old.count (put_of place.old) }
    requires few { length (put_of place.old) + length outbox.old.items + 1 < 2 ^ 64 }
    requires room { length outbox.old.items < deque_capacity outbox.old }
    requires fact { F.holds entries.now.key item × AllHold (F.holds entries.now.key) outbox.old.items }
    ensures seat { IsSameSeat place.old place.new }
    ensures sender { IsSender entries.now.table_id entries.now.key place.new (put_of place.new) (heard_of place.old) }
    ensures cursor { IsCounted entries.now.table_id cursor.new.capacity cursor.new.count (put_of place.new) }
    ensures sent { put_of place.new ++ outbox.new.items ≡ (put_of place.old ++ outbox.old.items) ++ item ∷ [] }
    ensures put { IsBeginning (put_of place.old) (put_of place.new) }
    ensures through { result ≡ Through → outbox.new.items ≡ [] }
    ensures kept { result ≡ Kept → EndsWith item outbox.new.items × (heard_of place.old + entries.now.table_id.slots ≤ length (put_of place.new)) }
    ensures fact { AllHold (F.holds entries.now.key) outbox.new.items }
    ensures capacity { deque_capacity outbox.new ≡ deque_capacity outbox.old }
{
    put_outbox(entries, place, cursor, outbox);
    if outbox.is_empty() && look_to_put(entries, place, cursor.entry) {
        put(entries, place, cursor.entry, item);
        cursor.advance();
        return Sent::Through;
    }
    outbox.push_back_reserved(item);
    Sent::Kept
}

impl<T, F: Fact<T>> Sender<T, F> {
    pub(crate) fn new(
        board: Arc<Board<T, F>>,
        place: Place<T, F>,
        capacity: usize,
        outbox: VecDeque<T>,
        room: u32,
    ) -> Sender<T, F>
        requires place { IsSender (arc_value board).shared.table_id (arc_value board).shared.key place [] 0 × (capacity ≡ place.table_id.slots) }
        requires outbox { (outbox.items ≡ []) × (room ≤ deque_capacity outbox) }
        ensures { result ≡ record { link = place.table_id; key = (arc_value board).shared.key; capacity = capacity; room = room; put = []; outbox = []; taken = 0 } }
    {
        Sender {
            board,
            place,
            cursor: EntryCursor::new(capacity),
            outbox,
            room,
        }
    }

    /// Sends an item behind all that waits in the outbox, as far as the ring has free entries: the first entry that the
    /// receiver has not emptied yet ends the attempt.
    ///
    /// `Kept` means that the item is last in the outbox. A sender sees it only while, by what it was told, the receiver
    /// is a whole ring behind. Else the answer is `Through`. It takes no memory.
    pub fn send(&mut self, item: T) -> Sent
        requires room { length (sent self.old) < self.old.room }
        requires fact { F.holds self.old.key item }
        ensures same { IsSameSender self.old self.new }
        ensures sent { sent self.new ≡ sent self.old ++ item ∷ [] }
        ensures put { IsBeginning self.old.put self.new.put }
        ensures through { result ≡ Through → self.new.outbox ≡ [] }
        ensures kept { result ≡ Kept → EndsWith item self.new.outbox × SeemsFull self.new }
    {
        // That the room has 32 bits is known where it is read.
        let _room = self.room;
        self.send_within(item)
    }

    /// Sends an item as `send` does, where the outbox has a place for it.
    pub fn send_within(&mut self, item: T) -> Sent
        requires place { HasPlaces 1 self.old }
        requires fact { F.holds self.old.key item }
        ensures same { IsSameSender self.old self.new }
        ensures sent { sent self.new ≡ sent self.old ++ item ∷ [] }
        ensures put { IsBeginning self.old.put self.new.put }
        ensures through { result ≡ Through → self.new.outbox ≡ [] }
        ensures kept { result ≡ Kept → EndsWith item self.new.outbox × SeemsFull self.new }
    {
        let board = &self.board;
        let entries = &board.shared;
        put_or_keep(
            entries,
            &mut self.place,
            &mut self.cursor,
            &mut self.outbox,
            item,
        )
    }

    /// Sends an item behind all that waits, or hands it back where the outbox has no place for it.
    ///
    /// What waits goes into the ring first, as far as entries are free. So `Full` is seen only while, by what the sender was
    /// told, the receiver is a whole ring behind, unless the outbox has no place at all. It takes no memory.
    pub fn try_send(&mut self, item: T) -> Tried<T>
        requires fact { F.holds self.old.key item }
        ensures same { IsSameSender self.old self.new }
        ensures put { IsBeginning self.old.put self.new.put }
        ensures tried { Tries item self.old result self.new }
    {
        self.flush();
        if self.places() == 0 {
            return Tried::Full(item);
        }
        match self.send_within(item) {
            Sent::Through => Tried::Through,
            Sent::Kept => Tried::Kept,
        }
    }

    /// How many items more may be sent, whatever the receiver does.
    pub fn places(&self) -> u32
        ensures enough { HasPlaces result self.now }
        ensures most { (more : ℕ) → HasPlaces more self.now → more ≤ result }
    {
        let free = self.room - self.waiting();
        let left = MOST_ITEMS - self.cursor.count - u64::from(self.waiting());
        if u64::from(free) <= left {
            free
        } else {
            left as u32
        }
    }

    /// Moves waiting items from the outbox into free entries of the ring, the first one first, and answers how many still
    /// wait. Some wait only while, by what the sender was told, the receiver is a whole ring behind. It takes no memory.
    pub fn flush(&mut self) -> u32
        ensures same { IsSameSender self.old self.new }
        ensures sent { sent self.new ≡ sent self.old }
        ensures put { IsBeginning self.old.put self.new.put }
        ensures left { result ≡ length self.new.outbox }
        ensures places { length self.new.outbox ≤ self.new.room }
        ensures kept { 0 < result → SeemsFull self.new }
    {
        let board = &self.board;
        let entries = &board.shared;
        put_outbox(entries, &mut self.place, &mut self.cursor, &mut self.outbox);
        self.outbox.len() as u32
    }

    /// Tells the receiver of all that this sender has put so far. Both are ends of one link, in one thread.
    #[tactic(auto, using(crate::proofs::Lists::contents_of))]
    pub fn tell(&mut self, receiver: &mut Receiver<T, F>)
        requires { AreEnds self.old receiver.old }
        ensures sender { self.new ≡ self.old }
        ensures receiver { receiver.new ≡ record receiver.old { told = self.old.put } }
        ensures contents { Contains self.old receiver.old × (receiver.old.key ≡ self.old.key) }
    {
        let board = &self.board;
        let entries = &board.shared;
        receiver.hear(entries, &mut self.place);
    }

    /// Hears of what was taken.
    pub(crate) fn hear(&mut self, entries: &Entries<T, F>, receiver: &mut Place<T, F>)
        requires link { self.old.link ≡ entries.now.table_id }
        requires receiver { IsReceiver entries.now.table_id entries.now.key receiver.old (received_of receiver.old) (told_of receiver.old) }
        ensures seat { IsSameSeat receiver.old receiver.new × (receiver.new.me ≡ receiver.old.me) }
        ensures sender { self.new ≡ record self.old { taken = length (received_of receiver.old) } }
        ensures fits { (entries.now.key ≡ self.old.key) × IsBeginning (received_of receiver.old) self.old.put }
    {
        let board = &self.board;
        let own = &board.shared;
        tell_taken(own, &mut self.place, receiver, entries);
    }

    /// The number of items that were put into the ring.
    pub(crate) fn put_count(&self) -> u64
        ensures count { result ≡ length self.now.put }
        ensures few { length self.now.put + length self.now.outbox ≤ 2 ^ 62 }
    {
        self.cursor.count
    }

    /// The number of items in the outbox.
    pub(crate) fn waiting(&self) -> u32
        ensures { result ≡ length self.now.outbox }
    {
        self.outbox.len() as u32
    }

    /// Takes the oldest item out of the outbox.
    pub(crate) fn withdraw(&mut self) -> Option<T>
        ensures same { self.new ≡ record self.old { outbox = self.new.outbox } }
        ensures some { IfSome result (λ item. (self.old.outbox ≡ item ∷ self.new.outbox) × F.holds self.old.key item) }
        ensures none { IfNone result ((self.old.outbox ≡ []) × (self.new.outbox ≡ [])) }
    {
        self.outbox.pop_front()
    }
}

impl<T: Drop, F: Fact<T>> Sender<T, F> {
    /// Sends an item behind all that waits, or drops it where the outbox has no place for it, and answers whether it was sent.
    ///
    /// An item that finds the outbox empty and the next entry free goes there straight. Else what waits goes into the ring first, as
    /// `try_send` does. It takes no memory.
    #[inline(always)]
    pub fn send_or_drop(&mut self, item: T) -> bool
        requires fact { F.holds self.old.key item }
        ensures same { IsSameSender self.old self.new }
        ensures put { IsBeginning self.old.put self.new.put }
        ensures sent { result ≡ true → sent self.new ≡ sent self.old ++ item ∷ [] }
        ensures dropped { result ≡ false → (sent self.new ≡ sent self.old) × (HasPlaces 1 self.new → ⊥) }
    {
        if self.outbox.is_empty() && self.cursor.count < MOST_ITEMS {
            let board = &self.board;
            let entries = &board.shared;
            if look_to_put(entries, &mut self.place, self.cursor.entry) {
                put(entries, &mut self.place, self.cursor.entry, item);
                self.cursor.advance();
                return true;
            }
        }
        self.send_apart(item)
    }

    /// Sends an item as `send_or_drop` does, where what waits has to go first or the next entry is not free.
    #[cold]
    #[inline(never)]
    fn send_apart(&mut self, item: T) -> bool
        requires fact { F.holds self.old.key item }
        ensures same { IsSameSender self.old self.new }
        ensures put { IsBeginning self.old.put self.new.put }
        ensures sent { result ≡ true → sent self.new ≡ sent self.old ++ item ∷ [] }
        ensures dropped { result ≡ false → (sent self.new ≡ sent self.old) × (HasPlaces 1 self.new → ⊥) }
    {
        match self.try_send(item) {
            Tried::Through | Tried::Kept => true,
            Tried::Full(_) => false,
        }
    }
}
