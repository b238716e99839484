//! The end that receives.
ghost use Rattle.std.specs.Prelude.{◌≡◌, [], ◌∷◌, ◌++◌, length, IfSome, IfNone, MatchOption};
ghost use Rattle.std.specs.Arc.{arc_value};
ghost use Rattle.hs_link.specs.Contents.{IsBeginning, OneBegins, IsSameReceiver, AreEnds, Contains};
ghost use Rattle.hs_link.specs.Ring.{IsSender, IsReceiver, IsSameSeat, IsCounted, put_of, heard_of, received_of, told_of};

use crate::board::{Board, Entries, Fact, Place};
use crate::entry_cursor::EntryCursor;
use crate::sender::Sender;
use crate::steps::{take, tell_put};
use std::marker::Model;
use std::sync::Arc;

/// The end of a link that receives. It can move to another thread.
///
/// Contracts see it as its link and key, the items that it received, and those that it was told were put.
#[derive(Drop)]
pub struct Receiver<T, F: Fact<T>> {
    board: Arc<Board<T, F>>,
    place: Place<T, F>,
    cursor: EntryCursor,
}

impl<T, F: Fact<T>> Model for Receiver<T, F> {
    ghost use Rattle.std.specs.Prelude.{◌≡◌, length};
    ghost use Rattle.std.specs.Arc.{arc_value};
    ghost use Rattle.hs_link.specs.Contents.{Incoming};

    ghost Value = { Incoming T F };

    ghost use Rattle.hs_link.specs.Ring.{IsReceiver, received_of, told_of};

    ghost view = { λ s. record { link = s.place.table_id; key = (arc_value s.board).shared.key; received = received_of s.place; told = told_of s.place } };

    ghost invariant = { λ s.
        IsReceiver (arc_value s.board).shared.table_id (arc_value s.board).shared.key s.place (received_of s.place) (told_of s.place)
        × (s.cursor.capacity ≡ s.place.table_id.slots)
        × (s.cursor.count ≡ length (received_of s.place)) };
}

/// Takes the next item, and goes on by it.
fn take_next<T, F: Fact<T>>(
    entries: &Entries<T, F>,
    place: &mut Place<T, F>,
    cursor: &mut EntryCursor,
) -> Option<T>
    requires seat { IsReceiver entries.now.table_id entries.now.key place.old (received_of place.old) (told_of place.old) }
    requires cursor { IsCounted entries.now.table_id cursor.old.capacity cursor.old.count (received_of place.old) }
    ensures seat { IsSameSeat place.old place.new }
    ensures cursor { IsCounted entries.now.table_id cursor.new.capacity cursor.new.count (received_of place.new) }
    ensures taken { MatchOption result
        ((place.new.me ≡ place.old.me) × IsBeginning (told_of place.old) (received_of place.old))
        (λ item. IsReceiver entries.now.table_id entries.now.key place.new (received_of place.old ++ item ∷ []) (told_of place.old) × F.holds entries.now.key item × OneBegins (received_of place.old ++ item ∷ []) (told_of place.old)) }
{
    let item = take(entries, place, cursor.entry)?;
    cursor.advance();
    Some(item)
}

impl<T, F: Fact<T>> Receiver<T, F> {
    pub(crate) fn new(
        board: Arc<Board<T, F>>,
        place: Place<T, F>,
        capacity: usize,
    ) -> Receiver<T, F>
        requires { IsReceiver (arc_value board).shared.table_id (arc_value board).shared.key place [] [] × (capacity ≡ place.table_id.slots) }
        ensures { result ≡ record { link = place.table_id; key = (arc_value board).shared.key; received = []; told = [] } }
    {
        Receiver {
            board,
            place,
            cursor: EntryCursor::new(capacity),
        }
    }

    /// Receives the next item, of which the link's condition is true, or `None` where nothing stands in the next entry.
    /// Whatever the receiver has been told of comes before the first `None`. It takes no memory.
    pub fn receive(&mut self) -> Option<T>
        ensures same { IsSameReceiver self.old self.new }
        ensures some { IfSome result (λ item. (self.new.received ≡ self.old.received ++ item ∷ []) × OneBegins self.new.received self.new.told) }
        ensures fact { IfSome result (F.holds self.old.key) }
        ensures none { IfNone result ((self.new ≡ self.old) × IsBeginning self.old.told self.old.received) }
    {
        let board = &self.board;
        let entries = &board.shared;
        take_next(entries, &mut self.place, &mut self.cursor)
    }

    /// Tells the sender of every item that was taken so far. Both are ends of one link, in one thread.
    #[tactic(auto, using(crate::proofs::Lists::contents_of))]
    pub fn tell(&mut self, sender: &mut Sender<T, F>)
        requires { AreEnds sender.old self.old }
        ensures receiver { self.new ≡ self.old }
        ensures sender { sender.new ≡ record sender.old { taken = length self.old.received } }
        ensures contents { Contains sender.old self.old × (self.old.key ≡ sender.old.key) }
    {
        let board = &self.board;
        let entries = &board.shared;
        sender.hear(entries, &mut self.place);
    }

    /// Hears of what was put.
    pub(crate) fn hear(&mut self, entries: &Entries<T, F>, sender: &mut Place<T, F>)
        requires link { self.old.link ≡ entries.now.table_id }
        requires sender { IsSender entries.now.table_id entries.now.key sender.old (put_of sender.old) (heard_of sender.old) }
        ensures seat { IsSameSeat sender.old sender.new × (sender.new.me ≡ sender.old.me) }
        ensures receiver { self.new ≡ record self.old { told = put_of sender.old } }
        ensures fits { (self.old.key ≡ entries.now.key) × IsBeginning self.old.received (put_of sender.old) }
    {
        let board = &self.board;
        let own = &board.shared;
        tell_put(entries, sender, &mut self.place, own);
    }

    /// The number of items that were received.
    pub(crate) fn count(&self) -> u64
        ensures { result ≡ length self.now.received }
    {
        self.cursor.count
    }
}
