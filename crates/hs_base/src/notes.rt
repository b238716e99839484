//! A list that is kept, or that only clauses read.
ghost use Rattle.std.specs.Prelude.{◌≡◌, ◌+◌, ◌<◌, ◌≤◌, true, false, [], ◌∷◌, ◌++◌, length, IsOk, IfOk, IfSome, IfNone, OnOk, OnErr};

use crate::ids::Memory;
use crate::list::List;
use crate::trail::Trail;
use std::alloc::Global;
use std::marker::Model;

/// What was noted, in order. Where it is kept it can be had, and takes memory. A bare one takes none, now or later: clauses
/// alone see what it has.
#[derive(Drop)]
pub struct Notes<T> {
    trail: Trail<T>,
    kept: Option<List<T>>,
}

impl<T> Model for Notes<T> {
    ghost use Rattle.hs_base.specs.Notes.{Noted, notes_of, AreKept};

    ghost Value = { Noted T };

    ghost view = { λ s. notes_of s.trail.items s.kept };

    ghost invariant = { λ s. AreKept s.trail.items s.kept };
}

impl<T: Drop> Notes<T> {
    /// Empty notes that are kept, so that they can be had as a list at the end. It takes no memory yet.
    pub fn new(alloc: Global) -> Notes<T>
        ensures { result ≡ record { items = []; keeps = true; room = 0 } }
    {
        Notes {
            trail: Trail::new(),
            kept: Some(List::new(alloc)),
        }
    }

    /// Empty notes that are kept, with memory for `room` items. No room takes no memory.
    pub fn with_room(alloc: Global, room: usize) -> Result<Notes<T>, Memory>
        ensures empty { IfOk result (λ notes. notes ≡ record { items = []; keeps = true; room = room }) }
        ensures some { OnErr result (0 < room) }
    {
        Ok(Notes {
            trail: Trail::new(),
            kept: Some(List::with_room(alloc, room)?),
        })
    }

    /// Empty notes that are not kept: clauses see what is noted, and no call takes memory for it.
    pub fn bare() -> Notes<T>
        ensures { result ≡ record { items = []; keeps = false; room = 0 } }
    {
        Notes {
            trail: Trail::new(),
            kept: None,
        }
    }

    /// Notes one more, for which there is room where the list is kept. The room does not shrink.
    pub fn push(&mut self, item: T)
        requires { self.old.keeps ≡ true → length self.old.items < self.old.room }
        ensures items { self.new.items ≡ self.old.items ++ item ∷ [] }
        ensures keeps { self.new.keeps ≡ self.old.keeps }
        ensures room { self.old.room ≤ self.new.room }
    {
        self.trail = Trail::with(&self.trail, &item);
        if let Some(kept) = &mut self.kept {
            kept.push(item);
        }
    }

    /// Makes room for `more` beside those that were noted, where the list is kept. A bare one always has it.
    pub fn reserve(&mut self, more: usize) -> Result<(), Memory>
        ensures items { self.new.items ≡ self.old.items }
        ensures keeps { self.new.keeps ≡ self.old.keeps }
        ensures ok { OnOk result (self.new.keeps ≡ true → length self.new.items + more ≤ self.new.room) }
        ensures room { self.old.room ≤ self.new.room }
        ensures err { OnErr result (self.new ≡ self.old) }
        ensures kept { OnErr result (self.old.keeps ≡ true) }
        ensures full { OnErr result (self.old.room < length self.old.items + more) }
    {
        match &mut self.kept {
            Some(kept) => kept.reserve(more),
            None => Ok(()),
        }
    }

    /// Notes one more, and takes memory for it only where the list is kept and has no room.
    pub fn append(&mut self, item: T) -> Result<(), Memory>
        ensures ok { OnOk result (self.new.items ≡ self.old.items ++ item ∷ []) }
        ensures keeps { self.new.keeps ≡ self.old.keeps }
        ensures room { self.old.room ≤ self.new.room }
        ensures err { OnErr result (self.new ≡ self.old) }
        ensures kept { OnErr result (self.old.keeps ≡ true) }
        ensures full { OnErr result (self.old.room ≤ length self.old.items) }
    {
        self.reserve(1)?;
        self.push(item);
        Ok(())
    }

    /// The list, or `None` where it is not kept.
    pub fn list(&self) -> Option<&List<T>>
        ensures some { IfSome result (λ list. list.now.items ≡ self.now.items) }
        ensures none { IfNone result (self.now.keeps ≡ false) }
    {
        self.kept.as_ref()
    }

    /// The list, or `None` where it was not kept.
    pub fn into_list(self) -> Option<List<T>>
        ensures some { IfSome result (λ list. list.items ≡ self.items) }
        ensures none { IfNone result (self.keeps ≡ false) }
    {
        let Notes { trail: _, kept } = self;
        kept
    }
}
