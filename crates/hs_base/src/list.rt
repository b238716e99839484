//! A list whose spare room contracts can see.

ghost use Rattle.std.specs.Prelude.{◌≡◌, ◌<◌, ◌≤◌, ◌+◌, ◌↔◌, [], ◌∷◌, ◌++◌, length, slice_get, IfOk, OnOk, OnErr, IsTrue, IfSome, IfNone, vec_capacity};
ghost use Rattle.std.specs.Option.{option_copied};
ghost use Rattle.std.specs.Borrow.{sem};
ghost use Rattle.hs_base.specs.Lending.{LendsItems};

use crate::ids::Memory;
use std::alloc::Global;
use std::marker::Model;

/// A growable list. Contracts see its items and its room, the number of items for which it has
/// memory already.
#[derive(Drop)]
pub struct List<T> {
    items: Vec<T>,
}

/// Bytes, each below 256.
pub type Bytes = List<u8>;

impl<T> Model for List<T> {
    ghost use Rattle.hs_base.specs.Listing.{Listing};
    ghost use Rattle.std.specs.Prelude.{vec_capacity};

    ghost Value = { Listing T };

    ghost view = { λ a. record { items = a.items.items; room = vec_capacity a.items } };
}

impl<T> List<T> {
    /// An empty list with no room, which takes no memory.
    pub fn new(alloc: Global) -> List<T>
        ensures items { result.items ≡ [] }
        ensures room { result.room ≡ 0 }
    {
        List {
            items: Vec::new(alloc),
        }
    }

    /// An empty list with memory for `room` items. No room takes no memory.
    pub fn with_room(alloc: Global, room: usize) -> Result<List<T>, Memory>
        ensures empty { IfOk result (λ list. list.items ≡ []) }
        ensures room { IfOk result (λ list. list.room ≡ room) }
        ensures some { OnErr result (0 < room) }
    {
        match Vec::with_capacity(alloc, room) {
            Ok(items) => Ok(List { items }),
            Err(_) => Err(Memory),
        }
    }

    /// Adds an item at the end. The room does not shrink.
    pub fn push(&mut self, item: T)
        requires { length self.old.items < self.old.room }
        ensures items { self.new.items ≡ self.old.items ++ item ∷ [] }
        ensures room { self.old.room ≤ self.new.room }
    {
        match self.items.push(item) {
            Ok(()) => {}
            Err(_) => unreachable!(),
        }
    }

    /// Makes room for `more` items beside those that it has.
    pub fn reserve(&mut self, more: usize) -> Result<(), Memory>
        ensures items { self.new.items ≡ self.old.items }
        ensures ok { OnOk result (length self.new.items + more ≤ self.new.room) }
        ensures room { self.old.room ≤ self.new.room }
        ensures err { OnErr result (self.new ≡ self.old) }
        ensures full { OnErr result (self.old.room < length self.old.items + more) }
    {
        match self.items.reserve(more) {
            Ok(()) => Ok(()),
            Err(_) => Err(Memory),
        }
    }

    /// Adds an item at the end, and takes memory for it only where there is no room.
    pub fn append(&mut self, item: T) -> Result<(), Memory>
    where
        T: Drop,
        ensures ok { OnOk result (self.new.items ≡ self.old.items ++ item ∷ []) }
        ensures err { OnErr result (self.new ≡ self.old) }
        ensures room { self.old.room ≤ self.new.room }
        ensures full { OnErr result (self.old.room ≤ length self.old.items) }
    {
        self.reserve(1)?;
        self.push(item);
        Ok(())
    }

    /// The number of items.
    pub fn len(&self) -> usize
        ensures { result ≡ length self.now.items }
    {
        self.items.len()
    }

    /// Whether there is no item.
    pub fn is_empty(&self) -> bool
        ensures { IsTrue result ↔ (self.now.items ≡ []) }
    {
        self.items.is_empty()
    }

    /// The item at a place from 0, or `None` where the place is not below the length.
    pub fn get(&self, place: usize) -> Option<&T>
        ensures { option_copied result ≡ slice_get self.now.items place }
    {
        self.items.get(place)
    }

    /// The items as a slice, in their order.
    pub fn as_slice(&self) -> &[T]
        ensures { result.now ≡ self.now.items }
    {
        self.items.as_slice()
    }

    /// The items, to be written in place.
    pub fn as_mut_slice(&mut self) -> &mut [T]
        ensures* writes_back { sem 𝓛 (LendsItems T.row self.entry result) }
        ensures value { result.now ≡ self.old.items }
    {
        self.items.as_mut_slice()
    }

    /// Takes the last item out, or answers `None` where there is none.
    pub fn pop(&mut self) -> Option<T>
        ensures some { IfSome result (λ item. self.old.items ≡ self.new.items ++ item ∷ []) }
        ensures none { IfNone result ((self.old.items ≡ []) × (self.new.items ≡ [])) }
        ensures room { self.new.room ≡ self.old.room }
    {
        self.items.pop()
    }

    /// The items as a vector, with the room as its capacity.
    pub fn into_vec(self) -> Vec<T>
        ensures items { result.items ≡ self.items }
        ensures room { vec_capacity result ≡ self.room }
    {
        let List { items } = self;
        items
    }

    /// A vector's items as a list, with its capacity as the room.
    pub fn from_vec(items: Vec<T>) -> List<T>
        ensures items { result.items ≡ items.items }
        ensures room { result.room ≡ vec_capacity items }
    {
        List { items }
    }
}

impl<T: Copy> List<T> {
    /// Adds a slice's items at the end, as `push` adds one.
    pub fn push_slice(&mut self, more: &[T])
        requires { length self.old.items + length more.now ≤ self.old.room }
        ensures items { self.new.items ≡ self.old.items ++ more.now }
        ensures room { self.old.room ≤ self.new.room }
    {
        match self.items.extend_from_slice(more) {
            Ok(()) => {}
            Err(_) => unreachable!(),
        }
    }

    /// Adds a slice's items at the end, as `append` adds one.
    pub fn append_slice(&mut self, more: &[T]) -> Result<(), Memory>
        ensures ok { OnOk result (self.new.items ≡ self.old.items ++ more.now) }
        ensures err { OnErr result (self.new ≡ self.old) }
        ensures room { self.old.room ≤ self.new.room }
        ensures full { OnErr result (self.old.room < length self.old.items + length more.now) }
    {
        self.reserve(more.len())?;
        self.push_slice(more);
        Ok(())
    }
}
