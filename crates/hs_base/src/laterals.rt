//! The laterals of a trigger, held inline.

ghost use Rattle.std.specs.Prelude.{◌≡◌, ◌<◌, ◌≤◌, ◌↔◌, [], ◌∷◌, ◌++◌, length, slice_get, IsTrue};

use crate::ids::TraceId;
use crate::limits::MAX_LATERALS;
use std::marker::Model;

/// At most 32 trace ids, in the order in which they were added. One may stand there more than once.
#[derive(Clone, Copy, Debug, PartialEq, Eq)]
pub struct Laterals {
    ids: [TraceId; MAX_LATERALS],
    len: u32,
}

impl Model for Laterals {
    ghost use Rattle.std.specs.Prelude.{List};
    ghost use Rattle.hs_base.specs.declared.ids.TraceId.{TraceId};

    ghost Value = { List TraceId };

    ghost use Rattle.hs_base.specs.Laterals.{ids_of, IsPadded, padded, padded-ids_of};

    ghost view = { ids_of };

    ghost invariant = { IsPadded };

    ghost inverse = { padded };

    ghost inverse_ok = { padded-ids_of };
}

impl Laterals {
    /// An empty list of laterals.
    pub fn none() -> Laterals
        ensures { result ≡ [] }
    {
        Laterals {
            ids: [TraceId(0); MAX_LATERALS],
            len: 0,
        }
    }

    /// Adds a lateral at the end of the list, which is not full.
    pub fn push(&mut self, trace: TraceId)
        requires { length self.old < MAX_LATERALS }
        ensures { self.new ≡ self.old ++ trace ∷ [] }
    {
        self.ids[self.len as usize] = trace;
        self.len += 1;
    }

    /// How many laterals there are, at most 32.
    pub fn len(&self) -> u32
        ensures value { result ≡ length self.now }
        ensures bound { result ≤ MAX_LATERALS }
    {
        self.len
    }

    /// Whether there is no lateral.
    pub fn is_empty(&self) -> bool
        ensures { IsTrue result ↔ (self.now ≡ []) }
    {
        self.len == 0
    }

    /// The lateral at a place from 0, or `None` where the place is not below the length.
    pub fn get(&self, place: u32) -> Option<TraceId>
        ensures { result ≡ slice_get self.now place }
    {
        if place < self.len {
            Some(self.ids[place as usize])
        } else {
            None
        }
    }
}
