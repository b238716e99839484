//! A list that only clauses read.
ghost use Rattle.std.specs.Prelude.{◌≡◌, List, [], ◌∷◌, ◌++◌};
ghost use Rattle.std.specs.Borrow.{ftrue};

use std::marker::{Model, PhantomData};

/// What was noted, in order. It has no bytes, and no call of it takes memory.
#[derive(Drop)]
pub struct Trail<T> {
    marker: PhantomData<T>,
    pub ghost items: { List T },
}

impl<T> Model for Trail<T> {
    ghost also_owns = { λ _. ftrue };
}

/// How the notes go on by a value of another type.
pub trait Noting<T, X> {
    ghost then: { List T → X → List T };
}

impl<T> Trail<T> {
    /// A trail with no item.
    pub fn new() -> Trail<T>
        ensures { result.items ≡ [] }
    {
        Trail {
            marker: PhantomData,
        }
    }

    /// The trail `before`, with a copy of this item at its end.
    pub fn with(before: &Trail<T>, item: &T) -> Trail<T>
        ensures { result.items ≡ before.now.items ++ item.now ∷ [] }
    {
        let _ = before;
        let _ = item;
        Trail {
            marker: PhantomData,
        }
    }

    /// The trail as it goes on by a value, in the way that `N` says.
    pub fn after<X, N: Noting<T, X>>(before: &Trail<T>, value: &X) -> Trail<T>
        ensures { result.items ≡ N.then before.now.items value.now }
    {
        let _ = before;
        let _ = value;
        Trail {
            marker: PhantomData,
        }
    }
}

// It has no bytes, so there is nothing that two threads could both reach.
unsafe impl<T> Send for Trail<T> {}
