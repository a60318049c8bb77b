//! A list of what happened, which only proofs read.
ghost use Rattle.std.specs.Prelude.{◌≡◌, List, [], ◌∷◌, ◌++◌};
ghost use Rattle.std.specs.Borrow.{ftrue};

use std::fmt;
use std::marker::{Model, PhantomData};

/// What happened, in order: contracts see it as `items`. It takes no memory, and its calls do
/// nothing when they run. A source can keep in it the bytes that it gave, and a store the sources
/// that were closed.
#[derive(Drop)]
pub struct History<T> {
    of: PhantomData<T>,
    pub ghost items: { List T },
}

impl<T> Model for History<T> {
    ghost also_owns = { λ _. ftrue };
}

// It owns nothing.
unsafe impl<T: Send> Send for History<T> {}

impl<T> History<T> {
    /// The history of the items that the caller's proof names, from these two values. It reads
    /// neither.
    pub fn of<A, B>(_one: &A, _other: &B) -> History<T>
        ghost chosen: { List T }
        ensures { result.items ≡ chosen }
    {
        History { of: PhantomData }
    }

    /// The empty history.
    pub fn new() -> History<T>
        ensures { result.items ≡ [] }
    {
        History::of(&(), &())
    }

    /// Puts an item at its end.
    pub fn push(&mut self, item: &T)
        ensures { self.new.items ≡ self.old.items ++ item.now ∷ [] }
    {
        *self = History::of(self, item);
    }

    /// Puts items at its end, in their order.
    pub fn extend(&mut self, items: &[T])
        ensures { self.new.items ≡ self.old.items ++ items.now }
    {
        *self = History::of(self, &items);
    }
}

impl<T> fmt::Debug for History<T> {
    fn fmt<W: fmt::Write>(&self, f: &mut fmt::Formatter<W>) -> fmt::Result {
        f.write_str("History")
    }
}
