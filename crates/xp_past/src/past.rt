ghost use Rattle.std.specs.Prelude.{◌≡◌, List, [], ◌∷◌, ◌++◌};
ghost use Rattle.std.specs.Borrow.{ftrue};

use std::marker::{Model, PhantomData};

/// The values that came so far, in order, as they were when they came. A clause reads them as `items`. The list takes no
/// memory, and its functions do nothing at run time: a value that came may be moved or dropped afterwards.
#[derive(Drop)]
pub struct Past<T> {
    of: PhantomData<T>,
    pub ghost items: { List T },
}

impl<T> Model for Past<T> {
    ghost also_owns = { λ _. ftrue };
}

// It owns nothing.
unsafe impl<T> Send for Past<T> {}

impl<T> Past<T> {
    /// Returns the empty list.
    pub fn new() -> Past<T>
        ensures { result.items ≡ [] }
    {
        Past { of: PhantomData }
    }

    /// Returns the list with this value, as it is now, after the others.
    pub fn and(&self, next: &T) -> Past<T>
        ensures { result.items ≡ self.now.items ++ next.now ∷ [] }
    {
        Past { of: PhantomData }
    }

    /// Adds this value, as it is now, after the others.
    pub fn push(&mut self, next: &T)
        ensures { self.new.items ≡ self.old.items ++ next.now ∷ [] }
    {
        *self = self.and(next);
    }

    /// Adds these values, as they are now, after the others.
    pub fn extend(&mut self, more: &[T])
        ensures { self.new.items ≡ self.old.items ++ more.now }
    {
        for next in more {
            self.push(next);
        }
    }

    /// Returns an equal list.
    pub fn again(&self) -> Past<T>
        ensures { result.items ≡ self.now.items }
    {
        Past { of: PhantomData }
    }
}
