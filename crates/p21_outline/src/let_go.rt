//! Values of which nothing is left.

ghost use Rattle.std.specs.Prelude.{◌≡◌};
ghost use base.Fml.{ftrue};

use std::marker::{Model, PhantomData};

/// A value that was let go, or that was never built. It has no bytes; clauses alone say which value it is.
pub(crate) struct LetGo<T> {
    pub(crate) marker: PhantomData<T>,
    pub(crate) ghost value: { T },
}

impl<T> Model for LetGo<T> {
    ghost also_owns = { λ _. ftrue };
}

impl<T> LetGo<T> {
    /// The value that a reference shows.
    pub(crate) fn of(x: &T) -> LetGo<T>
        ensures { result.value ≡ x.now }
    {
        let _ = x;
        LetGo {
            marker: PhantomData,
        }
    }
}

unsafe impl<T> Send for LetGo<T> {}

unsafe impl<T> Sync for LetGo<T> {}

impl<T> Drop for LetGo<T> {
    fn drop(self) {
        let Self { marker: _ } = self;
    }
}
