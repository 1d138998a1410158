//! What values show, kept where the values themselves are gone.
ghost use Rattle.std.specs.Prelude.{◌≡◌};
ghost use base.Fml.{ftrue};

use std::marker::{Model, PhantomData};

/// A way to see a value of one type as one of another.
pub trait Shows<T, U> {
    /// What the value shows.
    ghost shown: { T → U };
}

/// What a value showed. It has no bytes and owns nothing: only clauses read it.
#[derive(Drop)]
pub struct Shown<U> {
    marker: PhantomData<U>,
    /// What was shown.
    pub ghost value: { U },
}

impl<U> Model for Shown<U> {
    ghost also_owns = { λ _. ftrue };
}

impl<U> Shown<U> {
    /// What this value shows.
    pub fn of<T, V: Shows<T, U>>(value: &T) -> Shown<U>
        ensures { result.value ≡ V.shown value.now }
    {
        let _ = value;
        Shown {
            marker: PhantomData,
        }
    }
}

unsafe impl<U> Send for Shown<U> {}

unsafe impl<U> Sync for Shown<U> {}
