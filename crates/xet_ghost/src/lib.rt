//! Values that only contracts see, and that may be sent to any thread.
#![tactic(auto)]

ghost use Rattle.std.specs.Prelude.{◌≡◌};
ghost use base.Fml.{ftrue};

use std::marker::{Model, PhantomData, Send, Sync};

/// What a value was when this was made. It has no bytes and owns nothing. Unlike `std::snapshot::Snapshot` it may be sent to
/// any thread, whatever the type of the value, and so may a struct that has one.
#[derive(Drop)]
pub struct Ghost<T> {
    marker: PhantomData<T>,
    pub ghost value: { T },
}

impl<T> Model for Ghost<T> {
    ghost also_owns = { λ _. ftrue };
}

impl<T> Ghost<T> {
    /// What this value is.
    pub fn of(value: &T) -> Ghost<T>
        ensures { result.value ≡ value.now }
    {
        let _ = value;
        Ghost {
            marker: PhantomData,
        }
    }
}

unsafe impl<T> Send for Ghost<T> {}

unsafe impl<T> Sync for Ghost<T> {}
