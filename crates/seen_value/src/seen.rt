//! A value that only clauses read, and that any thread may have.

ghost use Rattle.std.specs.Prelude.{◌≡◌};
ghost use Rattle.std.specs.Borrow.{ftrue};

use std::marker::{Model, PhantomData};

/// A `T` as clauses see it, which is its ghost field `value`. It has no bytes and owns nothing.
// kit: a struct with std's `Snapshot<T>`, which is the same, beside an `atomic_table::Seat` isn't found to be `Send`.
pub struct Seen<T> {
    marker: PhantomData<T>,
    pub ghost value: { T },
}

impl<T> Model for Seen<T> {
    ghost also_owns = { λ _. ftrue };
}

// It owns nothing. What a check takes for these two is in `proofs/seen/Seen/TheSendSync`.
unsafe impl<T> Send for Seen<T> {}

unsafe impl<T> Sync for Seen<T> {}

impl<T> Seen<T> {
    /// What the reference shows at the time of the call, whatever becomes of it.
    pub fn of(shown: &T) -> Seen<T>
        ensures { result.value ≡ shown.now }
    {
        let _ = shown;
        Seen {
            marker: PhantomData,
        }
    }
}

impl<T> Drop for Seen<T> {
    fn drop(self) {
        let Self { marker: _ } = self;
    }
}
