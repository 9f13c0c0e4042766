//! Where a step puts its answers.

ghost use Rattle.std.specs.Prelude.{◌≡◌, ◌<◌, [], ◌∷◌, ◌++◌, length, IfOk};

use std::alloc::{AllocError, Global};
use std::marker::Model;

/// A list of answers with a number of places, which are taken when it is made and stay as many. Putting an answer takes
/// no memory.
#[derive(Drop)]
pub struct OutBox<A> {
    answers: Vec<A>,
}

impl<A> Model for OutBox<A> {
    ghost use Rattle.std.specs.Prelude.{vec_capacity};
    ghost use Rattle.history_lock.specs.Places.{Placed};

    ghost Value = { Placed A };

    ghost view = { λ out. record {
      items = out.answers.items;
      places = vec_capacity out.answers;
    } };
}

impl<A> OutBox<A> {
    /// An empty box with this many places.
    pub fn new(alloc: Global, room: usize) -> Result<OutBox<A>, AllocError>
        ensures empty { IfOk result (λ out. out.items ≡ []) }
        ensures places { IfOk result (λ out. out.places ≡ room) }
    {
        let answers = Vec::with_capacity(alloc, room)?;
        Ok(OutBox { answers })
    }

    /// The answers, in the order in which they were put.
    #[inline]
    pub fn items(&self) -> &[A]
        ensures { result.now ≡ self.now.items }
    {
        self.answers.as_slice()
    }

    /// Puts an answer behind the others.
    #[inline]
    pub fn put(&mut self, answer: A)
        requires { length self.old.items < self.old.places }
        ensures items { self.new.items ≡ self.old.items ++ answer ∷ [] }
        ensures places { self.new.places ≡ self.old.places }
    {
        self.answers.push_reserved(answer);
    }
}

impl<A: Drop> OutBox<A> {
    /// Drops all answers.
    #[inline]
    pub fn clear(&mut self)
        ensures items { self.new.items ≡ [] }
        ensures places { self.new.places ≡ self.old.places }
    {
        self.answers.clear();
    }
}
