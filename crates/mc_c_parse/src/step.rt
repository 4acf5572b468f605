// What readers make of tokens.
ghost use Rattle.mc_c_parse.specs.Threads.{IsPut};
ghost use Rattle.std.specs.Prelude.{IfOk};

use std::alloc::{AllocError, Global};

/// What a reader makes of a token: it goes on, it is complete after the token, or no text can have the token there.
#[derive(Drop)]
pub enum Step<R, T> {
    Taken(R),
    Closed(T),
    Stuck,
}

/// The same of a reader that steps in place: it goes on, it is complete after the token, or no text can have the token there.
/// What is complete stands in a box, so that the answer to most tokens is small.
#[derive(Drop)]
pub enum Took<T> {
    Taken,
    Closed(Box<T>),
    Stuck,
}

impl<R: Drop, T: Drop> Step<R, T> {
    /// The step in place of the reader.
    pub fn put(self, alloc: Global, reader: &mut R) -> Result<Took<T>, AllocError>
        ensures { IfOk result (IsPut self reader.new) }
    {
        match self {
            Step::Taken(next) => {
                *reader = next;
                Ok(Took::Taken)
            }
            Step::Closed(whole) => Ok(Took::Closed(Box::new(alloc, whole)?)),
            Step::Stuck => Ok(Took::Stuck),
        }
    }
}
