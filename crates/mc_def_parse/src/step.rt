// What readers make of tokens.

/// What a reader makes of a token: it goes on, it is complete after the token, or no text can have the token there.
#[derive(Drop)]
pub enum Step<R, X> {
    Taken(R),
    Closed(X),
    Stuck,
}

/// The same of a reader that steps in place.
#[derive(Clone, Copy, Debug, PartialEq, Eq)]
pub enum Took {
    Taken,
    Closed,
    Stuck,
}
