// How choices are drawn.
use crate::draws::Draws;

/// How the choices of one run are drawn. A chance is once in so many times, and 0 is never.
#[derive(Clone, Copy)]
pub struct Style {
    /// That an input is 0, besides those that are drawn so.
    pub zero: u64,
    /// That malloc answers null.
    pub null: u64,
    /// That malloc answers with an address that was freed.
    pub freed: u64,
    /// Whether inputs are the small numbers alone.
    pub small: bool,
    /// How many blocks a predicate has at most in a shape.
    pub blocks: u64,
    /// How many lines a script has at most.
    pub lines: u64,
}

// One of four numbers.
fn one_of(draws: &mut Draws, numbers: [u64; 4]) -> u64 {
    numbers.get(draws.place(4)).copied().unwrap_or(0)
}

/// How the choices of the next run are drawn.
pub fn style_of(draws: &mut Draws) -> Style {
    Style {
        zero: one_of(draws, [0, 2, 4, 8]),
        null: one_of(draws, [0, 0, 2, 6]),
        freed: one_of(draws, [0, 0, 8, 2]),
        small: draws.once_in(3),
        blocks: draws.below(4),
        lines: one_of(draws, [4, 8, 16, 40]),
    }
}
