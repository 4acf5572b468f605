//! A program from its text, or the first thing that is wrong with it.

mod cause;
mod laws;
mod print;
mod reading;

pub use cause::{Cause, ReadFault, Refusal};
pub use laws::{
    programs_are_not_refused, programs_have_distinct_places, texts_are_read_once,
    texts_are_refused_once,
};
pub use reading::read;
