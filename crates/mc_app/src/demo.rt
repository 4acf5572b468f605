// Programs that are made from a number and analysed.

mod lines;
mod print;
mod seen;

pub use lines::demo_text;
pub use seen::Seen;
