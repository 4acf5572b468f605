//! The rules of instructions that speak of numbers, decided: sums, differences, products and their order.

mod order;
mod results;
mod sums;

pub use order::test_at_most;
pub use results::Operation;
pub use sums::compute;
