// Operations on numbers.
ghost use Rattle.std.specs.Prelude.{◌≡◌};
ghost use Rattle.mc_flow.specs.Values.{address, wrapped};
ghost use Rattle.mc_semantics.specs.Steps.{compares};
ghost use Rattle.mc_run_values.specs.Values.Models.{operation_of};

use mc_c_syntax::ast::Comparison;

/// An operation on two values.
#[derive(Clone, Copy, Debug, PartialEq, Eq)]
pub enum Operation {
    Times,
    Plus,
    Difference,
}

// The last 32 bits of a number, in two's complement.
fn low(number: i64) -> i32
    ensures { result ≡ wrapped number }
{
    let bits = number.rem_euclid(4294967296);
    (bits as u32).cast_signed()
}

/// What an `int` holds of the result.
pub fn operate(operation: Operation, a: i64, b: i64) -> i64
    ensures { result ≡ wrapped (operation_of operation a b) }
{
    match operation {
        Operation::Times => i64::from(low(a).wrapping_mul(low(b))),
        Operation::Plus => i64::from(low(a).wrapping_add(low(b))),
        Operation::Difference => i64::from(low(a).wrapping_sub(low(b))),
    }
}

/// The address that a pointer's value is; 0 for a negative number.
pub fn address_of(pointer: i64) -> u64
    ensures { result ≡ address pointer }
{
    if pointer < 0 { 0 } else { pointer as u64 }
}

/// Whether a comparison holds of two numbers.
pub fn compares(mark: Comparison, x: i64, y: i64) -> bool
    ensures { result ≡ compares mark x y }
{
    match mark {
        Comparison::Equal => x == y,
        Comparison::Unequal => x != y,
        Comparison::Below => x < y,
        Comparison::AtMost => x <= y,
        Comparison::Above => x > y,
        Comparison::AtLeast => x >= y,
    }
}
