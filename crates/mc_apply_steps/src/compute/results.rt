// What is known of the result of two nodes.
ghost use Rattle.std.specs.Prelude.{◌≡◌, ◌≤ℤ◌, ◌+ℤ◌, ◌-ℤ◌, ◌*ℤ◌, neg_ℤ, ◌++◌, pos, negsuc, Some, OnOk};
ghost use Rattle.std.specs.List.{AllByRecursion};
ghost use Rattle.mc_base.specs.declared.plain.Atom.TheVariants.{Eq, In};
ghost use Rattle.mc_base.specs.declared.plain.Kind.TheVariants.{Int};
ghost use Rattle.mc_flow.specs.Values.{wrapped};
ghost use Rattle.mc_pure.specs.Derived.{HasRange};
ghost use Rattle.mc_pure.specs.Pure.{AreOfOneKind, HasKind, IsBound, IsNode, IsWellFormed};
ghost use Rattle.mc_base.specs.Ranges.Ends.{IsInt};
ghost use Rattle.mc_base.specs.Ranges.Range.{IsIntRange};
ghost use Rattle.mc_state.specs.Facts.{IsFalse};
ghost use Rattle.mc_state.specs.State.{pure_of, with_atom, with_atoms};
ghost use Rattle.mc_rules_steps.specs.Fitting.{ends_of};
ghost use Rattle.mc_rules_steps.specs.Steps.{in_range};
ghost use Rattle.mc_rules_steps.specs.Sums.{are_ints, difference, int_atoms, is_one, product, result_atoms, shift_atoms, shifted, sum};
ghost use Rattle.mc_apply_steps.specs.Compute.Computed.{MayRelate, MayStand, list_of, operation};

use mc_base::ranges::Range;
use mc_base::{Atom, NoMemory, NodeId};
use mc_rules_steps::{least_ranges_are_known, results_are_ranged};
use mc_symbolic::State;

const LEAST: i64 = -2147483648;

const GREATEST: i64 = 2147483647;

/// What is computed of two operands.
#[derive(Clone, Copy, Debug, PartialEq, Eq)]
pub enum Operation {
    Sum,
    Difference,
    Product,
}

/// The least range of a node of kind Int, which is one of ints.
pub fn int_range(s: &State, node: NodeId) -> Range
    requires has { HasKind s.now.kinds Int node }
    requires not_false { IsFalse s.now → ⊥ }
    ensures least { HasRange (pure_of s.now) node result.lo result.hi }
    ensures ints { IsIntRange result }
{
    // For the proof alone: a least range of a node of kind Int is one of ints.
    least_ranges_are_known();
    s.range(node)
}

/// The range of sums, where it lies in `int`.
fn sums(left: Range, right: Range) -> Option<Range>
    requires left { IsIntRange left }
    requires right { IsIntRange right }
    ensures { (n : _) → int_atoms n (sum.ends (ends_of left) (ends_of right)) ≡ in_range n result }
{
    // For the proof alone: the ends of the results are those of their least range.
    results_are_ranged();
    left.add(right)
}

/// The range of differences, where it lies in `int`.
fn differences(left: Range, right: Range) -> Option<Range>
    requires left { IsIntRange left }
    requires right { IsIntRange right }
    ensures { (n : _) → int_atoms n (difference.ends (ends_of left) (ends_of right)) ≡ in_range n result }
{
    // For the proof alone: the ends of the results are those of their least range.
    results_are_ranged();
    left.sub(right)
}

/// The range of products, where it lies in `int`.
fn products(left: Range, right: Range) -> Option<Range>
    requires left { IsIntRange left }
    requires right { IsIntRange right }
    ensures { (n : _) → int_atoms n (product.ends (ends_of left) (ends_of right)) ≡ in_range n result }
{
    // For the proof alone: the ends of the results are those of their least range.
    results_are_ranged();
    left.mul(right)
}

/// The range of the results, where it lies in `int`.
fn results(op: Operation, left: Range, right: Range) -> Option<Range>
    requires left { IsIntRange left }
    requires right { IsIntRange right }
    ensures { (n : _) → int_atoms n ((operation op).ends (ends_of left) (ends_of right)) ≡ in_range n result }
{
    match op {
        Operation::Sum => sums(left, right),
        Operation::Difference => differences(left, right),
        Operation::Product => products(left, right),
    }
}

/// The same number in 32 bits.
fn int(number: i64) -> i32
    requires { IsInt number }
    ensures { result ≡ number }
{
    number as i32
}

/// The same number in 64 bits, where it may stand in an atom.
fn wide(number: i32) -> i64
    ensures same { result ≡ number }
    ensures bound { IsBound result }
{
    number as i64
}

/// The sum of two numbers, which wraps.
fn wrapped_sum(x: i32, y: i32) -> i32
    ensures { result ≡ wrapped (x +ℤ y) }
{
    x.wrapping_add(y)
}

/// The difference of two numbers, which wraps.
fn wrapped_difference(x: i32, y: i32) -> i32
    ensures { result ≡ wrapped (x -ℤ y) }
{
    x.wrapping_sub(y)
}

/// The product of two numbers, which wraps.
fn wrapped_product(x: i32, y: i32) -> i32
    ensures { result ≡ wrapped (x *ℤ y) }
{
    x.wrapping_mul(y)
}

/// The result of two numbers, which wraps.
fn wrapped(op: Operation, x: i32, y: i32) -> i32
    ensures { result ≡ wrapped ((operation op).apply x y) }
{
    match op {
        Operation::Sum => wrapped_sum(x, y),
        Operation::Difference => wrapped_difference(x, y),
        Operation::Product => wrapped_product(x, y),
    }
}

/// Whether the range is one number.
fn is_one(range: Range) -> bool
    ensures { result ≡ is_one (ends_of range) }
{
    range.lo == range.hi
}

/// Whether the range lies in `int`.
fn are_ints(range: Range) -> bool
    ensures { result ≡ are_ints (ends_of range) }
{
    LEAST <= range.lo && range.hi <= GREATEST
}

/// The range, a number more: the low end of the other.
fn moved(range: Range, by: Range) -> Range
    requires range { IsIntRange range }
    requires by { (negsuc 2147483647 ≤ℤ by.lo) × (by.lo ≤ℤ pos 2147483648) }
    ensures low { result.lo ≡ range.lo +ℤ by.lo }
    ensures high { result.hi ≡ range.hi +ℤ by.lo }
{
    Range {
        lo: range.lo + by.lo,
        hi: range.hi + by.lo,
    }
}

/// Whether the range, a number more, lies in `int`.
fn stays_int(range: Range, by: Range) -> bool
    requires range { IsIntRange range }
    requires by { (negsuc 2147483647 ≤ℤ by.lo) × (by.lo ≤ℤ pos 2147483648) }
    ensures { result ≡ are_ints (shifted (ends_of range) by.lo) }
{
    are_ints(moved(range, by))
}

/// The low end with its sign turned, as a range.
fn turned(range: Range) -> Range
    requires { IsIntRange range }
    ensures { result.lo ≡ neg_ℤ range.lo }
{
    Range {
        lo: -range.lo,
        hi: -range.lo,
    }
}

/// The atom that a node lies between two numbers.
fn in_range(node: NodeId, lo: &i64, hi: &i64) -> Atom
    ensures { result ≡ In node lo.now hi.now }
{
    Atom::In(node, *lo, *hi)
}

/// The atom that a node lies between the low end of a range and the high end of another.
fn in_ends(node: NodeId, low: Range, high: Range) -> Atom
    ensures { result ≡ In node low.lo high.hi }
{
    in_range(node, &low.lo, &high.hi)
}

/// Writes that a node lies between the low end of a range and the high end of another. Without memory nothing changes.
pub fn assume_in(s: &mut State, node: NodeId, low: Range, high: Range) -> Result<(), NoMemory>
    requires { IsNode s.old.kinds node }
    ensures { OnOk result (s.new ≡ with_atom s.old (In node low.lo high.hi)) }
{
    let atom = in_ends(node, low, high);
    s.assume(&atom)?;
    Ok(())
}

/// The atom that a node is another and a number more.
fn offset(node: NodeId, from: NodeId, by: Range) -> Atom
    ensures { result ≡ Eq node from by.lo }
{
    Atom::Eq(node, from, by.lo)
}

/// Writes an atom, if there is one. Without memory nothing changes.
#[tactic(auto, using(crate::proofs::ComputeLemmas::Written::no_atoms))]
fn assume_if(s: &mut State, atom: &Option<Atom>) -> Result<(), NoMemory>
    requires { AllByRecursion (IsWellFormed s.old.kinds) (list_of atom.now) }
    ensures { OnOk result (s.new ≡ with_atoms s.old (list_of atom.now)) }
{
    match atom {
        Some(atom) => s.assume(atom),
        None => Ok(()),
    }
}

/// Where the result of two single numbers lies: at their wrapped result.
fn single(op: Operation, node: NodeId, x: i64, y: i64) -> Atom
    requires left { IsInt x }
    requires right { IsInt y }
    ensures atom { result ≡ In node (wrapped ((operation op).apply x y)) (wrapped ((operation op).apply x y)) }
    ensures fits { MayStand node (Some result) }
{
    let number = wide(wrapped(op, int(x), int(y)));
    in_range(node, &number, &number)
}

/// Where the result lies: in the range of results, where that lies in `int`.
fn several(op: Operation, node: NodeId, left: Range, right: Range) -> Option<Atom>
    requires left { IsIntRange left }
    requires right { IsIntRange right }
    ensures atom { int_atoms node ((operation op).ends (ends_of left) (ends_of right)) ≡ list_of result }
    ensures fits { MayStand node result }
{
    match results(op, left, right) {
        Some(range) => Some(in_range(node, &range.lo, &range.hi)),
        None => None,
    }
}

/// Where the result lies: the result of two single numbers is their wrapped result, and another lies in the range of
/// results, where that lies in `int`.
fn place(op: Operation, node: NodeId, left: Range, right: Range) -> Option<Atom>
    requires left { IsIntRange left }
    requires right { IsIntRange right }
    ensures atom { result_atoms (operation op) node (ends_of left) (ends_of right) ≡ list_of result }
    ensures fits { MayStand node result }
{
    if is_one(left) && is_one(right) {
        Some(single(op, node, left.lo, right.lo))
    } else {
        several(op, node, left, right)
    }
}

/// The node is another and a number more, where the right range is one number and the other's stays in `int`.
fn shift(node: NodeId, from: NodeId, left: Range, right: Range, by: Range) -> Option<Atom>
    requires left { IsIntRange left }
    requires by { (negsuc 2147483647 ≤ℤ by.lo) × (by.lo ≤ℤ pos 2147483648) }
    ensures atom { shift_atoms node from (ends_of left) (ends_of right) by.lo ≡ list_of result }
    ensures fits { MayRelate node from result }
{
    if is_one(right) && stays_int(left, by) {
        Some(offset(node, from, by))
    } else {
        None
    }
}

/// Writes by which numbers a sum differs from its operands. Without memory the state is lost.
#[tactic(auto, using(crate::proofs::ComputeLemmas::Written::more_atoms))]
fn assume_sum(
    s: &mut State,
    node: NodeId,
    a: NodeId,
    b: NodeId,
    left: Range,
    right: Range,
) -> Result<(), NoMemory>
    requires first { AreOfOneKind s.old.kinds node a }
    requires second { AreOfOneKind s.old.kinds node b }
    requires left { IsIntRange left }
    requires right { IsIntRange right }
    ensures { OnOk result (s.new ≡ with_atoms s.old (sum.offsets node a b (ends_of left) (ends_of right))) }
{
    let first = shift(node, a, left, right, right);
    let second = shift(node, b, right, left, left);
    assume_if(s, &first)?;
    assume_if(s, &second)?;
    Ok(())
}

/// Writes by which number a difference differs from its left operand. Without memory the state is lost.
fn assume_difference(
    s: &mut State,
    node: NodeId,
    a: NodeId,
    left: Range,
    right: Range,
) -> Result<(), NoMemory>
    requires first { AreOfOneKind s.old.kinds node a }
    requires left { IsIntRange left }
    requires right { IsIntRange right }
    ensures { OnOk result (s.new
        ≡ with_atoms s.old (shift_atoms node a (ends_of left) (ends_of right) (neg_ℤ right.lo))) }
{
    let by = turned(right);
    let first = shift(node, a, left, right, by);
    assume_if(s, &first)?;
    Ok(())
}

/// Writes by which numbers a result differs from the operands. Without memory the state is lost.
#[tactic(auto, using(crate::proofs::ComputeLemmas::Written::no_atoms))]
fn assume_offsets(
    s: &mut State,
    op: Operation,
    node: NodeId,
    a: NodeId,
    b: NodeId,
    left: Range,
    right: Range,
) -> Result<(), NoMemory>
    requires first { AreOfOneKind s.old.kinds node a }
    requires second { AreOfOneKind s.old.kinds node b }
    requires left { IsIntRange left }
    requires right { IsIntRange right }
    ensures { OnOk result (s.new ≡ with_atoms s.old ((operation op).offsets node a b (ends_of left) (ends_of right))) }
{
    match op {
        Operation::Sum => assume_sum(s, node, a, b, left, right),
        Operation::Difference => assume_difference(s, node, a, left, right),
        Operation::Product => Ok(()),
    }
}

/// Writes what is known of the result of two nodes by their ranges. Without memory the state is lost.
pub fn assume_computed(
    s: &mut State,
    op: Operation,
    node: NodeId,
    a: NodeId,
    b: NodeId,
    left: Range,
    right: Range,
) -> Result<(), NoMemory>
    requires first { AreOfOneKind s.old.kinds node a }
    requires second { AreOfOneKind s.old.kinds node b }
    requires left { IsIntRange left }
    requires right { IsIntRange right }
    ensures { OnOk result (s.new ≡ with_atoms s.old (result_atoms (operation op) node (ends_of left) (ends_of right)
        ++ (operation op).offsets node a b (ends_of left) (ends_of right))) }
{
    let place = place(op, node, left, right);
    assume_if(s, &place)?;
    assume_offsets(s, op, node, a, b, left, right)?;
    Ok(())
}
