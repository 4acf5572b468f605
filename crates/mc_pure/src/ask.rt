// Questions to rows that say all that follows.
ghost use Rattle.std.specs.Prelude.{◌≡◌, ◌≢◌, ◌⊎◌, ◌<◌, ◌≤ℤ◌, ◌<ℤ◌, ◌+ℤ◌, ◌-ℤ◌, length, Some, slice_get, true, false};
ghost use Rattle.mc_base.specs.declared.plain.Atom.TheVariants.{Eq, Ne, In};
ghost use Rattle.mc_pure.specs.Pure.{IsNode, Base};
ghost use Rattle.mc_pure.specs.Derived.{Follows};
ghost use Rattle.mc_pure.specs.Rows.{row_at, IsSmall, IsShort, IsSound};
ghost use Rattle.mc_pure.specs.Steps.{IsTame, IsStable, MovedRows, MovedAtom, IsGivenByWritten, IsGivenByPair, IsGivenByStart, IsGivenByStarts, DiffersAt};
ghost use Rattle.mc_pure.specs.Known.{pure_of};

use crate::close::{find, rep_of, row_of, span_from, wide};
use crate::known::Known;
use crate::rows::{Row, Span};
use crate::steps::{difference, is_zero, negated, own_span};
use mc_base::{Atom, NodeId};

/// How much more one node is than another.
#[derive(Clone, Copy)]
pub struct Offset {
    pub by: i128,
}

/// Whether `left` is `right` plus `c` by their classes.
fn is_linked(left: &Row, right: &Row, c: i128) -> bool
    requires left { IsTame left.now }
    requires right { IsTame right.now }
    requires short { IsShort c }
    ensures yes { result ≡ true → ((left.now.rep ≡ right.now.rep) × (left.now.off ≡ right.now.off +ℤ c)) }
    ensures no { result ≡ false → left.now.rep ≡ right.now.rep → left.now.off ≢ right.now.off +ℤ c }
{
    if left.rep.0 != right.rep.0 {
        return false;
    }
    is_zero(difference(left, right, c))
}

/// Whether two ranges do not meet, the second moved by a number.
fn is_apart(left: &Span, right: &Span, c: i128) -> bool
    requires lo { IsSmall right.now.lo }
    requires hi { IsSmall right.now.hi }
    requires c { IsSmall c }
    ensures yes { result ≡ true → ((left.now.hi <ℤ (right.now.lo +ℤ c)) ⊎ ((right.now.hi +ℤ c) <ℤ left.now.lo)) }
    ensures no { result ≡ false → ((left.now.hi <ℤ (right.now.lo +ℤ c)) ⊎ ((right.now.hi +ℤ c) <ℤ left.now.lo)) → ⊥ }
{
    if left.hi < right.lo + c {
        true
    } else if right.hi + c < left.lo {
        true
    } else {
        false
    }
}

/// Whether two numbers are one.
fn is_same(x: i128, y: i128) -> bool
    ensures yes { result ≡ true → x ≡ y }
    ensures no { result ≡ false → x ≢ y }
{
    x == y
}

/// Whether one disequality is another, moved along classes.
fn is_moved(x: &Row, y: &Row, d: i128, a: &Row, b: &Row, c: i128) -> bool
    requires x { IsTame x.now }
    requires y { IsTame y.now }
    requires a { IsTame a.now }
    requires b { IsTame b.now }
    requires c { IsShort c }
    requires d { IsShort d }
    ensures yes { result ≡ true → MovedRows x.now y.now d a.now b.now c }
    ensures no { result ≡ false → MovedRows x.now y.now d a.now b.now c → ⊥ }
{
    if x.rep.0 != a.rep.0 {
        return false;
    }
    if y.rep.0 != b.rep.0 {
        return false;
    }
    let mine = difference(a, b, c);
    let other = difference(x, y, d);
    is_same(mine, other)
}

/// Whether a node is of the class of one of two rows.
fn is_near(known: &Known, rows: &[Row], node: NodeId, left: &Row, right: &Row) -> bool
    requires sound { IsSound (pure_of known.now) rows.now }
    requires there { IsNode known.now.nodes node }
    ensures no { result ≡ false → ((row_at rows.now node).rep ≡ left.now.rep → ⊥) × ((row_at rows.now node).rep ≡ right.now.rep → ⊥) }
{
    let rep = rep_of(known, rows, node);
    if rep.0 == left.rep.0 {
        return true;
    }
    if rep.0 == right.rep.0 {
        return true;
    }
    false
}

/// Whether an atom gives the disequality of two rows.
fn gives(known: &Known, rows: &[Row], atom: &Atom, left: &Row, right: &Row, c: i128) -> bool
    requires sound { IsSound (pure_of known.now) rows.now }
    requires base { Base (pure_of known.now) atom.now }
    requires left { IsTame left.now }
    requires right { IsTame right.now }
    requires short { IsShort c }
    ensures yes { result ≡ true → MovedAtom rows.now atom.now left.now right.now c }
    ensures no { result ≡ false → MovedAtom rows.now atom.now left.now right.now c → ⊥ }
{
    match atom {
        Atom::Ne(x, y, d) => {
            if !is_near(known, rows, *x, left, right) {
                return false;
            }
            let offset = wide(*d);
            let first = row_of(known, rows, *x);
            let second = row_of(known, rows, *y);
            let back = negated(c);
            if is_moved(&first, &second, offset, left, right, c) {
                true
            } else {
                is_moved(&first, &second, offset, right, left, back)
            }
        }
        Atom::Eq(_, _, _) => false,
        Atom::In(_, _, _) => false,
    }
}

/// Whether a written atom gives the disequality of two rows.
fn is_written(known: &Known, rows: &[Row], left: &Row, right: &Row, c: i128) -> bool
    requires sound { IsSound (pure_of known.now) rows.now }
    requires left { IsTame left.now }
    requires right { IsTame right.now }
    requires short { IsShort c }
    ensures yes { result ≡ true → IsGivenByWritten (pure_of known.now) rows.now left.now right.now c }
    ensures no { result ≡ false → IsGivenByWritten (pure_of known.now) rows.now left.now right.now c → ⊥ }
{
    for atom in known.written.apart() {
        if gives(known, rows, atom, left, right, c) {
            return true;
        }
    }
    false
}

/// Whether the starts of two blocks give the disequality of two rows.
fn pair_gives(
    known: &Known,
    rows: &[Row],
    i: usize,
    j: usize,
    left: &Row,
    right: &Row,
    c: i128,
) -> bool
    requires sound { IsSound (pure_of known.now) rows.now }
    requires first { i < length known.now.starts.items }
    requires second { j < length known.now.starts.items }
    requires left { IsTame left.now }
    requires right { IsTame right.now }
    requires short { IsShort c }
    ensures yes { result ≡ true → IsGivenByPair (pure_of known.now) rows.now i j left.now right.now c }
    ensures no { result ≡ false → IsGivenByPair (pure_of known.now) rows.now i j left.now right.now c → ⊥ }
{
    if i == j {
        return false;
    }
    let starts = known.starts.as_slice();
    let first = row_of(known, rows, starts[i]);
    let second = row_of(known, rows, starts[j]);
    is_moved(&first, &second, 0, left, right, c)
}

/// Whether a block's start is of a class.
fn is_in_class(known: &Known, rows: &[Row], i: usize, left: &Row) -> bool
    requires sound { IsSound (pure_of known.now) rows.now }
    requires first { i < length known.now.starts.items }
    ensures no { result ≡ false → (x : _) → slice_get known.now.starts.items i ≡ Some x → (row_at rows.now x).rep ≢ left.now.rep }
{
    let starts = known.starts.as_slice();
    let first = rep_of(known, rows, starts[i]);
    if first.0 != left.rep.0 {
        return false;
    }
    true
}

/// Whether the start of one block and that of another give the disequality of two rows.
fn start_gives(known: &Known, rows: &[Row], i: usize, left: &Row, right: &Row, c: i128) -> bool
    requires sound { IsSound (pure_of known.now) rows.now }
    requires inside { i < length known.now.starts.items }
    requires left { IsTame left.now }
    requires right { IsTame right.now }
    requires short { IsShort c }
    ensures yes { result ≡ true → IsGivenByStart (pure_of known.now) rows.now i left.now right.now c }
    ensures no { result ≡ false → IsGivenByStart (pure_of known.now) rows.now i left.now right.now c → ⊥ }
{
    if !is_in_class(known, rows, i, left) {
        return false;
    }
    for j in 0..known.starts.len() {
        if pair_gives(known, rows, i, j, left, right, c) {
            return true;
        }
    }
    false
}

/// Whether the starts of blocks give the disequality of two rows.
fn starts_give(known: &Known, rows: &[Row], left: &Row, right: &Row, c: i128) -> bool
    requires sound { IsSound (pure_of known.now) rows.now }
    requires left { IsTame left.now }
    requires right { IsTame right.now }
    requires short { IsShort c }
    ensures yes { result ≡ true → IsGivenByStarts (pure_of known.now) rows.now left.now right.now c }
    ensures no { result ≡ false → IsGivenByStarts (pure_of known.now) rows.now left.now right.now c → ⊥ }
{
    for i in 0..known.starts.len() {
        if start_gives(known, rows, i, left, right, c) {
            return true;
        }
    }
    false
}

/// Whether two rows' nodes differ by another number than the offset.
fn differ(known: &Known, rows: &[Row], left: &Row, right: &Row, c: &Offset) -> bool
    requires sound { IsSound (pure_of known.now) rows.now }
    requires left { IsTame left.now }
    requires right { IsTame right.now }
    requires short { IsShort c.now.by }
    ensures yes { result ≡ true → DiffersAt (pure_of known.now) rows.now left.now right.now c.now.by }
    ensures no { result ≡ false → DiffersAt (pure_of known.now) rows.now left.now right.now c.now.by → ⊥ }
{
    let mine = own_span(left);
    let other = own_span(right);
    if is_apart(&mine, &other, c.by) {
        return true;
    }
    if is_written(known, rows, left, right, c.by) {
        return true;
    }
    starts_give(known, rows, left, right, c.by)
}

/// Whether an equality follows.
pub fn entails_eq(known: &Known, rows: &[Row], a: NodeId, b: NodeId, c: &Offset) -> bool
    requires sound { IsSound (pure_of known.now) rows.now }
    requires stable { IsStable (pure_of known.now) rows.now }
    requires short { IsShort c.now.by }
    ensures yes { result ≡ true → Follows (pure_of known.now) (Eq a b c.now.by) }
    ensures no { result ≡ false → Follows (pure_of known.now) (Eq a b c.now.by) → ⊥ }
{
    let Some(left) = find(known, rows, a) else {
        return false;
    };
    let Some(right) = find(known, rows, b) else {
        return false;
    };
    is_linked(&left, &right, c.by)
}

/// Whether a disequality follows.
pub fn entails_ne(known: &Known, rows: &[Row], a: NodeId, b: NodeId, c: &Offset) -> bool
    requires sound { IsSound (pure_of known.now) rows.now }
    requires stable { IsStable (pure_of known.now) rows.now }
    requires short { IsShort c.now.by }
    ensures yes { result ≡ true → Follows (pure_of known.now) (Ne a b c.now.by) }
    ensures no { result ≡ false → Follows (pure_of known.now) (Ne a b c.now.by) → ⊥ }
{
    let Some(left) = find(known, rows, a) else {
        return false;
    };
    let Some(right) = find(known, rows, b) else {
        return false;
    };
    differ(known, rows, &left, &right, c)
}

/// Whether one range holds another.
fn holds(outer: &Span, inner: &Span) -> bool
    ensures yes { result ≡ true → ((outer.now.lo ≤ℤ inner.now.lo) × (inner.now.hi ≤ℤ outer.now.hi)) }
    ensures no { result ≡ false → ((outer.now.lo ≤ℤ inner.now.lo) × (inner.now.hi ≤ℤ outer.now.hi)) → ⊥ }
{
    if outer.lo > inner.lo {
        return false;
    }
    if inner.hi > outer.hi {
        return false;
    }
    true
}

/// Whether a range follows.
pub fn entails_in(known: &Known, rows: &[Row], a: NodeId, span: &Span) -> bool
    requires sound { IsSound (pure_of known.now) rows.now }
    requires stable { IsStable (pure_of known.now) rows.now }
    ensures yes { result ≡ true → Follows (pure_of known.now) (In a span.now.lo span.now.hi) }
    ensures no { result ≡ false → Follows (pure_of known.now) (In a span.now.lo span.now.hi) → ⊥ }
{
    let Some(row) = find(known, rows, a) else {
        return false;
    };
    let mine = own_span(&row);
    holds(span, &mine)
}

/// Whether an atom follows.
pub fn entails(known: &Known, rows: &[Row], atom: &Atom) -> bool
    requires sound { IsSound (pure_of known.now) rows.now }
    requires stable { IsStable (pure_of known.now) rows.now }
    ensures yes { result ≡ true → Follows (pure_of known.now) atom.now }
    ensures no { result ≡ false → Follows (pure_of known.now) atom.now → ⊥ }
{
    match atom {
        Atom::Eq(a, b, c) => entails_eq(known, rows, *a, *b, &wide_offset(*c)),
        Atom::Ne(a, b, c) => entails_ne(known, rows, *a, *b, &wide_offset(*c)),
        Atom::In(a, lo, hi) => entails_in(known, rows, *a, &span_from(*lo, *hi)),
    }
}

/// A node and a number more.
#[derive(Clone, Copy, Debug, PartialEq, Eq)]
pub struct Term {
    pub node: NodeId,
    pub add: i64,
}

/// By how much the first node has to be above the second for the terms to be equal.
pub fn distance(left: &Term, right: &Term) -> Offset
    ensures is { result.by ≡ right.now.add -ℤ left.now.add }
    ensures short { IsShort result.by }
{
    Offset {
        by: i128::from(right.add) - i128::from(left.add),
    }
}

/// The numbers from `lo` to `hi`, less a number.
pub fn span_less(lo: i64, hi: i64, by: i64) -> Span
    ensures lo { result.lo ≡ lo -ℤ by }
    ensures hi { result.hi ≡ hi -ℤ by }
{
    Span {
        lo: i128::from(lo) - i128::from(by),
        hi: i128::from(hi) - i128::from(by),
    }
}

/// An atom's offset.
fn wide_offset(c: i64) -> Offset
    ensures is { result.by ≡ c }
    ensures short { IsShort result.by }
{
    Offset { by: wide(c) }
}
