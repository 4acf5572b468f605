// What one atom asks of the rows that it names.
ghost use Rattle.std.specs.Prelude.{◌≡◌, ◌≢◌, ◌⊎◌, ◌≤ℤ◌, ◌<ℤ◌, ◌-ℤ◌, ◌+ℤ◌, neg_ℤ, pos, true, false};
ghost use Rattle.std.specs.Int.{int_max, int_min};
ghost use Rattle.mc_base.specs.Nodes.{null};
ghost use Rattle.mc_base.specs.Ranges.Ends.{IsEnd};
ghost use Rattle.mc_pure.specs.Normal.{low, high};
ghost use Rattle.mc_pure.specs.Rows.{IsSmall, IsShort};
ghost use Rattle.mc_pure.specs.Steps.{CutIs, JoinIs, LinkIs, SplitIs, WithoutIs, IsTame, IsPin};

use crate::rows::{Change, Row, Span, narrow};
use mc_base::ranges::Range;
use mc_base::{NULL, NodeId};

/// What is to be done.
#[derive(Clone, Copy)]
pub enum Step {
    Stay,
    Empty,
    To(Change),
}

/// What a disequality asks of two rows.
#[derive(Clone, Copy)]
pub enum Split {
    Nothing,
    Clash,
    Left(Span),
    Right(Span),
}

/// The numbers that are in both.
pub fn meet(a: &Span, b: &Span) -> Span
    ensures lo { result.lo ≡ int_max a.now.lo b.now.lo }
    ensures hi { result.hi ≡ int_min a.now.hi b.now.hi }
{
    Span {
        lo: a.lo.max(b.lo),
        hi: a.hi.min(b.hi),
    }
}

/// The numbers less `by`.
pub fn lowered(a: &Span, by: i128) -> Span
    requires lo { IsSmall a.now.lo }
    requires hi { IsSmall a.now.hi }
    requires by { IsSmall by }
    ensures lo { result.lo ≡ a.now.lo -ℤ by }
    ensures hi { result.hi ≡ a.now.hi -ℤ by }
{
    Span {
        lo: a.lo - by,
        hi: a.hi - by,
    }
}

/// The numbers and `by` more.
pub fn raised(a: &Span, by: i128) -> Span
    requires lo { IsSmall a.now.lo }
    requires hi { IsSmall a.now.hi }
    requires by { IsSmall by }
    ensures lo { result.lo ≡ a.now.lo +ℤ by }
    ensures hi { result.hi ≡ a.now.hi +ℤ by }
{
    Span {
        lo: a.lo + by,
        hi: a.hi + by,
    }
}

/// Whether no number is in it.
pub fn is_empty(a: &Span) -> bool
    ensures yes { result ≡ true → a.now.hi <ℤ a.now.lo }
    ensures no { result ≡ false → a.now.lo ≤ℤ a.now.hi }
{
    a.lo > a.hi
}

/// Whether the first is not in the second.
pub fn sticks_out(a: &Span, b: &Span) -> bool
    ensures yes { result ≡ true → ((a.now.lo <ℤ b.now.lo) ⊎ (b.now.hi <ℤ a.now.hi)) }
    ensures no { result ≡ false → ((b.now.lo ≤ℤ a.now.lo) × (a.now.hi ≤ℤ b.now.hi)) }
{
    a.lo < b.lo || b.hi < a.hi
}

/// Whether one number alone is in it, where it is not empty.
pub fn is_single(a: &Span) -> bool
    ensures yes { result ≡ true → a.now.lo ≡ a.now.hi }
    ensures no { result ≡ false → a.now.lo ≢ a.now.hi }
{
    a.lo == a.hi
}

/// The range of a row's class.
pub fn class_span(row: &Row) -> Span
    ensures lo { result.lo ≡ row.now.lo }
    ensures hi { result.hi ≡ row.now.hi }
{
    Span {
        lo: i128::from(row.lo),
        hi: i128::from(row.hi),
    }
}

/// The range of the row's own node.
pub fn own_span(row: &Row) -> Span
    requires { IsTame row.now }
    ensures lo { result.lo ≡ low row.now }
    ensures hi { result.hi ≡ high row.now }
{
    Span {
        lo: i128::from(row.lo) + i128::from(row.off),
        hi: i128::from(row.hi) + i128::from(row.off),
    }
}

/// The change of a class into another.
pub fn change_to(gone: NodeId, keep: NodeId, by: i128, to: &Span) -> Change
    ensures gone { result.gone ≡ gone }
    ensures keep { result.keep ≡ keep }
    ensures by { result.by ≡ by }
    ensures lo { result.lo ≡ to.now.lo }
    ensures hi { result.hi ≡ to.now.hi }
{
    Change {
        gone,
        keep,
        by,
        lo: to.lo,
        hi: to.hi,
    }
}

/// The change of a class that is one number into null's.
pub fn pinned(gone: NodeId, to: &Span) -> Change
    ensures { IsPin gone to.now.lo result }
{
    Change {
        gone,
        keep: NULL,
        by: to.lo,
        lo: 0,
        hi: 0,
    }
}

/// Whether a class that is to lie in the range is one number, and not null's class.
fn is_pinned(to: &Span, row: &Row) -> bool
    ensures yes { result ≡ true → (to.now.lo ≡ to.now.hi) × (row.now.rep ≢ null) }
    ensures no { result ≡ false → to.now.lo ≡ to.now.hi → row.now.rep ≡ null }
{
    if row.rep.0 == 0 {
        return false;
    }
    is_single(to)
}

/// How much more a row's node is than the least node of its class.
fn offset_of(row: &Row) -> i128
    ensures { result ≡ row.now.off }
{
    i128::from(row.off)
}

/// The class of a row, cut to a range of its node.
pub fn cut(row: &Row, span: &Span) -> Step
    requires off { IsSmall row.now.off }
    requires low { IsSmall span.now.lo }
    requires high { IsSmall span.now.hi }
    ensures { CutIs row.now span.now.lo span.now.hi result }
{
    let old = class_span(row);
    let other = lowered(span, offset_of(row));
    let new = meet(&old, &other);
    if is_empty(&new) {
        Step::Empty
    } else if sticks_out(&old, &new) {
        Step::To(if is_single(&new) {
            pinned(row.rep, &new)
        } else {
            change_to(row.rep, row.rep, 0, &new)
        })
    } else {
        Step::Stay
    }
}

/// Two classes as one, where `up.rep` is `down.rep` plus `by`. Where one number is left, the upper one goes into
/// null's class first.
pub fn join(up: &Row, down: &Row, by: i128) -> Step
    requires lo { IsSmall up.now.lo }
    requires hi { IsSmall up.now.hi }
    requires down_lo { IsSmall down.now.lo }
    requires down_hi { IsSmall down.now.hi }
    requires small { IsSmall by }
    ensures { JoinIs up.now down.now by result }
{
    let old = class_span(down);
    let upper = class_span(up);
    let other = lowered(&upper, by);
    let new = meet(&old, &other);
    if is_empty(&new) {
        Step::Empty
    } else if is_pinned(&new, down) {
        Step::To(pinned(up.rep, &raised(&new, by)))
    } else {
        Step::To(change_to(up.rep, down.rep, by, &new))
    }
}

/// The `by` with `left.rep = right.rep + by` where the nodes differ by `c`.
pub fn difference(left: &Row, right: &Row, c: i128) -> i128
    requires left { IsSmall left.now.off }
    requires right { IsSmall right.now.off }
    requires c { IsSmall c }
    ensures { result ≡ (right.now.off +ℤ c) -ℤ left.now.off }
{
    (i128::from(right.off) + c) - i128::from(left.off)
}

/// The number's negation.
pub fn negated(by: i128) -> i128
    requires { IsSmall by }
    ensures { result ≡ neg_ℤ by }
{
    -by
}

/// Whether the number is 0.
pub fn is_zero(by: i128) -> bool
    requires { IsSmall by }
    ensures yes { result ≡ true → by ≡ pos 0 }
    ensures no { result ≡ false → by ≢ pos 0 }
{
    by == 0
}

/// How two nodes become one class.
pub fn link(left: &Row, right: &Row, c: i128) -> Step
    requires left { IsTame left.now }
    requires right { IsTame right.now }
    requires short { IsShort c }
    ensures { LinkIs left.now right.now c result }
{
    let by = difference(left, right, c);
    if left.rep.0 == right.rep.0 {
        if is_zero(by) { Step::Stay } else { Step::Empty }
    } else if right.rep.0 < left.rep.0 {
        join(left, right, by)
    } else {
        join(right, left, negated(by))
    }
}

/// The range without a number that is one of its ends.
pub fn without(span: &Span, number: i128) -> Span
    requires lo { IsSmall span.now.lo }
    requires hi { IsSmall span.now.hi }
    ensures { WithoutIs span.now number result }
{
    if number == span.lo {
        Span {
            lo: span.lo + 1,
            hi: span.hi,
        }
    } else if number == span.hi {
        Span {
            lo: span.lo,
            hi: span.hi - 1,
        }
    } else {
        *span
    }
}

/// What `left != right + c` asks.
pub fn split_of(left: &Row, right: &Row, c: i128) -> Split
    requires left { IsTame left.now }
    requires right { IsTame right.now }
    requires short { IsShort c }
    ensures { SplitIs left.now right.now c result }
{
    if left.rep.0 == right.rep.0 {
        let by = difference(left, right, c);
        if is_zero(by) {
            Split::Clash
        } else {
            Split::Nothing
        }
    } else if is_single(&class_span(right)) {
        let mine = own_span(left);
        let other = own_span(right);
        Split::Left(without(&mine, other.lo + c))
    } else if is_single(&class_span(left)) {
        let mine = own_span(left);
        let other = own_span(right);
        Split::Right(without(&other, mine.lo - c))
    } else {
        Split::Nothing
    }
}

/// The range of the row's own node.
pub fn own_range(row: &Row) -> Range
    requires tame { IsTame row.now }
    requires lo { IsEnd (low row.now) }
    requires hi { IsEnd (high row.now) }
    ensures lo { result.lo ≡ low row.now }
    ensures hi { result.hi ≡ high row.now }
{
    let span = own_span(row);
    Range {
        lo: narrow(span.lo),
        hi: narrow(span.hi),
    }
}
