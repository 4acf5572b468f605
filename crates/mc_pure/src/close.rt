// Closing: rows that say all that follows from what is known.
ghost use Rattle.std.specs.Prelude.{◌≡◌, ◌⊎◌, ℤ, ℕ, ◌<◌, ◌≤◌, MatchOption, IfOk, length, true, false, Some, slice_get, pos};
ghost use Rattle.mc_base.specs.declared.plain.Atom.TheVariants.{Eq, Ne, In};
ghost use Rattle.mc_base.specs.Nodes.{null};
ghost use Rattle.mc_pure.specs.Pure.{IsNode, Base, address_atom, low_of, high_of};
ghost use Rattle.mc_pure.specs.Derived.{Follows, IsFalse};
ghost use Rattle.mc_pure.specs.Rows.{row_at, lone_row, StayBelow, IsSmall, IsShort, IsSound, Settled, Stepped, Keeps};
ghost use Rattle.mc_pure.specs.Nodes.{RiseFrom};
ghost use Rattle.mc_pure.specs.Steps.{ActIs, SmallStep, StepStaysLong, IsDownward, IsTame, IsStable, HasTies, HasKinds, Enforced, Ties, Addresses, Written, Starts, StartSettled, StartWithin, PairSettled, start_rows, kind_row};
ghost use Rattle.mc_pure.specs.Scopes.{IsWithin, SettledElsewhere, SettledElsewhereBut};
ghost use Rattle.mc_pure.specs.declared.scope.Scope.TheVariants.{Class};
ghost use Rattle.mc_pure.specs.Known.{IsFit, IsClosed, SettledBut, pure_of};

use crate::known::Known;
use crate::rows::{Change, Outcome, Row, Span, put};
use crate::scope::{Scope, is_within, widened};
use crate::steps::{Split, Step, cut, link, split_of};
use mc_base::ranges::Range;
use mc_base::{Atom, Kind, NULL, NoMemory, NodeId};
use std::alloc::Global;

/// A node in a class of its own.
pub fn alone(node: NodeId, range: &Range) -> Row
    ensures { result ≡ lone_row node range.now.lo range.now.hi }
{
    Row {
        node,
        rep: node,
        off: 0,
        lo: range.lo,
        hi: range.hi,
    }
}

/// The row of a node, where it is there.
pub fn find(known: &Known, rows: &[Row], node: NodeId) -> Option<Row>
    requires sound { IsSound (pure_of known.now) rows.now }
    ensures none { MatchOption result (IsNode known.now.nodes node → ⊥) (λ r. IsNode known.now.nodes node) }
    ensures row { MatchOption result (IsNode known.now.nodes node → ⊥) (λ r. (r ≡ row_at rows.now node) × IsTame r) }
{
    match known.nodes.place(node) {
        Some(place) => Some(rows[place]),
        None => None,
    }
}

/// The row of a node that is there.
pub fn row_of(known: &Known, rows: &[Row], node: NodeId) -> Row
    requires sound { IsSound (pure_of known.now) rows.now }
    requires there { IsNode known.now.nodes node }
    ensures is { result ≡ row_at rows.now node }
    ensures tame { IsTame result }
{
    match known.nodes.place(node) {
        Some(place) => rows[place],
        None => alone(node, &Range { lo: 0, hi: 0 }),
    }
}

/// The least node of the class of a node that is there.
pub fn rep_of(known: &Known, rows: &[Row], node: NodeId) -> NodeId
    requires sound { IsSound (pure_of known.now) rows.now }
    requires there { IsNode known.now.nodes node }
    ensures { result ≡ (row_at rows.now node).rep }
{
    match known.nodes.place(node) {
        Some(place) => rows[place].rep,
        None => node,
    }
}

/// The least node of the first class in which rows change. Those of null's class stay as they are.
fn least_of(change: &Change) -> NodeId
    ensures { (result ≡ change.now.keep) ⊎ ((result ≡ change.now.gone) × (change.now.keep ≡ null)) }
{
    if change.keep.0 == 0 {
        change.gone
    } else {
        change.keep
    }
}

/// The place of the first row that a change may concern.
fn first_of(known: &Known, rows: &[Row], change: &Change) -> usize
    requires sound { IsSound (pure_of known.now) rows.now }
    requires order { change.now.keep.0 ≤ change.now.gone.0 }
    requires zero { change.now.keep ≡ null → (change.now.lo ≡ pos 0) × (change.now.hi ≡ pos 0) }
    ensures { StayBelow change.now rows.now result }
{
    match known.nodes.place(least_of(change)) {
        Some(place) => place,
        None => 0,
    }
}

/// Does a step.
fn act(known: &Known, rows: &mut [Row], step: &Step) -> Outcome
    requires sound { IsSound (pure_of known.now) rows.old }
    requires by { SmallStep step.now (λ b. IsSmall b) }
    requires long { StepStaysLong step.now rows.old }
    requires order { IsDownward step.now }
    ensures { ActIs step.now rows.old rows.new result }
{
    match step {
        Step::Stay => Outcome::Same,
        Step::Empty => Outcome::False,
        Step::To(change) => {
            let first = first_of(known, rows, change);
            put(rows, first, change);
            Outcome::Changed(change.keep)
        }
    }
}

/// Meets a node's range with one that follows.
pub fn restrict(known: &Known, rows: &mut [Row], node: NodeId, span: &Span) -> Outcome
    requires sound { IsSound (pure_of known.now) rows.old }
    requires derived { Follows (pure_of known.now) (In node span.now.lo span.now.hi) }
    requires there { IsNode known.now.nodes node }
    requires lo { IsSmall span.now.lo }
    requires hi { IsSmall span.now.hi }
    ensures { Stepped (pure_of known.now) rows.old rows.new
        (Settled (pure_of known.now) rows.old (In node span.now.lo span.now.hi)) result }
{
    let row = row_of(known, rows, node);
    let step = cut(&row, span);
    act(known, rows, &step)
}

/// Makes two nodes one class, at an offset that follows.
pub fn equate(known: &Known, rows: &mut [Row], a: NodeId, b: NodeId, c: i128) -> Outcome
    requires sound { IsSound (pure_of known.now) rows.old }
    requires derived { Follows (pure_of known.now) (Eq a b c) }
    requires left { IsNode known.now.nodes a }
    requires right { IsNode known.now.nodes b }
    requires short { IsShort c }
    ensures { Stepped (pure_of known.now) rows.old rows.new (Settled (pure_of known.now) rows.old (Eq a b c)) result }
{
    let left = row_of(known, rows, a);
    let right = row_of(known, rows, b);
    let step = link(&left, &right, c);
    act(known, rows, &step)
}

/// Narrows where a disequality that follows asks for it.
pub fn part(known: &Known, rows: &mut [Row], a: NodeId, b: NodeId, c: i128) -> Outcome
    requires sound { IsSound (pure_of known.now) rows.old }
    requires derived { Follows (pure_of known.now) (Ne a b c) }
    requires left { IsNode known.now.nodes a }
    requires right { IsNode known.now.nodes b }
    requires short { IsShort c }
    ensures { Stepped (pure_of known.now) rows.old rows.new (Settled (pure_of known.now) rows.old (Ne a b c)) result }
{
    let left = row_of(known, rows, a);
    let right = row_of(known, rows, b);
    match split_of(&left, &right, c) {
        Split::Nothing => Outcome::Same,
        Split::Clash => Outcome::False,
        Split::Left(span) => restrict(known, rows, a, &span),
        Split::Right(span) => restrict(known, rows, b, &span),
    }
}

/// A range of two numbers.
pub fn span_from(lo: i64, hi: i64) -> Span
    ensures lo { result.lo ≡ lo }
    ensures hi { result.hi ≡ hi }
    ensures small { IsSmall result.lo × IsSmall result.hi }
{
    Span {
        lo: i128::from(lo),
        hi: i128::from(hi),
    }
}

/// An offset.
pub fn wide(c: i64) -> i128
    ensures is { result ≡ c }
    ensures short { IsShort result }
{
    i128::from(c)
}

/// Does what one atom asks.
pub fn apply(known: &Known, rows: &mut [Row], atom: &Atom) -> Outcome
    requires sound { IsSound (pure_of known.now) rows.old }
    requires base { Base (pure_of known.now) atom.now }
    ensures { Stepped (pure_of known.now) rows.old rows.new (Settled (pure_of known.now) rows.old atom.now) result }
{
    match atom {
        Atom::Eq(a, b, c) => {
            let offset = wide(*c);
            equate(known, rows, *a, *b, offset)
        }
        Atom::Ne(a, b, c) => {
            let offset = wide(*c);
            part(known, rows, *a, *b, offset)
        }
        Atom::In(a, lo, hi) => {
            let span = span_from(*lo, *hi);
            restrict(known, rows, *a, &span)
        }
    }
}

/// Does what one atom asks until it asks nothing more. False: what is known can't be true.
pub fn enforce(known: &Known, rows: &mut [Row], atom: &Atom) -> bool
    requires sound { IsSound (pure_of known.now) rows.old }
    requires base { Base (pure_of known.now) atom.now }
    ensures yes { result ≡ true → Enforced (pure_of known.now) rows.old rows.new (Settled (pure_of known.now) rows.new atom.now) }
    ensures no { result ≡ false → IsFalse (pure_of known.now) }
{
    loop {
        match apply(known, rows, atom) {
            Outcome::Same => return true,
            Outcome::Changed(_class) => {}
            Outcome::False => return false,
        }
    }
}

/// Does what each written atom asks.
fn enforce_written(known: &Known, rows: &mut [Row]) -> bool
    requires sound { IsSound (pure_of known.now) rows.old }
    ensures yes { result ≡ true → Enforced (pure_of known.now) rows.old rows.new (Ties (pure_of known.now) rows.new) }
    ensures no { result ≡ false → IsFalse (pure_of known.now) }
{
    for atom in known.written.all() {
        if !enforce(known, rows, atom) {
            return false;
        }
    }
    true
}

/// That a block starts at the node.
pub fn address(node: NodeId) -> Atom
    ensures { result ≡ address_atom node }
{
    Atom::In(node, 1, 4_611_686_018_427_387_903)
}

/// Makes the nodes at which blocks start addresses.
fn enforce_starts(known: &Known, rows: &mut [Row]) -> bool
    requires sound { IsSound (pure_of known.now) rows.old }
    ensures yes { result ≡ true → Enforced (pure_of known.now) rows.old rows.new (Addresses (pure_of known.now) rows.new) }
    ensures no { result ≡ false → IsFalse (pure_of known.now) }
{
    for start in known.starts.as_slice() {
        let atom = address(*start);
        if !enforce(known, rows, &atom) {
            return false;
        }
    }
    true
}

/// Whether one of two nodes is of a class that is looked at.
fn touches(known: &Known, rows: &[Row], a: NodeId, b: NodeId, scope: &Scope) -> bool
    requires sound { IsSound (pure_of known.now) rows.now }
    requires left { IsNode known.now.nodes a }
    requires right { IsNode known.now.nodes b }
    ensures no { result ≡ false → (IsWithin scope.now (row_at rows.now a) ⊎ IsWithin scope.now (row_at rows.now b)) → ⊥ }
{
    let left = row_of(known, rows, a);
    if is_within(scope, &left) {
        return true;
    }
    let right = row_of(known, rows, b);
    is_within(scope, &right)
}

/// Does what one atom asks, where all else is settled but disequalities that are looked at.
fn recheck(known: &Known, rows: &mut [Row], atom: &Atom, scope: &Scope) -> Outcome
    requires sound { IsSound (pure_of known.now) rows.old }
    requires rest { SettledElsewhere (pure_of known.now) rows.old scope.now }
    requires base { Base (pure_of known.now) atom.now }
    ensures { Stepped (pure_of known.now) rows.old rows.new (Settled (pure_of known.now) rows.old atom.now) result }
{
    match atom {
        Atom::Ne(a, b, _) => {
            if touches(known, rows, *a, *b, scope) {
                apply(known, rows, atom)
            } else {
                Outcome::Same
            }
        }
        Atom::Eq(_, _, _) => Outcome::Same,
        Atom::In(_, _, _) => Outcome::Same,
    }
}

/// Does what the written disequalities that are looked at ask, up to the first that changes something.
fn recheck_written(known: &Known, rows: &mut [Row], scope: &Scope) -> Outcome
    requires sound { IsSound (pure_of known.now) rows.old }
    requires rest { SettledElsewhere (pure_of known.now) rows.old scope.now }
    ensures { Stepped (pure_of known.now) rows.old rows.new (Written (pure_of known.now) rows.old) result }
{
    for atom in known.written.apart() {
        match recheck(known, rows, atom, scope) {
            Outcome::Same => {}
            Outcome::Changed(class) => return Outcome::Changed(class),
            Outcome::False => return Outcome::False,
        }
    }
    Outcome::Same
}

/// Does what the starts of two blocks ask.
fn recheck_pair(known: &Known, rows: &mut [Row], i: usize, j: usize) -> Outcome
    requires sound { IsSound (pure_of known.now) rows.old }
    requires first { i < length known.now.starts.items }
    requires second { j < length known.now.starts.items }
    ensures { Stepped (pure_of known.now) rows.old rows.new (PairSettled (pure_of known.now) rows.old i j) result }
{
    if i == j {
        return Outcome::Same;
    }
    let starts = known.starts.as_slice();
    part(known, rows, starts[i], starts[j], 0)
}

/// Does what a block's start asks beside all others.
fn recheck_pairs(known: &Known, rows: &mut [Row], i: usize) -> Outcome
    requires sound { IsSound (pure_of known.now) rows.old }
    requires inside { i < length known.now.starts.items }
    ensures { Stepped (pure_of known.now) rows.old rows.new (StartSettled (pure_of known.now) rows.old i) result }
{
    for j in 0..known.starts.len() {
        match recheck_pair(known, rows, i, j) {
            Outcome::Same => {}
            Outcome::Changed(class) => return Outcome::Changed(class),
            Outcome::False => return Outcome::False,
        }
    }
    Outcome::Same
}

/// Does what a block's start asks where it is looked at.
fn recheck_start(known: &Known, rows: &mut [Row], i: usize, scope: &Scope) -> Outcome
    requires sound { IsSound (pure_of known.now) rows.old }
    requires inside { i < length known.now.starts.items }
    ensures { Stepped (pure_of known.now) rows.old rows.new (StartWithin (pure_of known.now) rows.old scope.now i) result }
{
    let starts = known.starts.as_slice();
    let row = row_of(known, rows, starts[i]);
    if is_within(scope, &row) {
        recheck_pairs(known, rows, i)
    } else {
        Outcome::Same
    }
}

/// Does what the starts of blocks that are looked at ask, up to the first that changes something.
fn recheck_starts(known: &Known, rows: &mut [Row], scope: &Scope) -> Outcome
    requires sound { IsSound (pure_of known.now) rows.old }
    ensures { Stepped (pure_of known.now) rows.old rows.new (Starts (pure_of known.now) rows.old scope.now) result }
{
    for i in 0..known.starts.len() {
        match recheck_start(known, rows, i, scope) {
            Outcome::Same => {}
            Outcome::Changed(class) => return Outcome::Changed(class),
            Outcome::False => return Outcome::False,
        }
    }
    Outcome::Same
}

/// Does what the disequalities that are looked at ask, up to the first that changes something.
fn recheck_all(known: &Known, rows: &mut [Row], scope: &Scope) -> Outcome
    requires sound { IsSound (pure_of known.now) rows.old }
    requires rest { SettledElsewhere (pure_of known.now) rows.old scope.now }
    ensures { Stepped (pure_of known.now) rows.old rows.new (IsStable (pure_of known.now) rows.old) result }
{
    match recheck_written(known, rows, scope) {
        Outcome::Changed(class) => Outcome::Changed(class),
        Outcome::False => Outcome::False,
        Outcome::Same => recheck_starts(known, rows, scope),
    }
}

/// Does what disequalities ask until they ask nothing more, where all else is settled but those that are looked at.
/// False: what is known can't be true.
pub fn settle(known: &Known, rows: &mut [Row], first: Scope) -> bool
    requires sound { IsSound (pure_of known.now) rows.old }
    requires rest { SettledElsewhere (pure_of known.now) rows.old first }
    ensures yes { result ≡ true → (IsSound (pure_of known.now) rows.new × IsStable (pure_of known.now) rows.new) }
    ensures no { result ≡ false → IsFalse (pure_of known.now) }
{
    let mut scope = first;
    loop {
        match recheck_all(known, rows, &scope) {
            Outcome::Same => return true,
            Outcome::Changed(class) => scope = widened(&scope, class),
            Outcome::False => return false,
        }
    }
}

/// The range of a kind.
pub fn kind_range(kind: Kind) -> Range
    ensures lo { result.lo ≡ low_of kind }
    ensures hi { result.hi ≡ high_of kind }
{
    match kind {
        Kind::Int => Range {
            lo: -2_147_483_648,
            hi: 2_147_483_647,
        },
        Kind::Ptr => Range {
            lo: 0,
            hi: 4_611_686_018_427_387_903,
        },
    }
}

/// The row of a node of which its kind alone is known.
pub fn start_row(node: NodeId, kind: Kind) -> Row
    ensures { result ≡ kind_row (node, kind) }
{
    alone(node, &kind_range(kind))
}

/// Each node alone, in its kind's range.
pub fn start(alloc: Global, known: &Known) -> Result<Vec<Row>, NoMemory>
    ensures rows { IfOk result (λ rows. rows.items ≡ start_rows known.now.nodes) }
    ensures rise { RiseFrom 1 known.now.nodes }
{
    let kinds = known.nodes.kinds();
    let mut rows = Vec::with_capacity(alloc, known.nodes.all().len())?;
    rows.push(alone(NULL, &Range { lo: 0, hi: 0 }))?;
    for (node, kind) in kinds {
        rows.push(start_row(*node, *kind))?;
    }
    Ok(rows)
}

/// Does what everything known asks. Whether it can't be true.
pub fn finish(known: &Known, rows: &mut [Row]) -> bool
    requires sound { IsSound (pure_of known.now) rows.old }
    requires kinds { HasKinds (pure_of known.now) rows.old }
    ensures { IsClosed (pure_of known.now) rows.new result }
{
    if !enforce_written(known, rows) {
        return true;
    }
    if !enforce_starts(known, rows) {
        return true;
    }
    !settle(known, rows, Scope::All)
}

/// Does what one atom more asks, where what else is known is settled. Whether what is known can't be true.
pub fn include(known: &Known, rows: &mut [Row], atom: &Atom) -> bool
    requires sound { IsSound (pure_of known.now) rows.old }
    requires base { Base (pure_of known.now) atom.now }
    requires rest { SettledBut (pure_of known.now) rows.old atom.now }
    ensures { IsClosed (pure_of known.now) rows.new result }
{
    match apply(known, rows, atom) {
        Outcome::Same => false,
        Outcome::False => true,
        Outcome::Changed(class) => include_within(known, rows, atom, Scope::Class(class)),
    }
}

/// The same where disequalities that are looked at are not settled either.
pub fn include_within(known: &Known, rows: &mut [Row], atom: &Atom, first: Scope) -> bool
    requires sound { IsSound (pure_of known.now) rows.old }
    requires base { Base (pure_of known.now) atom.now }
    requires rest { SettledElsewhereBut (pure_of known.now) rows.old first atom.now }
    ensures { IsClosed (pure_of known.now) rows.new result }
{
    let mut scope = first;
    loop {
        match apply(known, rows, atom) {
            Outcome::Same => return !settle(known, rows, scope),
            Outcome::Changed(class) => scope = widened(&scope, class),
            Outcome::False => return true,
        }
    }
}

/// The same for the start of a block more.
pub fn include_start(known: &Known, rows: &mut [Row], at: NodeId) -> bool
    requires sound { IsSound (pure_of known.now) rows.old }
    requires there { IsNode known.now.nodes at }
    requires base { Base (pure_of known.now) (address_atom at) }
    requires rest { SettledElsewhereBut (pure_of known.now) rows.old (Class (row_at rows.old at).rep) (address_atom at) }
    ensures { IsClosed (pure_of known.now) rows.new result }
{
    let row = row_of(known, rows, at);
    let atom = address(at);
    include_within(known, rows, &atom, Scope::Class(row.rep))
}

/// What was entailed: the rows, and whether what is known can't be true.
#[derive(Drop)]
pub struct Closed {
    pub rows: Vec<Row>,
    pub wrong: bool,
}

/// Derives all from the beginning.
pub fn close(alloc: Global, known: &Known) -> Result<Closed, NoMemory>
    requires { IsFit (pure_of known.now) }
    ensures { IfOk result (λ closed. IsClosed (pure_of known.now) closed.rows.items closed.wrong) }
{
    let mut rows = start(alloc, known)?;
    let wrong = finish(known, rows.as_mut_slice());
    Ok(Closed { rows, wrong })
}
