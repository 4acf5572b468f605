// Terms for the names of a rule at a goal.
ghost use Rattle.std.specs.Prelude.{◌≡◌, ◌+ℤ◌, ◌++◌, ◌∷◌, List, Some, None, IfOk, IsTrue, MatchOption, true, false, length, map, option_map};
ghost use Rattle.std.specs.List.{AllByRecursion};
ghost use Rattle.mc_base.specs.declared.ids.NodeId.{NodeId as Node};
ghost use Rattle.mc_flow.specs.declared.defs.rules.DefAtom.{DefAtom as Statement};
ghost use Rattle.mc_state.specs.Facts.{IsFalse};
ghost use Rattle.mc_state.specs.Terms.{plain, plus, term_of, base_term, atom_on};
ghost use Rattle.mc_state.specs.Known.{Test, Tells};
ghost use Rattle.mc_cover.specs.Terms.{atoms_known, with_fixed};
ghost use Rattle.mc_cover.specs.Marks.{named_with};
ghost use Rattle.mc_cover.specs.Search.Terms.{is_near, all_near, IntroducesFar, IsSmall, AddsSmall};

use crate::Goal;
use crate::search::laws::terms_are_near;
use crate::search::terms::{all_lie_in, are_different, are_equal, lies_between, plain};
use mc_base::{NoMemory, NodeId};
use mc_flow::defs::{Def, DefAtom, Rule};
use mc_state::Term;
use mc_symbolic::State;
use std::alloc::Global;

/// The greatest offset, 2^62 + 2^32.
const FARTHEST: i64 = 4_611_686_022_722_355_200;

// How many names there is room for at first.
const ROOM: usize = 8;

/// The term of a name.
pub fn term_at(names: &[Term], name: u64) -> Term
    ensures { result ≡ term_of names.now name }
{
    match names.get(name as usize) {
        Some(term) => *term,
        None => plain(NodeId(0)),
    }
}

/// The term of the base of a sum.
pub fn base_at(names: &[Term], base: Option<u64>) -> Term
    ensures { result ≡ base_term names.now base }
{
    match base {
        Some(name) => term_at(names, name),
        None => plain(NodeId(0)),
    }
}

// Whether the number lies within the bounds of offsets.
fn is_near(add: i64) -> bool
    ensures { result ≡ is_near add }
{
    -FARTHEST <= add && add <= FARTHEST
}

// Whether the numbers of all terms do.
fn all_near(terms: &[Term]) -> bool
    ensures { result ≡ all_near terms.now }
{
    for term in terms {
        if !is_near(term.add) {
            return false;
        }
    }
    true
}

// A term and a number more. None where that lies outside the bounds.
fn moved(base: &Term, add: i64) -> Option<Term>
    ensures { MatchOption result (is_near (base.now.add +ℤ add) ≡ false) (λ sum. sum ≡ plus base.now add) }
{
    match base.add.checked_add(add) {
        None => None,
        Some(sum) => Some(Term {
            node: base.node,
            add: sum,
        }),
    }
}

// The same where both numbers are known to be near enough.
fn moved_near(base: &Term, add: i64) -> Term
    requires near { is_near base.now.add ≡ true }
    requires small { IsSmall add }
    ensures { result ≡ plus base.now add }
{
    Term {
        node: base.node,
        add: base.add + add,
    }
}

// The sum of a base and a number, where all names are near and the number is small.
fn sum(names: &[Term], base: Option<u64>, add: i64) -> Term
    requires near { all_near names.now ≡ true }
    requires small { IsSmall add }
    ensures { result ≡ plus (base_term names.now base) add }
{
    let from = base_at(names, base);
    moved_near(&from, add)
}

// Whether an atom is entailed of the terms of names.
fn is_known(state: &State, names: &[Term], atom: DefAtom) -> bool
    requires near { all_near names.now ≡ true }
    requires small { AddsSmall atom }
    ensures { (know : Test) → Tells know state.now → result ≡ know (atom_on names.now atom) }
{
    match atom {
        DefAtom::Eq {
            left,
            base,
            add,
            ..
        } => are_equal(state, &term_at(names, left), &sum(names, base, add)),
        DefAtom::Ne { left, base, add } => {
            are_different(state, &term_at(names, left), &sum(names, base, add))
        }
        DefAtom::In { left, lo, hi } => lies_between(state, &term_at(names, left), lo, hi),
    }
}

// Whether all atoms are.
fn all_known(state: &State, names: &[Term], atoms: &[DefAtom]) -> bool
    requires near { all_near names.now ≡ true }
    requires small { AllByRecursion AddsSmall atoms.now }
    ensures { (know : Test) → Tells know state.now → result ≡ atoms_known know names.now atoms.now }
{
    for atom in atoms {
        if !is_known(state, names, *atom) {
            return false;
        }
    }
    true
}

// Adds the name that an atom introduces, if it does. With false its number lies outside the bounds.
fn push_sum(names: &mut Vec<Term>, atom: DefAtom) -> Result<bool, NoMemory>
    ensures made { IfOk result (λ near. IsTrue near → (rest : List Statement) → with_fixed names.new.items rest
        ≡ with_fixed names.old.items (atom ∷ rest)) }
    ensures far { IfOk result (λ near. near ≡ false → IntroducesFar names.old.items atom) }
{
    let DefAtom::Eq {
        base,
        add,
        fixes: true,
        ..
    } = atom
    else {
        return Ok(true);
    };
    let from = base_at(names, base);
    match moved(&from, add) {
        None => Ok(false),
        Some(term) => {
            names.push(term)?;
            Ok(true)
        }
    }
}

// Adds the names that atoms introduce. With false one of them has a number outside the bounds.
fn push_fixed(names: &mut Vec<Term>, atoms: &[DefAtom]) -> Result<bool, NoMemory>
    ensures made { IfOk result (λ near. IsTrue near → names.new.items ≡ with_fixed names.old.items atoms.now) }
    ensures far { IfOk result (λ near. near ≡ false → all_near (with_fixed names.old.items atoms.now) ≡ false) }
{
    for atom in atoms {
        if !push_sum(names, *atom)? {
            return Ok(false);
        }
    }
    Ok(true)
}

/// The term and the arguments of a goal.
pub fn front_names(alloc: Global, goal: &Goal) -> Result<Vec<Term>, NoMemory>
    ensures { IfOk result (λ names. names.items ≡ goal.now.at ∷ goal.now.args) }
{
    let mut names = Vec::with_capacity(alloc, ROOM)?;
    names.push(goal.at)?;
    for arg in goal.args.as_slice() {
        names.push(*arg)?;
    }
    Ok(names)
}

/// Terms for all names of a rule, where the first are those of a goal and of so many contents. None where they do not fit.
pub fn names_with(
    state: &State,
    mut names: Vec<Term>,
    held: usize,
    goal: &Goal,
    def: &Def,
    rule: &Rule,
) -> Result<Option<Vec<Term>>, NoMemory>
    requires sound { IsFalse state.now → ⊥ }
    requires small { AllByRecursion AddsSmall rule.now.atoms }
    ensures { IfOk result (λ made. (know : Test) → Tells know state.now → (contents : List Node) → names.items
        ≡ goal.now.at ∷ (goal.now.args ++ map plain contents) → length contents ≡ held
        → option_map (λ v. record { rule = rule.now; names = v.items }) made
        ≡ named_with know goal.now def.now rule.now contents) }
{
    terms_are_near(state);
    if goal.args.len() != def.params.len() || held != rule.contents.len() {
        return Ok(None);
    }
    if !push_fixed(&mut names, rule.atoms.as_slice())? {
        return Ok(None);
    }
    if !all_near(&names) {
        return Ok(None);
    }
    if all_lie_in(state, rule.names.as_slice(), &names)
        && all_known(state, &names, rule.atoms.as_slice())
    {
        Ok(Some(names))
    } else {
        Ok(None)
    }
}
