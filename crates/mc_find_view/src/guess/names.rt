// Terms for the names of a rule, of which some have none yet.
ghost use Rattle.std.specs.Prelude.{◌≡◌, ◌-ℤ◌, ◌++◌, pos, replicate, map, length, slice_set, Some, None, IfOk, OnOk};
ghost use Rattle.mc_flow.specs.declared.defs.rules.Rule.{Rule as Declared};
ghost use Rattle.mc_state.specs.Terms.{plain};
ghost use Rattle.mc_state.specs.Guess.{given, give, bounded, moved_by, base_given, give_base, by_atom, by_atoms, by_passes, give_all, begun, or_zero, parameters_of};

use mc_base::{NULL, NoMemory, NodeId};
use mc_cover::search::plain;
use mc_flow::defs::{DefAtom, Rule};
use mc_state::Term;
use std::alloc::Global;

/// The greatest offset, 2^62 + 2^32.
const FARTHEST: i64 = 4_611_686_022_722_355_200;

/// The term of a name, if it has one.
#[tactic(auto, using(crate::proofs::GuessLemmas::Given::given_at))]
pub fn given(names: &[Option<Term>], name: u64) -> Option<Term>
    ensures { result ≡ given names.now name }
{
    names.get(name as usize).copied().flatten()
}

/// Puts a term in the place of a name, if there is such a name.
fn put(names: &mut Vec<Option<Term>>, name: u64, new: Option<Term>)
    ensures { names.new.items ≡ slice_set names.old.items name new }
{
    let place = name as usize;
    if place < names.len() {
        names[place] = new;
    }
}

/// Gives a name a term, if it has none yet.
#[tactic(auto, using(crate::proofs::GuessLemmas::Given::give_is))]
fn give(names: &mut Vec<Option<Term>>, name: u64, new: Option<Term>)
    ensures { names.new.items ≡ give names.old.items name new }
{
    match given(names.as_slice(), name) {
        Some(_own) => {}
        None => put(names, name, new),
    }
}

/// The term, if its number lies within the bounds of offsets.
fn bounded(term: Term) -> Option<Term>
    ensures { result ≡ bounded term }
{
    if -FARTHEST <= term.add && term.add <= FARTHEST {
        Some(term)
    } else {
        None
    }
}

/// The term and a number more, if there is a term and the sum lies within the bounds of offsets.
fn moved_by(add: i64, base: Option<Term>) -> Option<Term>
    ensures { result ≡ moved_by add base }
{
    let Some(term) = base else {
        return None;
    };
    let Some(sum) = term.add.checked_add(add) else {
        return None;
    };
    bounded(Term {
        node: term.node,
        add: sum,
    })
}

/// The term and a number less, in the same way.
fn moved_back(add: i64, base: Option<Term>) -> Option<Term>
    ensures { result ≡ moved_by (pos 0 -ℤ add) base }
{
    let Some(term) = base else {
        return None;
    };
    let Some(difference) = term.add.checked_sub(add) else {
        return None;
    };
    bounded(Term {
        node: term.node,
        add: difference,
    })
}

/// The term of a base: that of a name, if it has one, or zero.
fn base_given(names: &[Option<Term>], base: Option<u64>) -> Option<Term>
    ensures { result ≡ base_given names.now base }
{
    match base {
        Some(name) => given(names, name),
        None => Some(plain(NULL)),
    }
}

/// Gives the name of a base a term, if it has none yet.
fn give_base(names: &mut Vec<Option<Term>>, base: Option<u64>, new: Option<Term>)
    ensures { names.new.items ≡ give_base names.old.items base new }
{
    match base {
        Some(name) => give(names, name, new),
        None => {}
    }
}

/// An equality with one side given gives the other.
fn settle_atom(names: &mut Vec<Option<Term>>, atom: DefAtom)
    ensures { names.new.items ≡ by_atom names.old.items atom }
{
    match atom {
        DefAtom::Eq {
            left,
            base,
            add,
            ..
        } => {
            let forth = moved_by(add, base_given(names.as_slice(), base));
            let back = moved_back(add, given(names.as_slice(), left));
            give(names, left, forth);
            give_base(names, base, back);
        }
        DefAtom::Ne { .. } => {}
        DefAtom::In { .. } => {}
    }
}

/// All atoms, in order.
fn settle_once(names: &mut Vec<Option<Term>>, atoms: &[DefAtom])
    ensures { names.new.items ≡ by_atoms names.old.items atoms.now }
{
    for atom in atoms {
        settle_atom(names, *atom);
    }
}

/// All atoms, in order, as often as there are names: then nothing changes any more.
pub fn settle(names: &mut Vec<Option<Term>>, atoms: &[DefAtom])
    ensures { names.new.items ≡ by_passes (length names.old.items) names.old.items atoms.now }
{
    let count = names.len();
    for _pass in 0..count {
        settle_once(names, atoms);
    }
}

/// Gives those of a call's arguments that have no term yet what is guessed where the call stands.
pub fn take_guess(names: &mut Vec<Option<Term>>, args: &[u64], guess: &[Term])
    ensures { names.new.items ≡ give_all names.old.items args.now guess.now }
{
    for (place, arg) in args.iter().enumerate() {
        if place >= guess.len() {
            return;
        }
        give(names, *arg, bounded(guess[place]));
    }
}

/// Adds names without a term.
fn push_unknown(names: &mut Vec<Option<Term>>, count: usize) -> Result<(), NoMemory>
    ensures { OnOk result (names.new.items ≡ names.old.items ++ replicate count None) }
{
    for _name in 0..count {
        names.push(None)?;
    }
    Ok(())
}

/// Adds the terms of nodes.
fn push_nodes(names: &mut Vec<Option<Term>>, nodes: &[NodeId]) -> Result<(), NoMemory>
    ensures { OnOk result (names.new.items ≡ names.old.items ++ map (λ n. Some (plain n)) nodes.now) }
{
    for node in nodes {
        names.push(Some(plain(*node)))?;
    }
    Ok(())
}

/// The names of a rule, where `this` and the contents have terms and no other name has one.
pub fn begin(
    alloc: Global,
    rule: &Rule,
    params: usize,
    at: Term,
    contents: &[NodeId],
) -> Result<Vec<Option<Term>>, NoMemory>
    ensures { IfOk result (λ names. names.items ≡ begun rule.now params at contents.now) }
{
    let mut names = vec![in alloc; Some(at)]?;
    push_unknown(&mut names, params)?;
    push_nodes(&mut names, contents)?;
    push_unknown(&mut names, rule.names.len())?;
    Ok(names)
}

/// The term, or zero.
fn or_zero(term: Option<Term>) -> Term
    ensures { result ≡ or_zero term }
{
    match term {
        Some(term) => term,
        None => plain(NULL),
    }
}

/// The terms of so many parameters, zero where there is none.
pub fn taken_by_parameters(
    alloc: Global,
    names: &[Option<Term>],
    count: usize,
) -> Result<Vec<Term>, NoMemory>
    ensures { IfOk result (λ terms. terms.items ≡ parameters_of names.now 1 count) }
{
    let mut terms = Vec::new(alloc);
    for place in 0..count {
        terms.push(or_zero(given(names, place as u64 + 1)))?;
    }
    Ok(terms)
}
