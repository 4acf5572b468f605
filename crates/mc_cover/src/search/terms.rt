// What is entailed of terms.
ghost use Rattle.std.specs.Prelude.{◌≡◌, ◌-ℤ◌, map};
ghost use Rattle.mc_base.specs.declared.plain.Atom.TheVariants.{Ne, In};
ghost use Rattle.mc_state.specs.Terms.{plain};
ghost use Rattle.mc_state.specs.Known.{Test, Tells};
ghost use Rattle.mc_cover.specs.Terms.{equal_terms, all_equal_terms, lies_in, all_lie_in};

use mc_base::{Kind, NodeId};
use mc_state::Term;
use mc_symbolic::State;

// The term as `mc_pure` has it.
fn as_asked(term: &Term) -> mc_pure::Term
    ensures node { result.node ≡ term.now.node }
    ensures add { result.add ≡ term.now.add }
{
    mc_pure::Term {
        node: term.node,
        add: term.add,
    }
}

/// A node alone.
pub fn plain(node: NodeId) -> Term
    ensures { result ≡ plain node }
{
    Term { node, add: 0 }
}

/// Whether the terms are entailed to be equal.
pub fn are_equal(state: &State, left: &Term, right: &Term) -> bool
    ensures { (know : Test) → Tells know state.now → result ≡ equal_terms know left.now right.now }
{
    let first = as_asked(left);
    let second = as_asked(right);
    let pure = state.known();
    pure.are_equal(&first, &second)
}

/// Whether the terms are entailed to differ.
pub fn are_different(state: &State, left: &Term, right: &Term) -> bool
    ensures { (know : Test) → Tells know state.now → result ≡ know (Ne left.now.node right.now.node (right.now.add -ℤ left.now.add)) }
{
    let first = as_asked(left);
    let second = as_asked(right);
    let pure = state.known();
    pure.are_different(&first, &second)
}

/// Whether the term is entailed to lie from `lo` to `hi`.
pub fn lies_between(state: &State, term: &Term, lo: i64, hi: i64) -> bool
    ensures { (know : Test) → Tells know state.now → result ≡ know (In term.now.node (lo -ℤ term.now.add) (hi -ℤ term.now.add)) }
{
    let asked = as_asked(term);
    let pure = state.known();
    pure.lies_in(&asked, lo, hi)
}

// Whether the term is entailed to lie in the range of a kind.
fn lies_in(state: &State, kind: Kind, term: &Term) -> bool
    ensures { (know : Test) → Tells know state.now → result ≡ lies_in know kind term.now }
{
    match kind {
        Kind::Int => lies_between(state, term, -2147483648, 2147483647),
        Kind::Ptr => lies_between(state, term, 0, 4611686018427387903),
    }
}

/// Whether there is one term for each kind, which lies in its range.
#[tactic(auto, using(mc_state::proofs::ListLemmas::all_both_steps))]
pub fn all_lie_in(state: &State, kinds: &[Kind], terms: &[Term]) -> bool
    ensures { (know : Test) → Tells know state.now → result ≡ all_lie_in know kinds.now terms.now }
{
    if kinds.len() != terms.len() {
        return false;
    }
    for (i, kind) in kinds.iter().enumerate() {
        if !lies_in(state, *kind, &terms[i]) {
            return false;
        }
    }
    true
}

/// Whether the terms of two lists are entailed equal one by one, and the lists are of one length.
#[tactic(auto, using(mc_state::proofs::ListLemmas::all_both_steps))]
pub fn are_all_equal(state: &State, left: &[Term], right: &[Term]) -> bool
    ensures { (know : Test) → Tells know state.now → result ≡ all_equal_terms know left.now right.now }
{
    if left.len() != right.len() {
        return false;
    }
    for (i, term) in left.iter().enumerate() {
        if !are_equal(state, term, &right[i]) {
            return false;
        }
    }
    true
}
