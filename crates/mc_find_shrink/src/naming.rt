// The names of rules, as far as they are known.
use mc_base::{NoMemory, NodeId};
use mc_find_paths::trail::plain;
use mc_flow::defs::{Def, DefAtom, Rule};
use mc_state::Term;
use mc_state::graph::Edge;
use std::alloc::Global;

/// The term of a name, where it is known.
pub fn known_name(names: &[Option<Term>], name: u64) -> Option<Term> {
    names.get(name as usize).copied().flatten()
}

/// A term and a number more.
fn moved(term: Term, add: i64) -> Option<Term> {
    term.add.checked_add(add).map(|sum| Term {
        node: term.node,
        add: sum,
    })
}

/// The term of a base.
fn base_term(names: &[Option<Term>], base: Option<u64>) -> Option<Term> {
    match base {
        Some(name) => known_name(names, name),
        None => Some(plain(NodeId(0))),
    }
}

/// Gives a name that is not known a term; whether it was given one.
fn learn(names: &mut Vec<Option<Term>>, name: u64, term: Option<Term>) -> bool {
    let Some(term) = term else {
        return false;
    };
    match names.get_mut(name as usize) {
        Some(slot) => {
            if slot.is_some() {
                return false;
            }
            *slot = Some(term);
            true
        }
        None => false,
    }
}

/// Learns from an equality; whether something was learnt.
fn learn_equality(names: &mut Vec<Option<Term>>, left: u64, base: Option<u64>, add: i64) -> bool {
    let from = base_term(names.as_slice(), base);
    if let Some(term) = from {
        return learn(names, left, moved(term, add));
    }
    let Some(own) = known_name(names.as_slice(), left) else {
        return false;
    };
    match (base, add.checked_neg()) {
        (Some(name), Some(less)) => learn(names, name, moved(own, less)),
        _ => false,
    }
}

/// Learns from all equalities of a rule, until nothing is learnt.
fn settle(names: &mut Vec<Option<Term>>, rule: &Rule) {
    for _ in 0..names.len() {
        let mut learnt = false;
        for atom in rule.atoms.as_slice() {
            if let DefAtom::Eq {
                left,
                base,
                add,
                ..
            } = atom
            {
                if learn_equality(names, *left, *base, *add) {
                    learnt = true;
                }
            }
        }
        if !learnt {
            return;
        }
    }
}

/// Learns the names of a call's arguments from terms, and what follows.
pub fn learn_all(names: &mut Vec<Option<Term>>, rule: &Rule, args: &[u64], terms: &[Option<Term>]) {
    for (place, name) in args.iter().enumerate() {
        learn(names, *name, terms.get(place).copied().flatten());
    }
    settle(names, rule);
}

/// Adds what the fields of a block hold.
fn push_contents(names: &mut Vec<Option<Term>>, edge: &Edge) -> Result<(), NoMemory> {
    if let Edge::Block { fields, .. } = edge {
        for field in fields.as_slice() {
            let term = match field {
                Some(node) => Some(plain(*node)),
                None => None,
            };
            names.push(term)?;
        }
    }
    Ok(())
}

/// The names of a rule at a block, as far as they follow from some of the arguments.
pub fn partial_names(
    alloc: Global,
    rule: &Rule,
    edge: &Edge,
    args: &[Option<Term>],
) -> Result<Vec<Option<Term>>, NoMemory> {
    let mut names = Vec::with_capacity(alloc, rule.names.len())?;
    names.push(Some(plain(edge.start())))?;
    names.extend_from_slice(args)?;
    push_contents(&mut names, edge)?;
    for _ in names.len()..rule.names.len() {
        names.push(None)?;
    }
    settle(&mut names, rule);
    Ok(names)
}

/// The term of a name among those that come first: the start, the parameters, what the fields of a block hold.
pub fn first_name(params: usize, edge: &Edge, name: u64) -> Option<Term> {
    if name == 0 {
        return Some(plain(edge.start()));
    }
    let Edge::Block { fields, .. } = edge else {
        return None;
    };
    let place = (name as usize).checked_sub(params.saturating_add(1))?;
    match fields.as_slice().get(place) {
        Some(Some(node)) => Some(plain(*node)),
        _ => None,
    }
}

/// The term of a name of a predicate's rule at a block, as far as it follows without the arguments.
pub fn name_at(
    alloc: Global,
    def: &Def,
    rule: &Rule,
    edge: &Edge,
    name: u64,
) -> Result<Option<Term>, NoMemory> {
    let params = def.params.len();
    let first = first_name(params, edge, name);
    if first.is_some() {
        return Ok(first);
    }
    let none = vec![in alloc; None; params]?;
    let names = partial_names(alloc, rule, edge, none.as_slice())?;
    Ok(known_name(names.as_slice(), name))
}

/// The terms as terms that are known.
pub fn as_known(alloc: Global, terms: &[Term]) -> Result<Vec<Option<Term>>, NoMemory> {
    let mut list = Vec::with_capacity(alloc, terms.len())?;
    for term in terms {
        list.push(Some(*term))?;
    }
    Ok(list)
}

/// The terms of a list, where all are known.
pub fn known_terms(alloc: Global, list: &[Option<Term>]) -> Result<Option<Vec<Term>>, NoMemory> {
    let mut terms = Vec::with_capacity(alloc, list.len())?;
    for each in list {
        match each {
            Some(term) => terms.push(*term)?,
            None => return Ok(None),
        }
    }
    Ok(Some(terms))
}

/// The arguments of a call, as far as they are known.
pub fn call_terms(
    alloc: Global,
    names: &[Option<Term>],
    args: &[u64],
) -> Result<Vec<Option<Term>>, NoMemory> {
    let mut terms = Vec::with_capacity(alloc, args.len())?;
    for name in args {
        terms.push(known_name(names, *name))?;
    }
    Ok(terms)
}
