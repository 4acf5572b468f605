// Nodes for the names of rules.
use crate::trail::Trail;
use mc_base::{Kind, NULL, NoMemory, NodeId};
use mc_cover::search::{base_at, plain, term_at};
use mc_flow::defs::{Call, DefAtom, Rule};
use mc_lines::cert::Line;
use mc_state::Term;
use mc_state::graph::Edge;
use mc_symbolic::State;
use std::alloc::Global;

/// A term and a number more.
fn moved(term: &Term, add: i64) -> Term {
    match term.add.checked_add(add) {
        Some(sum) => Term {
            node: term.node,
            add: sum,
        },
        None => *term,
    }
}

/// Adds the contents of a block, null for a field that is not known.
pub fn push_contents(names: &mut Vec<Term>, edge: Option<&Edge>) -> Result<(), NoMemory> {
    let Some(Edge::Block { fields, .. }) = edge else {
        return Ok(());
    };
    for field in fields.as_slice() {
        names.push(plain(field.unwrap_or(NULL)))?;
    }
    Ok(())
}

/// Adds the names that a rule's atoms introduce.
pub fn push_fixed(names: &mut Vec<Term>, rule: &Rule) -> Result<(), NoMemory> {
    for atom in rule.atoms.as_slice() {
        if let DefAtom::Eq {
            base,
            add,
            fixes: true,
            ..
        } = atom
        {
            let from = base_at(names.as_slice(), *base);
            names.push(moved(&from, *add))?;
        }
    }
    Ok(())
}

/// The terms of the arguments of a call.
pub fn call_args(alloc: Global, names: &[Term], call: &Call) -> Result<Vec<Term>, NoMemory> {
    let mut args = Vec::with_capacity(alloc, call.args.len())?;
    for name in call.args.as_slice() {
        args.push(term_at(names, *name))?;
    }
    Ok(args)
}

/// Whether a node is equal to a term.
fn is_at(state: &State, node: NodeId, term: &Term) -> bool {
    let left = mc_pure::Term { node, add: 0 };
    let right = mc_pure::Term {
        node: term.node,
        add: term.add,
    };
    state.known().are_equal(&left, &right)
}

/// The node of a kind that is equal to a term, if there is one: the term's own, null, or the least of the others.
pub fn own_node(state: &State, kind: Kind, term: &Term) -> Option<NodeId> {
    if term.add == 0 && state.has_kind(kind, term.node) {
        return Some(term.node);
    }
    if is_at(state, NULL, term) {
        return Some(NULL);
    }
    for node in state.nodes() {
        if state.has_kind(kind, *node) && is_at(state, *node, term) {
            return Some(*node);
        }
    }
    None
}

impl Trail<'_> {
    /// A node of a kind for a term: an equal one that is there, or a new one. None where there can be none.
    pub fn name(&mut self, kind: Kind, term: &Term) -> Result<Option<NodeId>, NoMemory> {
        let Some(state) = self.state() else {
            return Ok(None);
        };
        if let Some(node) = own_node(state, kind, term) {
            return Ok(Some(node));
        }
        let node = state.next_node();
        if self.apply(Line::L8(term.node, term.add, kind))? {
            Ok(Some(node))
        } else {
            Ok(None)
        }
    }

    /// Nodes of these kinds for terms. None where one of them can have none.
    pub fn name_all(
        &mut self,
        alloc: Global,
        kinds: &[Kind],
        terms: &[Term],
    ) -> Result<Option<Vec<NodeId>>, NoMemory> {
        let mut nodes = Vec::with_capacity(alloc, terms.len())?;
        for (place, term) in terms.iter().enumerate() {
            let Some(kind) = kinds.get(place) else {
                return Ok(None);
            };
            match self.name(*kind, term)? {
                Some(node) => nodes.push(node)?,
                None => return Ok(None),
            }
        }
        Ok(Some(nodes))
    }
}
