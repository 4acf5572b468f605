// A guess of a predicate's arguments in which what a rule says itself comes before what its calls tell.
use crate::asked::args_at;
use crate::naming::{as_known, known_name, learn_all, name_at, partial_names};
use mc_base::{NoMemory, NodeId, PredId};
use mc_find_paths::trail::plain;
use mc_flow::defs::{Def, Rule};
use mc_state::Term;
use mc_state::graph::Edge;
use mc_symbolic::State;
use std::alloc::Global;

/// How many blocks one after the other are looked at.
const DOWNWARD: usize = 32;

/// The most edges of a state in which arguments are guessed: a guess may call itself once for each.
const DEEPEST: usize = 500;

/// The most nodes to which the ways down from a node may lead, each way counted: a guess takes them all.
const MOST: usize = 2_000;

/// A node to which a way down leads, and how many blocks lie before it.
#[derive(Clone, Copy)]
struct Below {
    node: NodeId,
    depth: usize,
}

/// A block by its place, with a rule and the first call of the predicate there.
#[derive(Clone, Copy)]
struct Body {
    place: usize,
    rule: usize,
    call: usize,
}

/// Nodes as terms that are known.
fn known_nodes(alloc: Global, nodes: &[NodeId]) -> Result<Vec<Option<Term>>, NoMemory> {
    let mut list = Vec::with_capacity(alloc, nodes.len())?;
    for node in nodes {
        list.push(Some(plain(*node)))?;
    }
    Ok(list)
}

/// The first rule with the struct of a block, and its first call of the predicate.
fn body_of(pred: PredId, def: &Def, place: usize, edge: &Edge) -> Option<Body> {
    for (number, rule) in def.rules.as_slice().iter().enumerate() {
        let Some(shape) = rule.block else {
            continue;
        };
        if edge.has_shape(shape) {
            let mut at = 0;
            for (call, each) in rule.calls.as_slice().iter().enumerate() {
                if each.pred == pred {
                    at = call;
                    break;
                }
            }
            return Some(Body {
                place,
                rule: number,
                call: at,
            });
        }
    }
    None
}

/// The block of the predicate at a node.
fn body_at(state: &State, pred: PredId, def: &Def, at: NodeId) -> Option<Body> {
    for (place, entry) in state.edges().iter().enumerate() {
        if let Edge::Block { at: own, .. } = &entry.1 {
            if state.are_equal(*own, at) {
                if let Some(body) = body_of(pred, def, place, &entry.1) {
                    return Some(body);
                }
            }
        }
    }
    None
}

/// The rule of a body and its block.
fn parts_of<'a>(state: &'a State, def: &'a Def, body: Body) -> Option<(&'a Rule, &'a Edge)> {
    let rule = def.rules.as_slice().get(body.rule)?;
    let entry = state.edges().get(body.place)?;
    Some((rule, &entry.1))
}

/// The names at a body, as far as they are known without the arguments.
fn names_at(
    alloc: Global,
    state: &State,
    def: &Def,
    body: Body,
) -> Result<Vec<Option<Term>>, NoMemory> {
    let none = vec![in alloc; None; def.params.len()]?;
    match parts_of(state, def, body) {
        Some((rule, edge)) => partial_names(alloc, rule, edge, none.as_slice()),
        None => Ok(Vec::new(alloc)),
    }
}

/// Where the call at a body stands.
fn call_node(
    alloc: Global,
    state: &State,
    def: &Def,
    pred: PredId,
    body: Body,
) -> Result<Option<NodeId>, NoMemory> {
    let Some((rule, edge)) = parts_of(state, def, body) else {
        return Ok(None);
    };
    let Some(call) = rule.calls.as_slice().get(body.call) else {
        return Ok(None);
    };
    if call.pred != pred {
        return Ok(None);
    }
    match name_at(alloc, def, rule, edge, call.at)? {
        Some(term) => {
            if term.add == 0 {
                Ok(Some(term.node))
            } else {
                Ok(None)
            }
        }
        None => Ok(None),
    }
}

/// Adds the nodes at which the calls of a body stand.
fn push_calls(
    alloc: Global,
    open: &mut Vec<Below>,
    state: &State,
    pred: PredId,
    def: &Def,
    from: Below,
) -> Result<(), NoMemory> {
    if args_at(state, pred, from.node).is_some() {
        return Ok(());
    }
    let Some(body) = body_at(state, pred, def, from.node) else {
        return Ok(());
    };
    let Some((rule, edge)) = parts_of(state, def, body) else {
        return Ok(());
    };
    for call in rule.calls.as_slice() {
        if call.pred == pred {
            if let Some(term) = name_at(alloc, def, rule, edge, call.at)? {
                open.push(Below {
                    node: term.node,
                    depth: from.depth.saturating_add(1),
                })?;
            }
        }
    }
    Ok(())
}

/// Whether a guess at a node ends soon: the state has few edges, and few ways lead down from there. Where blocks share
/// what lies below them there may be more ways than any computer can go.
pub fn ends_soon(
    alloc: Global,
    state: &State,
    pred: PredId,
    def: &Def,
    at: NodeId,
) -> Result<bool, NoMemory> {
    let edges = state.edges().len();
    if edges > DEEPEST {
        return Ok(false);
    }
    let mut open = vec![in alloc; Below { node: at, depth: 0 }]?;
    for _ in 0..MOST {
        let Some(next) = open.pop() else {
            return Ok(true);
        };
        if next.depth < edges {
            push_calls(alloc, &mut open, state, pred, def, next)?;
        }
    }
    Ok(open.is_empty())
}

/// The parameters among names.
fn params_of(
    alloc: Global,
    def: &Def,
    names: &[Option<Term>],
) -> Result<Vec<Option<Term>>, NoMemory> {
    let mut list = Vec::with_capacity(alloc, def.params.len())?;
    for place in 0..def.params.len() {
        list.push(known_name(names, place as u64 + 1))?;
    }
    Ok(list)
}

/// What the first rule without a block says at a node.
fn empty_args(alloc: Global, def: &Def, at: NodeId) -> Result<Vec<Option<Term>>, NoMemory> {
    for rule in def.rules.as_slice() {
        if rule.block.is_none() {
            let mut names = vec![in alloc; Some(plain(at))]?;
            for _ in names.len()..rule.names.len() {
                names.push(None)?;
            }
            learn_all(&mut names, rule, &[], &[]);
            return params_of(alloc, def, names.as_slice());
        }
    }
    vec![in alloc; None; def.params.len()]
}

/// What a body says of its arguments, where those of its call are as told.
fn above(
    alloc: Global,
    state: &State,
    def: &Def,
    body: Body,
    told: &[Option<Term>],
) -> Result<Vec<Option<Term>>, NoMemory> {
    let mut names = names_at(alloc, state, def, body)?;
    if let Some(rule) = def.rules.as_slice().get(body.rule) {
        if let Some(call) = rule.calls.as_slice().get(body.call) {
            learn_all(&mut names, rule, call.args.as_slice(), told);
        }
    }
    params_of(alloc, def, names.as_slice())
}

/// The bodies one after the other from a node on, and what is known of the arguments after the last.
fn descend(
    alloc: Global,
    state: &State,
    pred: PredId,
    def: &Def,
    at: NodeId,
    stop: Option<(Term, &[Term])>,
) -> Result<(Vec<Body>, Vec<Option<Term>>), NoMemory> {
    let mut bodies = Vec::new(alloc);
    let mut node = at;
    for _ in 0..DOWNWARD {
        if let Some((end, ends)) = stop {
            if end.add == 0 && state.are_equal(node, end.node) {
                return Ok((bodies, as_known(alloc, ends)?));
            }
        }
        if let Some(args) = args_at(state, pred, node) {
            return Ok((bodies, known_nodes(alloc, args)?));
        }
        let Some(body) = body_at(state, pred, def, node) else {
            return Ok((bodies, empty_args(alloc, def, node)?));
        };
        bodies.push(body)?;
        match call_node(alloc, state, def, pred, body)? {
            Some(next) => node = next,
            None => break,
        }
    }
    let open = vec![in alloc; None; def.params.len()]?;
    Ok((bodies, open))
}

/// The arguments that the edges of a predicate from a node on ask for. What stays open is 0.
pub fn second_guess(
    alloc: Global,
    state: &State,
    pred: PredId,
    def: &Def,
    at: NodeId,
    stop: Option<(Term, &[Term])>,
) -> Result<Vec<Term>, NoMemory> {
    let (bodies, mut told) = descend(alloc, state, pred, def, at, stop)?;
    for behind in 0..bodies.len() {
        let left = bodies.len() - 1 - behind;
        if let Some(body) = bodies.as_slice().get(left) {
            told = above(alloc, state, def, *body, told.as_slice())?;
        }
    }
    let mut terms = Vec::with_capacity(alloc, told.len())?;
    for term in told.as_slice() {
        terms.push(term.unwrap_or(plain(NodeId(0))))?;
    }
    Ok(terms)
}
