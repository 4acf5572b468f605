// Folds that are not there, since nothing lies where a rule goes on.
use crate::Manner;
use crate::naming::first_name;
use mc_base::{EdgeId, NULL, NodeId, PredId};
use mc_flow::defs::{Call, Def, DefAtom, Rule};
use mc_state::graph::Edge;
use mc_symbolic::State;

/// What a fold may take: the edges of a state that are not barred.
#[derive(Clone, Copy)]
pub struct Ground<'a> {
    pub manner: Manner<'a>,
    pub state: &'a State,
    pub barred: &'a [EdgeId],
}

/// Whether a rule asks that it stands at null.
fn asks_null(rule: &Rule) -> bool {
    rule.atoms.as_slice().iter().any(|atom| match atom {
        DefAtom::Eq {
            left: 0,
            base: None,
            add: 0,
            ..
        } => true,
        _ => false,
    })
}

/// Whether a rule has a block of the edge's struct.
pub fn takes_block(rule: &Rule, edge: &Edge) -> bool {
    match rule.block {
        Some(shape) => edge.has_shape(shape),
        None => false,
    }
}

/// The edges at a node that may be taken.
#[derive(Clone, Copy)]
enum Others<'a> {
    Nothing,
    One(&'a Edge),
    More,
}

/// The one call by which a predicate may go on behind a block.
fn only_call<'a>(def: &'a Def, edge: &Edge) -> Option<&'a Call> {
    let mut only = None;
    for rule in def.rules.as_slice() {
        if takes_block(rule, edge) {
            if only.is_some() || rule.calls.len() != 1 {
                return None;
            }
            only = rule.calls.get(0);
        }
    }
    only
}

/// Where a predicate goes on behind an edge, if it can go on there alone.
fn next_behind(pred: PredId, def: &Def, edge: &Edge) -> Option<NodeId> {
    match edge {
        Edge::Ind { .. } => None,
        Edge::Seg { pred: own, end, .. } => { if *own == pred { Some(*end) } else { None } }
        Edge::Block { .. } => {
            let call = only_call(def, edge)?;
            if call.pred != pred {
                return None;
            }
            let term = first_name(def.params.len(), edge, call.at)?;
            Some(term.node)
        }
    }
}

impl<'a> Ground<'a> {
    /// The edges other than one that may be taken at a node.
    fn others(&self, own: EdgeId, node: NodeId) -> Others<'a> {
        let mut found = Others::Nothing;
        let state = self.state;
        for entry in state.edges() {
            let is_free = entry.0 != own && !self.barred.contains(&entry.0);
            if is_free && state.are_equal(entry.1.start(), node) {
                match found {
                    Others::Nothing => found = Others::One(&entry.1),
                    _ => return Others::More,
                }
            }
        }
        found
    }

    /// Whether a predicate may hold at a node by a rule without a block.
    fn may_be_empty(&self, def: &Def, node: NodeId) -> bool {
        for rule in def.rules.as_slice() {
            if rule.block.is_none() && (!asks_null(rule) || self.state.are_equal(node, NULL)) {
                return true;
            }
        }
        false
    }

    /// Whether a predicate may hold at a node beside an edge: as far as there is one way on, it leads to where it may end.
    fn may_hold(&self, own: EdgeId, pred: PredId, def: &Def, node: NodeId) -> bool {
        let mut at = node;
        for _ in 0..=self.state.edges().len() {
            if self.may_be_empty(def, at) {
                return true;
            }
            match self.others(own, at) {
                Others::Nothing => return false,
                Others::More => return true,
                Others::One(edge) => match next_behind(pred, def, edge) {
                    Some(next) => at = next,
                    None => return true,
                },
            }
        }
        true
    }

    /// Whether a call of a predicate's rule may be met, where the rule takes a block.
    fn may_meet(&self, own: EdgeId, edge: &Edge, def: &Def, call: &Call) -> bool {
        let Some(term) = first_name(def.params.len(), edge, call.at) else {
            return true;
        };
        let defs = self.manner.sight.defs.as_slice();
        match defs.get(call.pred.0 as usize) {
            Some(called) => self.may_hold(own, call.pred, called, term.node),
            None => true,
        }
    }

    /// Whether a rule of a predicate may take a block.
    fn may_take(&self, own: EdgeId, edge: &Edge, def: &Def, rule: &Rule) -> bool {
        if !takes_block(rule, edge) {
            return false;
        }
        for call in rule.calls.as_slice() {
            if !self.may_meet(own, edge, def, call) {
                return false;
            }
        }
        true
    }

    /// Whether a predicate may have a cover that begins at an edge. Without, there is none but an edge that is there.
    pub fn may_cover(&self, own: EdgeId, edge: &Edge, pred: PredId, def: &Def) -> bool {
        let is_block = match edge {
            Edge::Block { .. } => true,
            Edge::Ind { .. } => false,
            Edge::Seg { .. } => false,
        };
        if !is_block || self.may_hold(own, pred, def, edge.start()) {
            return true;
        }
        for rule in def.rules.as_slice() {
            if self.may_take(own, edge, def, rule) {
                return true;
            }
        }
        false
    }
}
