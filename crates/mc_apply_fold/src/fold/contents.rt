// The block of a rule.
ghost use Rattle.std.specs.Prelude.{◌≡◌, ◌&&◌};
ghost use Rattle.mc_rules_logic.specs.Fold.Judges.{body_fits, is_body, is_named_too};
ghost use Rattle.mc_state.specs.Known.{Test, Tells};
ghost use Rattle.mc_state.specs.Lists.{all_both};

use crate::fold::names::{is_named, is_named_too};
use mc_base::{EdgeId, NodeId, StructId};
use mc_flow::defs::Rule;
use mc_state::graph::Edge;
use mc_symbolic::State;

/// Whether each field is known and equal to its name.
#[tactic(auto, using(mc_state::proofs::ListLemmas::all_both_steps))]
fn are_fields(s: &State, names: &[NodeId], contents: &[u64], fields: &[Option<NodeId>]) -> bool
    ensures { (know : Test) → Tells know s.now → result ≡ all_both (is_named_too know names.now) contents.now fields.now }
{
    if contents.len() != fields.len() {
        return false;
    }
    for (i, name) in contents.iter().enumerate() {
        if !is_named_too(s, names, *name, fields[i]) {
            return false;
        }
    }
    true
}

/// Whether an edge is the rule's block.
fn is_body(s: &State, names: &[NodeId], shape: StructId, contents: &[u64], edge: &Edge) -> bool
    ensures { (know : Test) → Tells know s.now → result ≡ is_body know names.now shape contents.now edge.now }
{
    match edge {
        Edge::Block {
            at,
            shape: own,
            fields,
        } => {
            own.0 == shape.0
                && is_named(s, names, 0, *at)
                && are_fields(s, names, contents, fields.as_slice())
        }
        Edge::Ind { .. } => false,
        Edge::Seg { .. } => false,
    }
}

/// Whether the named block, if the rule has one, is the rule's.
pub fn body_fits(s: &State, names: &[NodeId], by: &Rule, block: Option<EdgeId>) -> bool
    ensures { (know : Test) → Tells know s.now → result ≡ body_fits know s.now.graph.edges names.now by.now.block by.now.contents block }
{
    let Some(shape) = by.block else {
        return true;
    };
    let Some(id) = block else {
        return false;
    };
    match s.edge(id) {
        None => false,
        Some(edge) => is_body(s, names, shape, by.contents.as_slice(), edge),
    }
}
