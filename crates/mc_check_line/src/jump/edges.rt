// Edges of an arrival that are as those of a target.
ghost use Rattle.std.specs.Prelude.{◌≡◌, ◌&&◌};
ghost use Rattle.mc_kernel.specs.Judges.{is_edge, is_edge_at};
ghost use Rattle.mc_state.specs.Known.{Test, Tells};
ghost use Rattle.mc_state.specs.Lists.{all_both};

use crate::jump::images::{are_all_images, are_known_too, is_image};
use mc_base::{EdgeId, NodeId};
use mc_state::graph::Edge;
use mc_symbolic::State;

/// Whether an edge here is of the same form, struct or predicate as one there, with equal nodes. A field that is
/// unknown there may be any here.
fn is_edge(s: &State, images: &[NodeId], there: &Edge, here: &Edge) -> bool
    ensures { (know : Test) → Tells know s.now → result ≡ is_edge know images.now there.now here.now }
{
    match there {
        Edge::Block { at, shape, fields } => match here {
            Edge::Block {
                at: start,
                shape: own,
                fields: heres,
            } => {
                own.0 == shape.0
                    && is_image(s, images, *at, *start)
                    && are_known_too(s, images, fields.as_slice(), heres.as_slice())
            }
            Edge::Ind { .. } => false,
            Edge::Seg { .. } => false,
        },
        Edge::Ind { at, pred, args } => match here {
            Edge::Ind {
                at: start,
                pred: own,
                args: heres,
            } => {
                own.0 == pred.0
                    && is_image(s, images, *at, *start)
                    && are_all_images(s, images, args.as_slice(), heres.as_slice())
            }
            Edge::Block { .. } => false,
            Edge::Seg { .. } => false,
        },
        Edge::Seg {
            at,
            args,
            pred,
            end,
            end_args,
        } => match here {
            Edge::Seg {
                at: start,
                args: heres,
                pred: own,
                end: stop,
                end_args: ends,
            } => {
                own.0 == pred.0
                    && is_image(s, images, *at, *start)
                    && are_all_images(s, images, args.as_slice(), heres.as_slice())
                    && is_image(s, images, *end, *stop)
                    && are_all_images(s, images, end_args.as_slice(), ends.as_slice())
            }
            Edge::Block { .. } => false,
            Edge::Ind { .. } => false,
        },
    }
}

/// Whether the edge with an id is as one there.
fn is_edge_at(s: &State, images: &[NodeId], there: &(EdgeId, Edge), id: EdgeId) -> bool
    ensures { (know : Test) → Tells know s.now
        → result ≡ is_edge_at know s.now.graph.edges images.now there.now id }
{
    match s.edge(id) {
        None => false,
        Some(here) => is_edge(s, images, &there.1, here),
    }
}

/// Whether the edges with these ids are as those there, one by one.
#[tactic(auto, using(mc_state::proofs::ListLemmas::all_both_steps))]
pub fn are_edges(s: &State, images: &[NodeId], theres: &[(EdgeId, Edge)], ids: &[EdgeId]) -> bool
    ensures { (know : Test) → Tells know s.now
        → result ≡ all_both (is_edge_at know s.now.graph.edges images.now) theres.now ids.now }
{
    if theres.len() != ids.len() {
        return false;
    }
    for (i, there) in theres.iter().enumerate() {
        if !is_edge_at(s, images, there, ids[i]) {
            return false;
        }
    }
    true
}
