// Two edges that become one.
ghost use Rattle.std.specs.Prelude.{◌≡◌, ◌∷◌, [], IfOk, OnOk};
ghost use Rattle.mc_apply_fold.specs.Change.Named.{AreEdgesHere};
ghost use Rattle.mc_rules_logic.specs.Fold.Judges.{with_fold};
ghost use Rattle.mc_state.specs.Graph.Edges.{nodes_of};
ghost use Rattle.mc_state.specs.declared.graph.edge.Edge.TheVariants.{Ind, Seg};
ghost use Rattle.mc_state.specs.Named.{other_edge};
ghost use Rattle.mc_pure.specs.Pure.{Kinds};
ghost use Rattle.mc_state.specs.Fits.{AreNodes};
ghost use Rattle.std.specs.Option.{option_copied};

use crate::change::single::single;
use mc_base::{Args, EdgeId, NoMemory, NodeId, PredId};
use mc_state::graph::Edge;
use mc_symbolic::State;
use mc_symbolic::changes::take_edges;
use std::alloc::Global;

/// The second edge, if it is another one.
pub fn other_edge(s: &State, first: EdgeId, second: EdgeId) -> Option<&Edge>
    ensures { option_copied result ≡ other_edge s.now.graph.edges first second }
{
    if second.0 == first.0 {
        None
    } else {
        s.edge(second)
    }
}

/// The nodes as a list of their own.
fn args_of(alloc: Global, nodes: &[NodeId]) -> Result<Args<NodeId>, NoMemory>
    ensures { IfOk result (λ args. args ≡ nodes.now) }
{
    let mut args = Args::new(alloc);
    for node in nodes {
        args.push(*node)?;
    }
    Ok(args)
}

/// An Ind.
pub fn ind(alloc: Global, at: &NodeId, args: &[NodeId], pred: &PredId) -> Result<Edge, NoMemory>
    ensures edge { IfOk result (λ e. e ≡ Ind at.now pred.now args.now) }
    ensures there { (kinds : Kinds) → AreNodes kinds (at.now ∷ args.now)
        → IfOk result (λ e. AreNodes kinds (nodes_of e)) }
{
    let args = args_of(alloc, args)?;
    Ok(Edge::Ind {
        at: *at,
        pred: *pred,
        args,
    })
}

/// A Seg.
pub fn seg(
    alloc: Global,
    at: &NodeId,
    args: &[NodeId],
    pred: &PredId,
    end: &NodeId,
    ends: &[NodeId],
) -> Result<Edge, NoMemory>
    ensures edge { IfOk result (λ e. e ≡ Seg at.now args.now pred.now end.now ends.now) }
    ensures there { (kinds : Kinds) → AreNodes kinds (at.now ∷ args.now) → AreNodes kinds (end.now ∷ ends.now)
        → IfOk result (λ e. AreNodes kinds (nodes_of e)) }
{
    let args = args_of(alloc, args)?;
    let end_args = args_of(alloc, ends)?;
    Ok(Edge::Seg {
        at: *at,
        args,
        pred: *pred,
        end: *end,
        end_args,
    })
}

/// Where all nodes of edges are there, so are those of the edges that ids name.
pub fn named_edges_are_here()
    ensures { AreEdgesHere }
{}

/// Puts an edge in place of two. Without memory the state is lost.
pub fn put_for_two(s: &mut State, first: EdgeId, second: EdgeId, edge: Edge) -> Result<(), NoMemory>
    requires { AreNodes s.old.kinds (nodes_of edge) }
    ensures { OnOk result (s.new ≡ with_fold s.old (first ∷ second ∷ []) edge) }
{
    take_edges(s, &[first, second])?;
    s.add_edge(edge)?;
    Ok(())
}

/// A copy of the state with an edge in place of two.
pub fn with_one(
    alloc: Global,
    s: &State,
    first: EdgeId,
    second: EdgeId,
    edge: Edge,
) -> Result<Vec<State>, NoMemory>
    requires { AreNodes s.now.kinds (nodes_of edge) }
    ensures { IfOk result (λ next. next.items ≡ with_fold s.now (first ∷ second ∷ []) edge ∷ []) }
{
    let mut next = s.copy(alloc)?;
    put_for_two(&mut next, first, second, edge)?;
    single(alloc, next)
}
