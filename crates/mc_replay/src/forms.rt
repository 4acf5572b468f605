// Forms of edges.
ghost use Rattle.std.specs.Prelude.{◌≡◌, option_map};
ghost use Rattle.std.specs.Option.{option_copied};
ghost use Rattle.mc_state.specs.Named.{ind_of};
ghost use Rattle.mc_joins.specs.Steps.{are_alike, are_blocks, are_inds, are_segs, is_ind};
ghost use Rattle.mc_replay.specs.Forms.{is_form};

use mc_base::{NodeId, PredId};
use mc_state::graph::Edge;

/// A form of which both sides' edges may be.
#[derive(Clone, Copy)]
pub enum Form {
    /// Blocks of one struct.
    Blocks,
    /// Inds of one predicate.
    Inds,
    /// Segs of one predicate.
    Segs,
}

/// Whether two edges are Blocks of one struct.
fn are_blocks(left: &Edge, right: &Edge) -> bool
    ensures { result ≡ are_blocks left.now right.now }
{
    match left {
        Edge::Block { shape, .. } => right.has_shape(*shape),
        Edge::Ind { .. } => false,
        Edge::Seg { .. } => false,
    }
}

/// The arguments of an edge that is an Ind of a predicate.
pub fn ind_args(pred: PredId, edge: &Edge) -> Option<&[NodeId]>
    ensures { option_copied result ≡ option_map (λ i. i.args) (ind_of pred (Some edge.now)) }
{
    match edge {
        Edge::Ind {
            pred: own,
            args,
            ..
        } => {
            if own.0 == pred.0 {
                Some(args.as_slice())
            } else {
                None
            }
        }
        Edge::Block { .. } => None,
        Edge::Seg { .. } => None,
    }
}

/// Whether two edges are Inds of one predicate.
fn are_inds(left: &Edge, right: &Edge) -> bool
    ensures { result ≡ are_inds left.now right.now }
{
    match left {
        Edge::Ind { pred, .. } => ind_args(*pred, right).is_some(),
        Edge::Block { .. } => false,
        Edge::Seg { .. } => false,
    }
}

/// Whether two edges are Segs of one predicate.
fn are_segs(left: &Edge, right: &Edge) -> bool
    ensures { result ≡ are_segs left.now right.now }
{
    match (left, right) {
        (Edge::Seg { pred, .. }, Edge::Seg { pred: own, .. }) => pred.0 == own.0,
        (Edge::Seg { .. }, Edge::Block { .. }) => false,
        (Edge::Seg { .. }, Edge::Ind { .. }) => false,
        (Edge::Block { .. }, Edge::Block { .. }) => false,
        (Edge::Block { .. }, Edge::Ind { .. }) => false,
        (Edge::Block { .. }, Edge::Seg { .. }) => false,
        (Edge::Ind { .. }, Edge::Block { .. }) => false,
        (Edge::Ind { .. }, Edge::Ind { .. }) => false,
        (Edge::Ind { .. }, Edge::Seg { .. }) => false,
    }
}

/// Whether two edges are of a form.
pub fn is_form(form: Form, left: &Edge, right: &Edge) -> bool
    ensures { result ≡ is_form form left.now right.now }
{
    match form {
        Form::Blocks => are_blocks(left, right),
        Form::Inds => are_inds(left, right),
        Form::Segs => are_segs(left, right),
    }
}

/// Whether an edge is an Ind.
pub fn is_ind(edge: &Edge) -> bool
    ensures { result ≡ is_ind edge.now }
{
    match edge {
        Edge::Ind { .. } => true,
        Edge::Block { .. } => false,
        Edge::Seg { .. } => false,
    }
}

/// Whether two edges are of one form.
pub fn are_alike(left: &Edge, right: &Edge) -> bool
    ensures { result ≡ are_alike left.now right.now }
{
    is_form(Form::Blocks, left, right)
        || is_form(Form::Inds, left, right)
        || is_form(Form::Segs, left, right)
}
