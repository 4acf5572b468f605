// What a side gives to a step: an edge as it is, edges that are folded, or an empty segment.
ghost use Rattle.std.specs.Prelude.{◌≡◌, Some, None, IfOk, OnOk, is_some, option_map};
ghost use Rattle.mc_state.specs.declared.graph.edge.Edge.TheVariants.{Seg};
ghost use Rattle.mc_state.specs.Named.{IndParts};
ghost use Rattle.mc_state.specs.Terms.{plain};
ghost use Rattle.mc_joins.specs.Joinings.{Half as HalfSeen, across, half};
ghost use Rattle.mc_joins.specs.Parts.{Basis, as_it_is, empty_seg, guessed, standing_args, nodes_of_args};
ghost use Rattle.mc_replay.specs.Folds.{OnlyNames, seen_part, seen_ind, seen_seg, ind_with, seg_with, made_ind, made_seg};
ghost use Rattle.mc_replay.specs.Folds.{ind_fold, guessed_ind_fold, ind_fold_for, seg_fold, standing_ends, partner_ends};
ghost use Rattle.mc_replay.specs.Good.{AreGood};
ghost use Rattle.mc_replay.specs.Joined.{seen, seen_half};
ghost use Rattle.mc_replay.specs.Named.{IsGood, TellsFrom, nodes_of_both, with_named};

use crate::covers::{cover_edges, partner_or_terms, plain_all, seg_edges, standing_args};
use crate::joining::{Half, Joining};
use crate::made::args_of;
use crate::naming::{can_name, can_name_both, name_args};
use crate::pairs::{Pair, across, of_side};
use mc_base::{EdgeId, Items, NoMemory, NodeId, PredId};
use mc_cover::search::plain;
use mc_find_view::guess::guess;
use mc_flow::defs::Defs;
use mc_state::graph::Edge;
use mc_state::{Side, Term};
use std::alloc::Global;

/// What a side gives: the edge that is joined, and the edges that it uses.
#[derive(Drop)]
pub struct Part {
    pub edge: Edge,
    pub used: Vec<EdgeId>,
}

/// Edges of a side that are folded into an Ind at a node: its arguments, and the edges that it uses.
#[derive(Drop)]
pub struct IndFold {
    pub args: Vec<Term>,
    pub used: Vec<EdgeId>,
}

/// Edges of a side that are folded into a Seg to a node: its arguments, where it ends, its arguments there, and the edges
/// that it uses.
#[derive(Drop)]
pub struct SegFold {
    pub args: Vec<Term>,
    pub stop: NodeId,
    pub ends: Vec<Term>,
    pub used: Vec<EdgeId>,
}

/// An edge as it is.
pub fn as_it_is(alloc: Global, entry: &(EdgeId, Edge)) -> Result<Part, NoMemory>
    ensures { IfOk result (λ part. (h : HalfSeen) → seen_part h.state part ≡ as_it_is h entry.now) }
{
    let mut used = Vec::new(alloc);
    used.push(entry.0)?;
    Ok(Part {
        edge: entry.1.copy(alloc)?,
        used,
    })
}

/// The arguments of a side's least unused Ind or Seg of a predicate at a node, else zeros.
fn standing(
    alloc: Global,
    half: &Half,
    defs: &Defs,
    pred: PredId,
    at: NodeId,
) -> Result<Vec<NodeId>, NoMemory>
    ensures { IfOk result (λ nodes. (w : Basis) → w.defs ≡ defs.now → TellsFrom w half.now.state
        → nodes.items ≡ standing_args w (seen_half half.now) pred at) }
{
    standing_args(alloc, &half.state, defs, half.used.as_slice(), pred, at)
}

/// An empty segment at a side's node, with the same arguments at both ends.
pub fn empty_seg(
    alloc: Global,
    half: &Half,
    defs: &Defs,
    pred: PredId,
    at: NodeId,
) -> Result<Part, NoMemory>
    ensures { IfOk result (λ part. (w : Basis) → w.defs ≡ defs.now → TellsFrom w half.now.state
        → seen_part half.now.state part ≡ empty_seg w (seen_half half.now) pred at) }
{
    let nodes = standing(alloc, half, defs, pred, at)?;
    let edge = seg(alloc, at, nodes.as_slice(), pred, at, nodes.as_slice())?;
    Ok(Part {
        edge,
        used: Vec::new(alloc),
    })
}

/// What is guessed at a side's node.
fn guessed(
    alloc: Global,
    half: &Half,
    defs: &Defs,
    pred: PredId,
    at: NodeId,
) -> Result<Vec<Term>, NoMemory>
    ensures { IfOk result (λ terms. (w : Basis) → w.defs ≡ defs.now → TellsFrom w half.now.state
        → terms.items ≡ guessed w (seen_half half.now) pred at None) }
{
    guess(
        alloc,
        &half.state,
        defs,
        half.used.as_slice(),
        pred,
        plain(at),
        &None,
    )
}

/// What is guessed at a side's node, where a segment from it is to end at another.
fn guessed_to(
    alloc: Global,
    half: &Half,
    defs: &Defs,
    pred: PredId,
    at: NodeId,
    end: NodeId,
    ends: &[Term],
) -> Result<Vec<Term>, NoMemory>
    ensures { IfOk result (λ terms. (w : Basis) → w.defs ≡ defs.now → TellsFrom w half.now.state
        → terms.items ≡ guessed w (seen_half half.now) pred at (Some (plain end, ends.now))) }
{
    let stop = Some((plain(end), Items::of(Vec::from_slice(alloc, ends)?)));
    guess(
        alloc,
        &half.state,
        defs,
        half.used.as_slice(),
        pred,
        plain(at),
        &stop,
    )
}

/// Edges that make an Ind, if there are any, with its arguments.
fn ind_with(args: Vec<Term>, used: Option<Vec<EdgeId>>) -> Option<IndFold>
    ensures { option_map seen_ind result ≡ option_map (ind_with args.items) (option_map (λ ids. ids.items) used) }
{
    match used {
        Some(used) => Some(IndFold { args, used }),
        None => None,
    }
}

/// Edges that make a Seg, if there are any, with its arguments, its end and its arguments there.
fn seg_with(
    args: Vec<Term>,
    stop: NodeId,
    ends: Vec<Term>,
    used: Option<Vec<EdgeId>>,
) -> Option<SegFold>
    ensures { option_map seen_seg result ≡ option_map (seg_with args.items stop ends.items) (option_map (λ ids. ids.items) used) }
{
    match used {
        Some(used) => Some(SegFold {
            args,
            stop,
            ends,
            used,
        }),
        None => None,
    }
}

/// The fold of a side's free edges into an Ind with these arguments.
fn ind_fold(
    alloc: Global,
    join: &Joining,
    defs: &Defs,
    side: Side,
    pair: &Pair,
    pred: PredId,
    args: Vec<Term>,
) -> Result<Option<IndFold>, NoMemory>
    requires { AreGood join.now }
    ensures { IfOk result (λ fold. (w : Basis) → w.defs ≡ defs.now → TellsFrom w (half (seen join.now) side).state
        → option_map seen_ind fold ≡ ind_fold w (seen join.now) side pair.now pred args.items) }
{
    let blocked = join.blocked(alloc, side, pair)?;
    let half = join.half(side);
    let used = cover_edges(
        alloc,
        &half.state,
        defs,
        blocked.as_slice(),
        pred,
        of_side(side, pair),
        args.as_slice(),
    )?;
    Ok(ind_with(args, used))
}

/// The fold of a side's free edges into an Ind with guessed arguments.
pub fn guessed_ind(
    alloc: Global,
    join: &Joining,
    defs: &Defs,
    side: Side,
    pair: &Pair,
    pred: PredId,
) -> Result<Option<IndFold>, NoMemory>
    requires { AreGood join.now }
    ensures { IfOk result (λ fold. (w : Basis) → w.defs ≡ defs.now → TellsFrom w (half (seen join.now) side).state
        → option_map seen_ind fold ≡ guessed_ind_fold w (seen join.now) side pair.now pred) }
{
    let args = guessed(alloc, join.half(side), defs, pred, of_side(side, pair))?;
    ind_fold(alloc, join, defs, side, pair, pred, args)
}

/// The fold of the other side's free edges into an Ind for an Ind of a side with these arguments: of an argument that is
/// in a pair its first partner, of any other what is guessed.
pub fn ind_for(
    alloc: Global,
    join: &Joining,
    defs: &Defs,
    side: Side,
    pair: &Pair,
    pred: PredId,
    args: &[NodeId],
) -> Result<Option<IndFold>, NoMemory>
    requires { AreGood join.now }
    ensures { IfOk result (λ fold. (w : Basis) (i : IndParts) → w.defs ≡ defs.now
        → TellsFrom w (half (seen join.now) (across side)).state → i.args ≡ args.now
        → option_map seen_ind fold ≡ ind_fold_for w (seen join.now) side pair.now pred i) }
{
    let other = across(side);
    let found = guessed(alloc, join.half(other), defs, pred, of_side(other, pair))?;
    let terms = partner_or_terms(alloc, join.pairs.as_slice(), side, args, found.as_slice())?;
    ind_fold(alloc, join, defs, other, pair, pred, terms)
}

/// The fold of a side's free edges into a Seg to a node with end arguments, where its arguments are guessed.
fn seg_fold(
    alloc: Global,
    join: &Joining,
    defs: &Defs,
    side: Side,
    pair: &Pair,
    pred: PredId,
    end: NodeId,
    ends: Vec<Term>,
) -> Result<Option<SegFold>, NoMemory>
    requires { AreGood join.now }
    ensures { IfOk result (λ fold. (w : Basis) → w.defs ≡ defs.now → TellsFrom w (half (seen join.now) side).state
        → option_map seen_seg fold ≡ seg_fold w (seen join.now) side pair.now pred end ends.items) }
{
    let half = join.half(side);
    let at = of_side(side, pair);
    let args = guessed_to(alloc, half, defs, pred, at, end, ends.as_slice())?;
    let blocked = join.blocked(alloc, side, pair)?;
    let used = seg_edges(
        alloc,
        &half.state,
        defs,
        blocked.as_slice(),
        pred,
        at,
        args.as_slice(),
        end,
        ends.as_slice(),
    )?;
    Ok(seg_with(args, end, ends, used))
}

/// The arguments of a side's edge where a segment of a predicate is to end.
fn standing_ends(
    alloc: Global,
    join: &Joining,
    defs: &Defs,
    side: Side,
    pred: PredId,
    end: NodeId,
) -> Result<Vec<Term>, NoMemory>
    ensures { IfOk result (λ terms. (w : Basis) → w.defs ≡ defs.now → TellsFrom w (half (seen join.now) side).state
        → terms.items ≡ standing_ends w (seen join.now) side pred end) }
{
    let nodes = standing(alloc, join.half(side), defs, pred, end)?;
    plain_all(alloc, nodes.as_slice())
}

/// The fold of a side's free edges into a Seg to another pair's node, where the end arguments are those of an edge there.
pub fn seg_to(
    alloc: Global,
    join: &Joining,
    defs: &Defs,
    side: Side,
    pair: &Pair,
    pred: PredId,
    end: NodeId,
) -> Result<Option<SegFold>, NoMemory>
    requires { AreGood join.now }
    ensures { IfOk result (λ fold. (w : Basis) → w.defs ≡ defs.now → TellsFrom w (half (seen join.now) side).state
        → option_map seen_seg fold
        ≡ seg_fold w (seen join.now) side pair.now pred end (standing_ends w (seen join.now) side pred end)) }
{
    let ends = standing_ends(alloc, join, defs, side, pred, end)?;
    seg_fold(alloc, join, defs, side, pair, pred, end, ends)
}

/// The same for a Seg of the other side with end arguments: of one that is in a pair its first partner is taken.
pub fn seg_for(
    alloc: Global,
    join: &Joining,
    defs: &Defs,
    side: Side,
    pair: &Pair,
    pred: PredId,
    end: NodeId,
    others: &[NodeId],
) -> Result<Option<SegFold>, NoMemory>
    requires { AreGood join.now }
    ensures { IfOk result (λ fold. (w : Basis) → w.defs ≡ defs.now → TellsFrom w (half (seen join.now) side).state
        → option_map seen_seg fold
        ≡ seg_fold w (seen join.now) side pair.now pred end (partner_ends w (seen join.now) side pred end others.now)) }
{
    let found = standing_ends(alloc, join, defs, side, pred, end)?;
    let ends = partner_or_terms(
        alloc,
        join.pairs.as_slice(),
        across(side),
        others,
        found.as_slice(),
    )?;
    seg_fold(alloc, join, defs, side, pair, pred, end, ends)
}

/// Whether the arguments of a fold into an Ind have nodes, or such can be named.
pub fn ind_has_nodes(
    alloc: Global,
    half: &Half,
    defs: &Defs,
    pred: PredId,
    fold: &IndFold,
) -> Result<bool, NoMemory>
    requires { IsGood half.now.state }
    ensures { IfOk result (λ can. (w : Basis) → w.defs ≡ defs.now → TellsFrom w half.now.state
        → can ≡ is_some (nodes_of_args w pred half.now.state fold.now.args.items)) }
{
    can_name(alloc, &half.state, defs, pred, fold.args.as_slice())
}

/// Whether those of a fold into a Seg have nodes, or such can be named.
pub fn seg_has_nodes(
    alloc: Global,
    half: &Half,
    defs: &Defs,
    pred: PredId,
    fold: &SegFold,
) -> Result<bool, NoMemory>
    requires { IsGood half.now.state }
    ensures { IfOk result (λ can. (w : Basis) → w.defs ≡ defs.now → TellsFrom w half.now.state
        → can ≡ is_some (nodes_of_both w pred half.now.state fold.now.args.items fold.now.ends.items)) }
{
    can_name_both(
        alloc,
        &half.state,
        defs,
        pred,
        fold.args.as_slice(),
        fold.ends.as_slice(),
    )
}

/// The nodes of a predicate's arguments in a side's state. None where one can't be named; then the state is lost.
fn name_in(
    alloc: Global,
    join: &mut Joining,
    defs: &Defs,
    side: Side,
    pred: PredId,
    args: &[Term],
) -> Result<Option<Vec<NodeId>>, NoMemory>
    requires { AreGood join.old }
    ensures named { IfOk result (λ found. (w : Basis) → w.defs ≡ defs.now → TellsFrom w (half (seen join.old) side).state
        → option_map (λ nodes. with_named (half (seen join.new) side).state nodes.items) found
        ≡ nodes_of_args w pred (half (seen join.old) side).state args.now) }
    ensures only { OnOk result (OnlyNames side join.old join.new) }
{
    match side {
        Side::Left => name_args(alloc, &mut join.left.state, defs, pred, args),
        Side::Right => name_args(alloc, &mut join.right.state, defs, pred, args),
    }
}

/// The Ind into which a side's edges are folded at a pair, with nodes of its arguments. None where one of these can't be
/// named; then the state is lost.
pub fn folded_ind(
    alloc: Global,
    join: &mut Joining,
    defs: &Defs,
    side: Side,
    pair: &Pair,
    pred: PredId,
    fold: IndFold,
) -> Result<Option<Part>, NoMemory>
    requires { AreGood join.old }
    ensures made { IfOk result (λ part. (w : Basis) → w.defs ≡ defs.now → TellsFrom w (half (seen join.old) side).state
        → option_map (seen_part (half (seen join.new) side).state) part
        ≡ made_ind w (seen join.old) side pair.now pred (seen_ind fold)) }
    ensures only { OnOk result (OnlyNames side join.old join.new) }
{
    let IndFold { args, used } = fold;
    match name_in(alloc, join, defs, side, pred, args.as_slice())? {
        Some(nodes) => {
            let args = args_of(alloc, nodes.as_slice())?;
            Ok(Some(Part {
                edge: Edge::Ind {
                    at: of_side(side, pair),
                    pred,
                    args,
                },
                used,
            }))
        }
        None => Ok(None),
    }
}

/// A Seg.
fn seg(
    alloc: Global,
    at: NodeId,
    args: &[NodeId],
    pred: PredId,
    end: NodeId,
    ends: &[NodeId],
) -> Result<Edge, NoMemory>
    ensures { IfOk result (λ edge. edge ≡ Seg at args.now pred end ends.now) }
{
    Ok(Edge::Seg {
        at,
        args: args_of(alloc, args)?,
        pred,
        end,
        end_args: args_of(alloc, ends)?,
    })
}

/// The Seg into which a side's edges are folded from a pair, with nodes of its arguments and its end arguments. None where
/// one of these can't be named; then the state is lost.
pub fn folded_seg(
    alloc: Global,
    join: &mut Joining,
    defs: &Defs,
    side: Side,
    pair: &Pair,
    pred: PredId,
    fold: SegFold,
) -> Result<Option<Part>, NoMemory>
    requires { AreGood join.old }
    ensures made { IfOk result (λ part. (w : Basis) → w.defs ≡ defs.now → TellsFrom w (half (seen join.old) side).state
        → option_map (seen_part (half (seen join.new) side).state) part
        ≡ made_seg w (seen join.old) side pair.now pred (seen_seg fold)) }
    ensures only { OnOk result (OnlyNames side join.old join.new) }
{
    let SegFold {
        args,
        stop,
        ends,
        used,
    } = fold;
    let Some(first) = name_in(alloc, join, defs, side, pred, args.as_slice())? else {
        return Ok(None);
    };
    let Some(last) = name_in(alloc, join, defs, side, pred, ends.as_slice())? else {
        return Ok(None);
    };
    let edge = seg(
        alloc,
        of_side(side, pair),
        first.as_slice(),
        pred,
        stop,
        last.as_slice(),
    )?;
    Ok(Some(Part { edge, used }))
}
