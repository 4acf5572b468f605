// The steps of joins, and whether they apply.
ghost use Rattle.std.specs.Prelude.{◌≡◌, ◌&&◌, not, Some, None, IfOk, OnOk, IsSome, is_some, option_and_then, slice_get, if◌then◌else◌};
ghost use Rattle.std.specs.List.{list_any};
ghost use Rattle.std.specs.Option.{option_copied};
ghost use Rattle.mc_state.specs.Named.{ind_of};
ghost use Rattle.mc_joins.specs.Joinings.{across, half};
ghost use Rattle.mc_joins.specs.Parts.{Basis};
ghost use Rattle.mc_joins.specs.Steps.{edge_there, are_unlike, joined, joined_from, by_both, by_ind, by_folds, no_j6, no_j7};
ghost use Rattle.mc_joins.specs.Steps.{predicates, step_at, after_step, is_stuck};
ghost use Rattle.mc_replay.specs.Folds.{seen_part};
ghost use Rattle.mc_replay.specs.Forms.{is_form};
ghost use Rattle.mc_replay.specs.Good.{AreGood};
ghost use Rattle.mc_replay.specs.Joined.{seen};
ghost use Rattle.mc_replay.specs.Steps.{TellsBoth, ForTests, ComesTo, seen_ending, by_seg, no_seg, has_seg, endings_on, endings_of, closed_by};
ghost use Rattle.mc_replay.specs.Steps.{seg_found, GivesSeg, ends_to, are_pointers, both_joined, four_joined, by_either, GivesInd, five_joined};
ghost use Rattle.mc_replay.specs.Steps.{gives_way, by_step, has_both, has_fold, has_step};

use crate::folds::{
    IndFold, Part, SegFold, as_it_is, empty_seg, folded_ind, folded_seg, guessed_ind, ind_for,
    ind_has_nodes, seg_for, seg_has_nodes, seg_to,
};
use crate::forms::{Form, are_alike, ind_args, is_form, is_ind};
use crate::joining::Joining;
use crate::made::{edge_for, put_pairs};
use crate::pairs::{Pair, across, may_end, of_side};
use mc_base::{EdgeId, Kind, NoMemory, NodeId, PredId};
use mc_flow::defs::Defs;
use mc_state::graph::Edge;
use mc_state::{JoinStep, Side};
use std::alloc::Global;

/// Where a segment is to end: its predicate, the side whose edges are folded, and the number of the end's pair.
#[derive(Clone, Copy)]
pub struct Ending {
    pub pred: PredId,
    pub side: Side,
    pub place: u64,
}

/// Puts the edge that two parts make into the result, with its pairs. False where they make none.
fn put(alloc: Global, join: &mut Joining, left: Part, right: Part) -> Result<bool, NoMemory>
    requires { AreGood join.old }
    ensures good { OnOk result (AreGood join.new) }
    ensures left { OnOk result (join.new.left.state ≡ join.old.left.state) }
    ensures right { OnOk result (join.new.right.state ≡ join.old.right.state) }
    ensures joins { IfOk result (λ done.
        joined (seen join.old) (seen_part join.old.left.state left) (seen_part join.old.right.state right)
        ≡ (if done then Some (seen join.new) else None)) }
{
    put_pairs(&mut join.pairs, &left.edge, &right.edge)?;
    let Some(edge) = edge_for(alloc, join.pairs.as_slice(), &left.edge, &right.edge)? else {
        return Ok(false);
    };
    join.left.used.extend_from_slice(left.used.as_slice())?;
    join.right.used.extend_from_slice(right.used.as_slice())?;
    join.edges.push(edge)?;
    Ok(true)
}

/// The same where the first part is a side's, and the second the other's.
fn put_from(
    alloc: Global,
    join: &mut Joining,
    side: Side,
    mine: Part,
    theirs: Part,
) -> Result<bool, NoMemory>
    requires { AreGood join.old }
    ensures good { OnOk result (AreGood join.new) }
    ensures left { OnOk result (join.new.left.state ≡ join.old.left.state) }
    ensures right { OnOk result (join.new.right.state ≡ join.old.right.state) }
    ensures joins { IfOk result (λ done.
        joined_from (seen join.old) side (seen_part (half (seen join.old) side).state mine)
        (seen_part (half (seen join.old) (across side)).state theirs)
        ≡ (if done then Some (seen join.new) else None)) }
{
    match side {
        Side::Left => put(alloc, join, mine, theirs),
        Side::Right => put(alloc, join, theirs, mine),
    }
}

// ---- J6

/// The pair at a place.
fn pair_at(join: &Joining, place: u64) -> Option<Pair>
    ensures { result ≡ slice_get (seen join.now).pairs place }
{
    join.pairs.as_slice().get(place as usize).copied()
}

/// The fold of J6, which uses an edge, and the empty segment of the other side.
fn six(
    alloc: Global,
    join: &Joining,
    defs: &Defs,
    pair: &Pair,
    ending: Ending,
) -> Result<Option<(SegFold, Part)>, NoMemory>
    requires { AreGood join.now }
    ensures joins { IfOk result (λ found. ForTests defs.now join.now (λ w.
        by_seg SegStep.Six w (seen join.now) pair.now (seen_ending ending)
        ≡ seg_found SegStep.Six w (seen join.now) (seen_ending ending) pair.now found)) }
    ensures seg { IfOk result (λ found. ForTests defs.now join.now (λ w. GivesSeg found)) }
{
    let Some(end) = pair_at(join, ending.place) else {
        return Ok(None);
    };
    if !may_end(ending.side, pair, &end) {
        return Ok(None);
    }
    let stop = of_side(ending.side, &end);
    let Some(fold) = seg_to(alloc, join, defs, ending.side, pair, ending.pred, stop)? else {
        return Ok(None);
    };
    if fold.used.is_empty() {
        return Ok(None);
    }
    let other = across(ending.side);
    let theirs = empty_seg(
        alloc,
        join.half(other),
        defs,
        ending.pred,
        of_side(other, pair),
    )?;
    Ok(Some((fold, theirs)))
}

// ---- J7

/// The end arguments of an edge that is a Seg of a predicate to a node.
fn ends_to(pred: PredId, stop: NodeId, edge: &Edge) -> Option<&[NodeId]>
    ensures { option_copied result ≡ ends_to pred stop edge.now }
{
    match edge {
        Edge::Seg {
            pred: own,
            end,
            end_args,
            ..
        } => {
            if own.0 == pred.0 && end.0 == stop.0 {
                Some(end_args.as_slice())
            } else {
                None
            }
        }
        Edge::Block { .. } => None,
        Edge::Ind { .. } => None,
    }
}

/// Whether a pair's nodes are pointers.
fn are_pointers(join: &Joining, pair: &Pair) -> bool
    ensures { result ≡ are_pointers (seen join.now) pair.now }
{
    join.left.state.has_kind(Kind::Ptr, pair.0) && join.right.state.has_kind(Kind::Ptr, pair.1)
}

/// The fold of J7, and the other side's Seg, which is of the predicate and ends at the end's pair, whose nodes are pointers.
fn seven(
    alloc: Global,
    join: &Joining,
    defs: &Defs,
    pair: &Pair,
    ending: Ending,
) -> Result<Option<(SegFold, Part)>, NoMemory>
    requires { AreGood join.now }
    ensures joins { IfOk result (λ found. ForTests defs.now join.now (λ w.
        by_seg SegStep.Seven w (seen join.now) pair.now (seen_ending ending)
        ≡ seg_found SegStep.Seven w (seen join.now) (seen_ending ending) pair.now found)) }
    ensures seg { IfOk result (λ found. ForTests defs.now join.now (λ w. GivesSeg found)) }
{
    let Some(end) = pair_at(join, ending.place) else {
        return Ok(None);
    };
    let other = across(ending.side);
    let Some(entry) = join.edge_at(other, pair) else {
        return Ok(None);
    };
    let Some(others) = ends_to(ending.pred, of_side(other, &end), &entry.1) else {
        return Ok(None);
    };
    if !are_pointers(join, &end) {
        return Ok(None);
    }
    let stop = of_side(ending.side, &end);
    let Some(fold) = seg_for(
        alloc,
        join,
        defs,
        ending.side,
        pair,
        ending.pred,
        stop,
        others,
    )?
    else {
        return Ok(None);
    };
    let theirs = as_it_is(alloc, entry)?;
    Ok(Some((fold, theirs)))
}

// ---- J6 or J7

/// Which of the two steps that fold edges into a Seg.
#[derive(Clone, Copy)]
pub enum SegStep {
    Six,
    Seven,
}

/// The fold of the step, and what the other side gives.
fn seg_found(
    alloc: Global,
    join: &Joining,
    defs: &Defs,
    pair: &Pair,
    ending: Ending,
    step: SegStep,
) -> Result<Option<(SegFold, Part)>, NoMemory>
    requires { AreGood join.now }
    ensures joins { IfOk result (λ found. ForTests defs.now join.now (λ w.
        by_seg step w (seen join.now) pair.now (seen_ending ending)
        ≡ seg_found step w (seen join.now) (seen_ending ending) pair.now found)) }
    ensures seg { IfOk result (λ found. ForTests defs.now join.now (λ w. GivesSeg found)) }
{
    match step {
        SegStep::Six => six(alloc, join, defs, pair, ending),
        SegStep::Seven => seven(alloc, join, defs, pair, ending),
    }
}

/// Whether the step applies.
fn has_seg(
    alloc: Global,
    join: &Joining,
    defs: &Defs,
    pair: &Pair,
    ending: Ending,
    step: SegStep,
) -> Result<bool, NoMemory>
    requires { AreGood join.now }
    ensures { IfOk result (λ has. ForTests defs.now join.now (λ w.
        has ≡ has_seg step w (seen join.now) pair.now (seen_ending ending))) }
{
    match seg_found(alloc, join, defs, pair, ending, step)? {
        Some(found) => seg_has_nodes(alloc, join.half(ending.side), defs, ending.pred, &found.0),
        None => Ok(false),
    }
}

/// After J6 the edges of the side with the empty segment do not count at the pair any more.
fn close(join: &mut Joining, side: Side, pair: &Pair, step: SegStep) -> Result<(), NoMemory>
    ensures left { OnOk result (join.new.left ≡ join.old.left) }
    ensures right { OnOk result (join.new.right ≡ join.old.right) }
    ensures seen { OnOk result (seen join.new ≡ closed_by step side pair.now (seen join.old)) }
{
    match step {
        SegStep::Six => join.closed.insert(0, (across(side), *pair))?,
        SegStep::Seven => {}
    }
    Ok(())
}

/// The step: a side's edges are folded from its node of the pair to that of another pair. False where it does not apply.
fn by_seg(
    alloc: Global,
    join: &mut Joining,
    defs: &Defs,
    pair: &Pair,
    ending: Ending,
    step: SegStep,
) -> Result<bool, NoMemory>
    requires { AreGood join.old }
    ensures good { OnOk result (AreGood join.new) }
    ensures takes { IfOk result (λ done. ForTests defs.now join.old (λ w.
        ComesTo w join.new done (by_seg step w (seen join.old) pair.now (seen_ending ending)))) }
{
    let Some((fold, theirs)) = seg_found(alloc, join, defs, pair, ending, step)? else {
        return Ok(false);
    };
    let Some(mine) = folded_seg(alloc, join, defs, ending.side, pair, ending.pred, fold)? else {
        return Ok(false);
    };
    if !put_from(alloc, join, ending.side, mine, theirs)? {
        return Ok(false);
    }
    close(join, ending.side, pair, step)?;
    Ok(true)
}

// ---- all endings

/// Whether the step applies with a predicate and a side, to any pair.
fn has_any_place(
    alloc: Global,
    join: &Joining,
    defs: &Defs,
    pair: &Pair,
    pred: PredId,
    side: Side,
    step: SegStep,
) -> Result<bool, NoMemory>
    requires { AreGood join.now }
    ensures { IfOk result (λ has. ForTests defs.now join.now (λ w.
        has ≡ list_any (has_seg step w (seen join.now) pair.now) (endings_on (seen join.now) pred side))) }
{
    for place in 0..join.pairs.len() {
        let ending = Ending {
            pred,
            side,
            place: place as u64,
        };
        if has_seg(alloc, join, defs, pair, ending, step)? {
            return Ok(true);
        }
    }
    Ok(false)
}

/// Whether it applies with a predicate, to either side and any pair.
fn has_either_side(
    alloc: Global,
    join: &Joining,
    defs: &Defs,
    pair: &Pair,
    pred: PredId,
    step: SegStep,
) -> Result<bool, NoMemory>
    requires { AreGood join.now }
    ensures { IfOk result (λ has. ForTests defs.now join.now (λ w.
        has ≡ list_any (has_seg step w (seen join.now) pair.now) (endings_of (seen join.now) pred))) }
{
    if has_any_place(alloc, join, defs, pair, pred, Side::Left, step)? {
        return Ok(true);
    }
    has_any_place(alloc, join, defs, pair, pred, Side::Right, step)
}

/// Whether the step applies with any predicate, side and pair.
fn has_any(
    alloc: Global,
    join: &Joining,
    defs: &Defs,
    pair: &Pair,
    step: SegStep,
) -> Result<bool, NoMemory>
    requires { AreGood join.now }
    ensures { IfOk result (λ has. ForTests defs.now join.now (λ w. has ≡ not (no_seg step w (seen join.now) pair.now))) }
{
    for pred in 0..defs.as_slice().len() {
        if has_either_side(alloc, join, defs, pair, PredId(pred as u64), step)? {
            return Ok(true);
        }
    }
    Ok(false)
}

/// Whether J6 applies with any predicate, side and pair, or J7 does.
fn has_six_or_seven(
    alloc: Global,
    join: &Joining,
    defs: &Defs,
    pair: &Pair,
) -> Result<bool, NoMemory>
    requires { AreGood join.now }
    ensures { IfOk result (λ has. ForTests defs.now join.now (λ w.
        has ≡ not (no_j6 w (seen join.now) pair.now && no_j7 w (seen join.now) pair.now))) }
{
    if has_any(alloc, join, defs, pair, SegStep::Six)? {
        return Ok(true);
    }
    has_any(alloc, join, defs, pair, SegStep::Seven)
}

// ---- J1 to J3

/// Whether both sides' edges are of a form.
fn has_form(join: &Joining, pair: &Pair, form: Form) -> bool
    ensures { result ≡ is_some (by_both (is_form form) (seen join.now) pair.now) }
{
    let Some(left) = join.edge_at(Side::Left, pair) else {
        return false;
    };
    let Some(right) = join.edge_at(Side::Right, pair) else {
        return false;
    };
    is_form(form, &left.1, &right.1)
}

/// Both sides' edges, where they are of a form.
fn both(
    alloc: Global,
    join: &Joining,
    pair: &Pair,
    form: Form,
) -> Result<Option<(Part, Part)>, NoMemory>
    ensures { IfOk result (λ found. by_both (is_form form) (seen join.now) pair.now
        ≡ option_and_then (both_joined (seen join.now)) found) }
{
    let Some(left) = join.edge_at(Side::Left, pair) else {
        return Ok(None);
    };
    let Some(right) = join.edge_at(Side::Right, pair) else {
        return Ok(None);
    };
    if !is_form(form, &left.1, &right.1) {
        return Ok(None);
    }
    let mine = as_it_is(alloc, left)?;
    let theirs = as_it_is(alloc, right)?;
    Ok(Some((mine, theirs)))
}

/// J1 to J3: both sides' edges as they are, where they are of a form.
fn by_both(alloc: Global, join: &mut Joining, pair: &Pair, form: Form) -> Result<bool, NoMemory>
    requires { AreGood join.old }
    ensures good { OnOk result (AreGood join.new) }
    ensures takes { IfOk result (λ done. (w : Basis) → TellsBoth w join.old
        → ComesTo w join.new done (by_both (is_form form) (seen join.old) pair.now)) }
{
    match both(alloc, join, pair, form)? {
        Some((left, right)) => put(alloc, join, left, right),
        None => Ok(false),
    }
}

// ---- J4

/// A side's Ind, and the other side's edges that are folded into one.
#[derive(Drop)]
pub struct OtherFold {
    pub side: Side,
    pub mine: Part,
    pub fold: IndFold,
}

/// Whether a side's edge at a pair is an Ind of a predicate.
fn has_ind(join: &Joining, side: Side, pair: &Pair, pred: PredId) -> bool
    ensures { result ≡ is_some (ind_of pred (edge_there (seen join.now) side pair.now)) }
{
    match join.edge_at(side, pair) {
        Some(entry) => ind_args(pred, &entry.1).is_some(),
        None => false,
    }
}

/// A side's Ind, and the fold of J4 on the other side, where the other's edge is not an Ind of the predicate.
fn four(
    alloc: Global,
    join: &Joining,
    defs: &Defs,
    pair: &Pair,
    pred: PredId,
    side: Side,
) -> Result<Option<OtherFold>, NoMemory>
    requires { AreGood join.now }
    ensures joins { IfOk result (λ found. ForTests defs.now join.now (λ w.
        by_ind w (seen join.now) pair.now pred side ≡ option_and_then (four_joined w (seen join.now) pair.now pred) found)) }
    ensures ind { IfOk result (λ found. GivesInd found) }
    ensures only { IfOk result (λ found. (w : Basis) → IsSome found → by_ind w (seen join.now) pair.now pred (across side) ≡ None) }
{
    let Some(entry) = join.edge_at(side, pair) else {
        return Ok(None);
    };
    let Some(args) = ind_args(pred, &entry.1) else {
        return Ok(None);
    };
    if has_ind(join, across(side), pair, pred) {
        return Ok(None);
    }
    let Some(fold) = ind_for(alloc, join, defs, side, pair, pred, args)? else {
        return Ok(None);
    };
    let mine = as_it_is(alloc, entry)?;
    Ok(Some(OtherFold { side, mine, fold }))
}

/// The left side's Ind with the right's fold, or the right side's Ind with the left's.
fn either(
    alloc: Global,
    join: &Joining,
    defs: &Defs,
    pair: &Pair,
    pred: PredId,
) -> Result<Option<OtherFold>, NoMemory>
    requires { AreGood join.now }
    ensures joins { IfOk result (λ found. ForTests defs.now join.now (λ w.
        by_either w (seen join.now) pair.now pred ≡ option_and_then (four_joined w (seen join.now) pair.now pred) found)) }
    ensures ind { IfOk result (λ found. GivesInd found) }
{
    match four(alloc, join, defs, pair, pred, Side::Left)? {
        Some(found) => Ok(Some(found)),
        None => four(alloc, join, defs, pair, pred, Side::Right),
    }
}

/// Whether J4 applies, where J6 and J7 do not.
fn has_four(
    alloc: Global,
    join: &Joining,
    defs: &Defs,
    pair: &Pair,
    pred: PredId,
) -> Result<bool, NoMemory>
    requires { AreGood join.now }
    ensures { IfOk result (λ has. ForTests defs.now join.now (λ w. has ≡ is_some (by_either w (seen join.now) pair.now pred))) }
{
    match either(alloc, join, defs, pair, pred)? {
        Some(found) => ind_has_nodes(
            alloc,
            join.half(across(found.side)),
            defs,
            pred,
            &found.fold,
        ),
        None => Ok(false),
    }
}

/// J4: one side's edge is an Ind, and the other side's edges are folded into one. False where it does not apply.
fn by_four(
    alloc: Global,
    join: &mut Joining,
    defs: &Defs,
    pair: &Pair,
    pred: PredId,
) -> Result<bool, NoMemory>
    requires { AreGood join.old }
    ensures good { OnOk result (AreGood join.new) }
    ensures takes { IfOk result (λ done. ForTests defs.now join.old (λ w.
        ComesTo w join.new done (by_either w (seen join.old) pair.now pred))) }
{
    let Some(OtherFold { side, mine, fold }) = either(alloc, join, defs, pair, pred)? else {
        return Ok(false);
    };
    let Some(theirs) = folded_ind(alloc, join, defs, across(side), pair, pred, fold)? else {
        return Ok(false);
    };
    put_from(alloc, join, side, mine, theirs)
}

// ---- J5

/// Whether neither side's edge is an Ind, and they are not alike, or one is missing.
fn are_unlike(join: &Joining, pair: &Pair) -> bool
    ensures { result ≡ are_unlike (edge_there (seen join.now) Side.Left pair.now) (edge_there (seen join.now) Side.Right pair.now) }
{
    match (
        join.edge_at(Side::Left, pair),
        join.edge_at(Side::Right, pair),
    ) {
        (Some(left), Some(right)) => {
            !is_ind(&left.1) && !is_ind(&right.1) && !are_alike(&left.1, &right.1)
        }
        (Some(left), None) => !is_ind(&left.1),
        (None, Some(right)) => !is_ind(&right.1),
        (None, None) => true,
    }
}

/// The folds of J5 on both sides, of which at least one uses an edge.
fn five(
    alloc: Global,
    join: &Joining,
    defs: &Defs,
    pair: &Pair,
    pred: PredId,
) -> Result<Option<(IndFold, IndFold)>, NoMemory>
    requires { AreGood join.now }
    ensures { IfOk result (λ found. ForTests defs.now join.now (λ w.
        by_folds w (seen join.now) pair.now pred ≡ option_and_then (five_joined w (seen join.now) pair.now pred) found)) }
{
    if !are_unlike(join, pair) {
        return Ok(None);
    }
    let Some(left) = guessed_ind(alloc, join, defs, Side::Left, pair, pred)? else {
        return Ok(None);
    };
    let Some(right) = guessed_ind(alloc, join, defs, Side::Right, pair, pred)? else {
        return Ok(None);
    };
    if left.used.is_empty() && right.used.is_empty() {
        return Ok(None);
    }
    Ok(Some((left, right)))
}

/// Whether J5 applies, where J6 and J7 do not.
fn has_five(
    alloc: Global,
    join: &Joining,
    defs: &Defs,
    pair: &Pair,
    pred: PredId,
) -> Result<bool, NoMemory>
    requires { AreGood join.now }
    ensures { IfOk result (λ has. ForTests defs.now join.now (λ w. has ≡ is_some (by_folds w (seen join.now) pair.now pred))) }
{
    match five(alloc, join, defs, pair, pred)? {
        Some(found) => {
            if !ind_has_nodes(alloc, &join.left, defs, pred, &found.0)? {
                return Ok(false);
            }
            ind_has_nodes(alloc, &join.right, defs, pred, &found.1)
        }
        None => Ok(false),
    }
}

/// J5: both sides' edges are folded. False where it does not apply.
fn by_five(
    alloc: Global,
    join: &mut Joining,
    defs: &Defs,
    pair: &Pair,
    pred: PredId,
) -> Result<bool, NoMemory>
    requires { AreGood join.old }
    ensures good { OnOk result (AreGood join.new) }
    ensures takes { IfOk result (λ done. ForTests defs.now join.old (λ w.
        ComesTo w join.new done (by_folds w (seen join.old) pair.now pred))) }
{
    let Some((left, right)) = five(alloc, join, defs, pair, pred)? else {
        return Ok(false);
    };
    let Some(mine) = folded_ind(alloc, join, defs, Side::Left, pair, pred, left)? else {
        return Ok(false);
    };
    let Some(theirs) = folded_ind(alloc, join, defs, Side::Right, pair, pred, right)? else {
        return Ok(false);
    };
    put(alloc, join, mine, theirs)
}

// ---- all steps

/// Whether J6 or J7 applies, where a step gives way to it: J1, J2 and J7 to J6, J3, J4 and J5 to both, J6 to none.
fn gives_way(
    alloc: Global,
    join: &Joining,
    defs: &Defs,
    pair: &Pair,
    step: JoinStep,
) -> Result<bool, NoMemory>
    requires { AreGood join.now }
    ensures { IfOk result (λ gives. ForTests defs.now join.now (λ w. gives ≡ gives_way w (seen join.now) pair.now step)) }
{
    match step {
        JoinStep::J1 => has_any(alloc, join, defs, pair, SegStep::Six),
        JoinStep::J2 => has_any(alloc, join, defs, pair, SegStep::Six),
        JoinStep::J3 => has_six_or_seven(alloc, join, defs, pair),
        JoinStep::J4(_) => has_six_or_seven(alloc, join, defs, pair),
        JoinStep::J5(_) => has_six_or_seven(alloc, join, defs, pair),
        JoinStep::J6(_, _, _) => Ok(false),
        JoinStep::J7(_, _, _) => has_any(alloc, join, defs, pair, SegStep::Six),
    }
}

/// A step that gives way to none. False where it does not apply; then the join is lost.
fn by_step(
    alloc: Global,
    join: &mut Joining,
    defs: &Defs,
    pair: &Pair,
    step: JoinStep,
) -> Result<bool, NoMemory>
    requires { AreGood join.old }
    ensures good { OnOk result (AreGood join.new) }
    ensures takes { IfOk result (λ done. ForTests defs.now join.old (λ w.
        ComesTo w join.new done (by_step w (seen join.old) pair.now step))) }
{
    match step {
        JoinStep::J1 => by_both(alloc, join, pair, Form::Blocks),
        JoinStep::J2 => by_both(alloc, join, pair, Form::Inds),
        JoinStep::J3 => by_both(alloc, join, pair, Form::Segs),
        JoinStep::J4(pred) => by_four(alloc, join, defs, pair, pred),
        JoinStep::J5(pred) => by_five(alloc, join, defs, pair, pred),
        JoinStep::J6(pred, side, place) => {
            let ending = Ending { pred, side, place };
            by_seg(alloc, join, defs, pair, ending, SegStep::Six)
        }
        JoinStep::J7(pred, side, place) => {
            let ending = Ending { pred, side, place };
            by_seg(alloc, join, defs, pair, ending, SegStep::Seven)
        }
    }
}

/// A step at a pair. False where it does not apply; then the join is lost.
fn step_at(
    alloc: Global,
    join: &mut Joining,
    defs: &Defs,
    pair: &Pair,
    step: JoinStep,
) -> Result<bool, NoMemory>
    requires { AreGood join.old }
    ensures good { OnOk result (AreGood join.new) }
    ensures takes { IfOk result (λ done. ForTests defs.now join.old (λ w.
        ComesTo w join.new done (step_at w (seen join.old) pair.now step))) }
{
    if gives_way(alloc, join, defs, pair, step)? {
        return Ok(false);
    }
    by_step(alloc, join, defs, pair, step)
}

/// A step at the next pair. False where it does not apply; then the join is lost.
pub fn take_step(
    alloc: Global,
    join: &mut Joining,
    defs: &Defs,
    step: JoinStep,
) -> Result<bool, NoMemory>
    requires { AreGood join.old }
    ensures good { OnOk result (AreGood join.new) }
    ensures takes { IfOk result (λ done. ForTests defs.now join.old (λ w.
        ComesTo w join.new done (after_step w (seen join.old) step))) }
{
    match join.next_pair() {
        Some(pair) => step_at(alloc, join, defs, &pair, step),
        None => Ok(false),
    }
}

/// Whether J1, J2 or J3 applies, where J6 and J7 do not.
fn has_both(join: &Joining, pair: &Pair) -> bool
    ensures { result ≡ has_both (seen join.now) pair.now }
{
    has_form(join, pair, Form::Blocks)
        || has_form(join, pair, Form::Inds)
        || has_form(join, pair, Form::Segs)
}

/// Whether J4 or J5 applies with a predicate, where J6 and J7 do not.
fn has_fold(
    alloc: Global,
    join: &Joining,
    defs: &Defs,
    pair: &Pair,
    pred: PredId,
) -> Result<bool, NoMemory>
    requires { AreGood join.now }
    ensures { IfOk result (λ has. ForTests defs.now join.now (λ w. has ≡ has_fold w (seen join.now) pair.now pred)) }
{
    if has_four(alloc, join, defs, pair, pred)? {
        return Ok(true);
    }
    has_five(alloc, join, defs, pair, pred)
}

/// Whether J4 or J5 applies with any predicate, where J6 and J7 do not.
fn has_any_fold(alloc: Global, join: &Joining, defs: &Defs, pair: &Pair) -> Result<bool, NoMemory>
    requires { AreGood join.now }
    ensures { IfOk result (λ has. ForTests defs.now join.now (λ w.
        has ≡ list_any (has_fold w (seen join.now) pair.now) (predicates w))) }
{
    for pred in 0..defs.as_slice().len() {
        if has_fold(alloc, join, defs, pair, PredId(pred as u64))? {
            return Ok(true);
        }
    }
    Ok(false)
}

/// Whether any step applies at a pair.
fn has_step(alloc: Global, join: &Joining, defs: &Defs, pair: &Pair) -> Result<bool, NoMemory>
    requires { AreGood join.now }
    ensures { IfOk result (λ has. ForTests defs.now join.now (λ w. has ≡ has_step w (seen join.now) pair.now)) }
{
    if has_six_or_seven(alloc, join, defs, pair)? {
        return Ok(true);
    }
    if has_both(join, pair) {
        return Ok(true);
    }
    has_any_fold(alloc, join, defs, pair)
}

/// Whether there is a next pair, and no step applies at it.
pub fn is_stuck(alloc: Global, join: &Joining, defs: &Defs) -> Result<bool, NoMemory>
    requires { AreGood join.now }
    ensures { IfOk result (λ stuck. ForTests defs.now join.now (λ w. stuck ≡ is_stuck w (seen join.now))) }
{
    match join.next_pair() {
        Some(pair) => Ok(!has_step(alloc, join, defs, &pair)?),
        None => Ok(false),
    }
}
