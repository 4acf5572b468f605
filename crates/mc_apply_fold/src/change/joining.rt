// A segment and another at its end, which become one.
ghost use Rattle.std.specs.Prelude.{◌≡◌, ◌∷◌, [], IfOk};
ghost use Rattle.mc_rules_logic.specs.Fold.Judges.{joining_segs, with_fold};
ghost use Rattle.mc_state.specs.Graph.Edges.{nodes_of};
ghost use Rattle.mc_state.specs.Known.{Test, Tells};
ghost use Rattle.mc_state.specs.Premises.{AnswersBy, Changes};
ghost use Rattle.mc_state.specs.Fits.{AreNodes};

use crate::change::segments::{named_edges_are_here, other_edge, put_for_two, seg, with_one};
use mc_base::{EdgeId, NodeId};
use mc_flow::defs::Defs;
use mc_rules_logic::fold::{segments_are_closed, segments_are_judged};
use mc_rules_logic::rule::LogicRule;
use mc_state::LogicFault;
use mc_state::graph::Edge;
use mc_symbolic::State;
use std::alloc::Global;

/// L6: a Seg and another of its predicate at its end become one.
#[derive(Clone, Copy)]
pub struct JoinSegs {
    pub first: EdgeId,
    pub second: EdgeId,
}

/// The premises of L6, and the Seg that a Seg and another at its end become.
fn joined(alloc: Global, s: &State, first: EdgeId, second: EdgeId) -> Result<Edge, LogicFault>
    ensures told { (know : Test) → Tells know s.now → AnswersBy
        (λ e. with_fold s.now (first ∷ second ∷ []) e ∷ []) (joining_segs know first second s.now) result }
    ensures nodes { IfOk result (λ e. AreNodes s.now.kinds (nodes_of e)) }
{
    // These two say what the proof needs.
    s.is_bounded();
    named_edges_are_here();
    if s.is_false() {
        return Err(LogicFault::Premise(2));
    }
    let Some(
        Edge::Seg {
            at,
            args,
            pred,
            end,
            end_args,
        },
    ) = s.edge(first)
    else {
        return Err(LogicFault::Premise(3));
    };
    let Some(
        Edge::Seg {
            at: from,
            args: from_args,
            pred: own,
            end: last,
            end_args: last_args,
        },
    ) = other_edge(s, first, second)
    else {
        return Err(LogicFault::Premise(4));
    };
    if own.0 != pred.0 {
        return Err(LogicFault::Premise(4));
    }
    if !s.are_equal(*end, *from) {
        return Err(LogicFault::Premise(5));
    }
    if !s.are_all_equal(end_args.as_slice(), from_args.as_slice()) {
        return Err(LogicFault::Premise(6));
    }
    match seg(alloc, at, args.as_slice(), pred, last, last_args.as_slice()) {
        Ok(edge) => Ok(edge),
        Err(_) => Err(LogicFault::NoMemory),
    }
}

/// L6: puts a Seg in place of a Seg and another of its predicate at its end. Where a premise is unmet nothing changes;
/// without memory the state is lost.
pub fn join_segs(
    alloc: Global,
    s: &mut State,
    first: EdgeId,
    second: EdgeId,
) -> Result<(), LogicFault>
    ensures { (know : Test) → Tells know s.old → Changes (joining_segs know first second s.old) (s.old ∷ [])
        (s.new ∷ []) result }
{
    let edge = joined(alloc, s, first, second)?;
    match put_for_two(s, first, second, edge) {
        Ok(()) => Ok(()),
        Err(_) => Err(LogicFault::NoMemory),
    }
}

impl LogicRule for JoinSegs {
    ghost judged = { λ rule know left defs access s. joining_segs know rule.first rule.second s };

    fn successors(
        &self,
        alloc: Global,
        state: &State,
        defs: &Defs,
        access: Option<NodeId>,
    ) -> Result<Vec<State>, LogicFault> {
        let edge = joined(alloc, state, self.first, self.second)?;
        match with_one(alloc, state, self.first, self.second, edge) {
            Ok(next) => Ok(next),
            Err(_) => Err(LogicFault::NoMemory),
        }
    }

    fn is_sound(&self) {
        segments_are_judged();
        segments_are_closed();
    }
}
