// The rules that unfold, as rules of logic.
ghost use Rattle.mc_rules_logic.specs.Back.Judges.{unfolding_back};
ghost use Rattle.mc_rules_logic.specs.Unfold.Judges.{unfolding_ind, unfolding_seg};

use crate::backward::unfold_back;
use crate::forward::{unfold_ind, unfold_seg};
use mc_base::{EdgeId, NodeId};
use mc_flow::defs::Defs;
use mc_rules_logic::back::{back_is_judged, back_is_sound};
use mc_rules_logic::rule::LogicRule;
use mc_rules_logic::unfold::{unfolding_is_judged, unfolding_is_sound};
use mc_state::LogicFault;
use mc_symbolic::changes::State;
use std::alloc::Global;

/// L1: takes an Ind for the body of one of its rules.
#[derive(Clone, Copy)]
pub struct UnfoldInd {
    pub edge: EdgeId,
}

/// L2: takes a Seg to be empty, or for the body of a rule of which one call goes on as the segment.
#[derive(Clone, Copy)]
pub struct UnfoldSeg {
    pub edge: EdgeId,
}

/// L15: takes a Seg to be empty, or to end with the body of a rule of which one call is its end.
#[derive(Clone, Copy)]
pub struct UnfoldBack {
    pub edge: EdgeId,
}

impl LogicRule for UnfoldInd {
    ghost judged = { λ rule know left defs access s. unfolding_ind know defs access rule.edge s };

    fn successors(
        &self,
        alloc: Global,
        state: &State,
        defs: &Defs,
        access: Option<NodeId>,
    ) -> Result<Vec<State>, LogicFault> {
        unfold_ind(alloc, state, defs, access, self.edge)
    }

    fn is_sound(&self) {
        unfolding_is_judged();
        unfolding_is_sound();
    }
}

impl LogicRule for UnfoldSeg {
    ghost judged = { λ rule know left defs access s. unfolding_seg know defs access rule.edge s };

    fn successors(
        &self,
        alloc: Global,
        state: &State,
        defs: &Defs,
        access: Option<NodeId>,
    ) -> Result<Vec<State>, LogicFault> {
        unfold_seg(alloc, state, defs, access, self.edge)
    }

    fn is_sound(&self) {
        unfolding_is_judged();
        unfolding_is_sound();
    }
}

impl LogicRule for UnfoldBack {
    ghost judged = { λ rule know left defs access s. unfolding_back know defs access rule.edge s };

    fn successors(
        &self,
        alloc: Global,
        state: &State,
        defs: &Defs,
        access: Option<NodeId>,
    ) -> Result<Vec<State>, LogicFault> {
        unfold_back(alloc, state, defs, access, self.edge)
    }

    fn is_sound(&self) {
        back_is_judged();
        back_is_sound();
    }
}
