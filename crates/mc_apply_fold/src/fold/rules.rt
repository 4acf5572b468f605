// The rules that fold, as rules of logic.
ghost use Rattle.mc_rules_logic.specs.Fold.Judges.{folding_ind, folding_seg};

use crate::fold::folding::{fold_ind, fold_seg};
use mc_base::NodeId;
use mc_flow::defs::Defs;
use mc_rules_logic::fold::{folding_is_judged, folding_is_sound};
use mc_rules_logic::rule::LogicRule;
use mc_state::{FoldInd, FoldSeg, LogicFault};
use mc_symbolic::State;
use std::alloc::Global;

/// L3 as a rule of logic.
#[derive(Drop)]
pub struct FoldIndRule(pub FoldInd);

impl LogicRule for FoldIndRule {
    ghost judged = { λ rule know left defs access s. folding_ind know defs rule.0 s };

    fn successors(
        &self,
        alloc: Global,
        state: &State,
        defs: &Defs,
        access: Option<NodeId>,
    ) -> Result<Vec<State>, LogicFault> {
        match fold_ind(alloc, state, defs, &self.0) {
            Ok(next) => Ok(next),
            Err(LogicFault::Premise(k)) => Err(LogicFault::Premise(k)),
            Err(LogicFault::NoMemory) => Err(LogicFault::NoMemory),
        }
    }

    fn is_sound(&self) {
        folding_is_judged();
        folding_is_sound();
    }
}

/// L4 as a rule of logic.
#[derive(Drop)]
pub struct FoldSegRule(pub FoldSeg);

impl LogicRule for FoldSegRule {
    ghost judged = { λ rule know left defs access s. folding_seg know defs rule.0 s };

    fn successors(
        &self,
        alloc: Global,
        state: &State,
        defs: &Defs,
        access: Option<NodeId>,
    ) -> Result<Vec<State>, LogicFault> {
        match fold_seg(alloc, state, defs, &self.0) {
            Ok(next) => Ok(next),
            Err(LogicFault::Premise(k)) => Err(LogicFault::Premise(k)),
            Err(LogicFault::NoMemory) => Err(LogicFault::NoMemory),
        }
    }

    fn is_sound(&self) {
        folding_is_judged();
        folding_is_sound();
    }
}
