// What a fit goes by.
use crate::matching::Fit;
use mc_base::{NoMemory, PointId, PredId};
use mc_find_shrink::{Manner, candidates};
use mc_state::Term;
use mc_symbolic::State;
use std::alloc::Global;

/// What a fit goes by: how states are folded, and the state at a cut.
#[derive(Clone, Copy)]
pub struct Ground<'a> {
    pub alloc: Global,
    pub manner: Manner<'a>,
    pub state: &'a State,
    pub point: PointId,
}

impl Ground<'_> {
    /// The arguments with which a predicate is tried at a term, and, for a segment, up to another.
    pub fn candidates(
        &self,
        fit: &Fit,
        pred: PredId,
        at: Term,
        end: Option<Term>,
    ) -> Result<Vec<Vec<Term>>, NoMemory> {
        let defs = self.manner.sight.defs;
        let Some(def) = defs.as_slice().get(pred.0 as usize) else {
            return Ok(Vec::new(self.alloc));
        };
        candidates(
            self.alloc,
            self.state,
            defs,
            self.manner.asserted,
            fit.used.as_slice(),
            pred,
            def,
            at.node,
            end,
            0,
        )
    }
}
