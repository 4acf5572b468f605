// The search for a cover, over a state.
ghost use Rattle.mc_cover.specs.Search.Told.{IsTold, told_once};
ghost use Rattle.mc_state.specs.Facts.{IsFalse};

use crate::search::alike::marks_alike;
use crate::search::laws::is_told;
use crate::search::marks::{edge_number, marks_of, push_mark};
use crate::search::pushing::copied_stop;
use crate::{Goal, Mark};
use mc_base::{EdgeId, NoMemory};
use mc_flow::defs::Defs;
use mc_shape_search::tries::{Cell, Problem};
use mc_symbolic::State;
use std::alloc::Global;

/// A search in a state that is not false, where some edges are used. A ghost field has the test of what is entailed.
#[derive(Drop)]
pub struct Search<'a> {
    pub state: &'a State,
    pub defs: &'a Defs,
    pub used: &'a [EdgeId],
    pub ghost told: { IsTold state.now } by { told_once state.now },
    pub ghost sound: { IsFalse state.now → ⊥ },
}

impl<'a> Problem for Search<'a> {
    ghost use Rattle.mc_cover.specs.Near.{near_space};
    ghost use Rattle.mc_cover.specs.Search.Setting.{setting};

    type Goal = Goal;

    type Mark = Mark;

    ghost space = { λ search. near_space (setting search.told.0 search.defs.now search.state.now search.used.now) };

    fn copy(&self, alloc: Global, goal: &Goal) -> Result<Goal, NoMemory> {
        Ok(Goal {
            pred: goal.pred,
            at: goal.at,
            args: goal.args.copy(alloc)?,
            stop: copied_stop(alloc, &goal.stop)?,
        })
    }

    fn marks(&self, alloc: Global, goal: &Goal) -> Result<Vec<Mark>, NoMemory> {
        is_told(self.state);
        let all = marks_of(alloc, self.state, self.defs, self.used, goal)?;
        Ok(all)
    }

    fn taken(&self, mark: Mark) -> Option<u64> {
        edge_number(mark)
    }

    fn stands_for(&self, one: Mark, other: Mark) -> bool {
        is_told(self.state);
        self.state.is_bounded();
        marks_alike(self.state, self.used, one, other)
    }

    fn push_calls(
        &self,
        alloc: Global,
        cells: &mut Vec<Cell<Goal>>,
        goal: &Goal,
        mark: Mark,
        rest: usize,
    ) -> Result<Option<usize>, NoMemory> {
        is_told(self.state);
        let top = push_mark(
            alloc, self.state, self.defs, self.used, cells, goal, mark, rest,
        )?;
        Ok(top)
    }

    fn may_end(&self, log: &[Mark]) -> bool {
        true
    }
}
