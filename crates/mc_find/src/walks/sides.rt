// Side branches.
use crate::matching::{MadeOf, Trail, cover, make, plain};
use crate::walks::Attempt;
use crate::walks::walking::Way;
use mc_base::{EdgeId, NoMemory, PredId};
use mc_lines::cert::Line;
use mc_state::{Goal, Term};

impl Attempt<'_> {
    /// The arguments of a goal as terms.
    fn goal_terms(&self, goal: &Goal) -> Result<Vec<Term>, NoMemory> {
        let mut terms = Vec::with_capacity(self.alloc, goal.args.len())?;
        for node in goal.args.as_slice() {
            terms.push(plain(*node))?;
        }
        Ok(terms)
    }

    /// Makes the goal of a side branch of the edges of a cover.
    fn make_goal(&self, trail: &mut Trail<'_>, goal: &Asked) -> Result<Option<EdgeId>, NoMemory> {
        let Some(state) = trail.state() else {
            return Ok(None);
        };
        let none: &[EdgeId] = &[];
        let defs = self.task.sight.defs;
        let args = goal.args.as_slice();
        let Some(marks) = cover(self.alloc, state, defs, none, goal.pred, goal.at, args)? else {
            return Ok(None);
        };
        let list = marks.as_slice();
        match make(
            self.alloc, defs, trail, goal.pred, goal.at, args, false, list,
        )? {
            MadeOf::Edge(edge) => Ok(Some(edge)),
            MadeOf::Nothing => Ok(None),
            MadeOf::Failed => Ok(None),
        }
    }

    /// What the first branch has to show.
    fn asked(&self) -> Result<Option<Asked>, NoMemory> {
        match self.paths.top() {
            Some(branch) => match &branch.goal {
                Some(goal) => Ok(Some(Asked {
                    pred: goal.pred,
                    at: plain(goal.at),
                    args: self.goal_terms(goal)?,
                })),
                None => Ok(None),
            },
            None => Ok(None),
        }
    }

    /// Ends the first branch, which is a side branch, by the lines of a cover.
    pub fn end_side(&mut self, lines: &mut Vec<Line>) -> Result<Way, NoMemory> {
        let Some(goal) = self.asked()? else {
            return Ok(Way::Stuck);
        };
        let mut trail = Trail::new(self.alloc, self.paths.split()?);
        let Some(edge) = self.make_goal(&mut trail, &goal)? else {
            return Ok(Way::Stuck);
        };
        if !trail.apply(Line::L14(edge))? {
            return Ok(Way::Stuck);
        }
        trail.hand_over(lines)?;
        Ok(Way::On)
    }
}

/// What a side branch has to show.
#[derive(Drop)]
struct Asked {
    pred: PredId,
    at: Term,
    args: Vec<Term>,
}
