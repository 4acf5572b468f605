// Walks from one root.
use crate::walks::walked::{Blocked, Walked, blocked_at};
use crate::walks::{Aim, Attempt};
use mc_base::{NoMemory, PointId};
use mc_find_paths::next::false_or_null;
use mc_lines::cert::Line;
use mc_rules_steps::Gap;
use mc_state::InstrRule;

/// How a walk goes on.
#[derive(Clone, Copy, Debug, PartialEq, Eq)]
pub enum Way {
    /// It goes on.
    On,
    /// A head has lost something: the root is followed again.
    Again,
    /// An instruction lacks something, or a line could not be found.
    Stuck,
    /// A cut would have too many heads.
    Crowded(PointId),
    /// This point becomes a cut: branches pass it too often.
    Passed(PointId),
    /// There are too many steps.
    TooLong,
}

/// What the first branch asks for.
#[derive(Drop)]
pub enum Act {
    /// This line.
    Apply(Line),
    /// That a side branch is ended.
    EndSide,
    /// That it is ended at this cut.
    Arrive(PointId),
    /// Its instruction at this point lacks something.
    Block(PointId, Gap),
    /// No line of its instruction can be applied.
    Fail,
    /// There is no branch.
    Rest,
}

impl Attempt<'_> {
    /// What the first branch asks for.
    fn next_act(&self) -> Result<Act, NoMemory> {
        let Some(branch) = self.paths.top() else {
            return Ok(Act::Rest);
        };
        if let Some(line) = false_or_null(&branch.state) {
            return Ok(Act::Apply(line));
        }
        if branch.goal.is_some() {
            return Ok(Act::EndSide);
        }
        if branch.moved && self.cuts.has(branch.point) {
            return Ok(Act::Arrive(branch.point));
        }
        self.next_by_code(branch)
    }

    /// The point of the first branch, if a line passes it that does nothing.
    fn skipped(&self, line: &Line) -> Option<PointId> {
        match line {
            Line::Step(InstrRule::S1) => self.paths.top().map(|branch| branch.point),
            _ => None,
        }
    }

    /// Applies a line at the first branch.
    fn apply(&mut self, walked: &mut Walked, line: Line) -> Result<Way, NoMemory> {
        let skipped = self.skipped(&line);
        if !self.paths.apply(&line)? {
            return Ok(Way::Stuck);
        }
        walked.lines.push(line)?;
        match skipped {
            Some(point) => self.pass(walked, point),
            None => Ok(Way::On),
        }
    }

    /// Whether a branch that lacks this waits for another plan of the cut from which it comes.
    fn waits(&self, blocked: Blocked) -> bool {
        if self.aim == Aim::Certificate {
            return true;
        }
        match self.root {
            Some(cut) => self.may_blame(cut) && !self.faults.as_slice().contains(&blocked),
            None => false,
        }
    }

    /// Ends the first branch as blocked at a point by a gap, unless a certificate is made, or another plan may help.
    fn block(&mut self, walked: &mut Walked, point: PointId, gap: Gap) -> Result<Way, NoMemory> {
        let Some(blocked) = blocked_at(self.task.sight.flow, point, gap) else {
            return Ok(Way::Stuck);
        };
        if self.waits(blocked) {
            return Ok(Way::Stuck);
        }
        let _ended = self.paths.pop();
        walked.block(blocked)?;
        Ok(Way::On)
    }

    /// Goes one step along the first branch.
    fn step(&mut self, walked: &mut Walked, act: Act) -> Result<Way, NoMemory> {
        match act {
            Act::Apply(line) => self.apply(walked, line),
            Act::EndSide => self.end_side(&mut walked.lines),
            Act::Arrive(cut) => self.arrive(cut, walked),
            Act::Block(point, gap) => self.block(walked, point, gap),
            Act::Fail => Ok(Way::Stuck),
            Act::Rest => Ok(Way::On),
        }
    }

    /// Counts steps, in all and in this walk.
    pub fn spend(&mut self, steps: u64) {
        self.left = self.left.saturating_sub(steps);
        self.walk_left = self.walk_left.saturating_sub(steps);
    }

    /// Counts the lines of a step; at least one.
    fn count(&mut self, lines: usize) {
        self.spend((lines as u64).max(1));
    }

    /// Follows all open branches, and adds what comes of them.
    pub fn walk(&mut self, walked: &mut Walked) -> Result<Way, NoMemory> {
        for _ in 0..self.walk_left {
            if self.walk_left == 0 {
                return Ok(Way::TooLong);
            }
            let act = self.next_act()?;
            if let Act::Rest = &act {
                return Ok(Way::On);
            }
            let before = walked.lines.len();
            let way = self.step(walked, act)?;
            if way != Way::On {
                return Ok(way);
            }
            self.count(walked.lines.len().saturating_sub(before));
        }
        Ok(Way::TooLong)
    }
}
