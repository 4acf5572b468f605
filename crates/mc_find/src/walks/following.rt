// The next line of a branch that follows the program.
use crate::matching::Branch;
use crate::walks::Attempt;
use crate::walks::walking::Act;
use mc_base::NoMemory;
use mc_check_line::accessed_by;
use mc_find_paths::next::{at_end, at_start, instance};
use mc_flow::Instr;
use mc_lines::cert::Line;

impl Attempt<'_> {
    /// The line that unfolds an edge which starts at the node that is accessed.
    fn unfolding(&self, branch: &Branch, code: &Instr) -> Option<Line> {
        match accessed_by(&branch.state, code) {
            Some(node) => at_start(&branch.state, node),
            None => None,
        }
    }

    /// The line that unfolds a segment from its end where the node is accessed.
    fn unfolding_back(&self, branch: &Branch, code: &Instr) -> Option<Line> {
        match accessed_by(&branch.state, code) {
            Some(node) => at_end(&branch.state, self.task.sight.defs, node),
            None => None,
        }
    }

    /// What a branch asks for by its instruction: what is accessed is unfolded first, from each start and from each end, also
    /// where a block is there, since two at one node can't be.
    pub fn next_by_code(&self, branch: &Branch) -> Result<Act, NoMemory> {
        let Some(code) = self.paths.code() else {
            return Ok(Act::Fail);
        };
        if let Some(line) = self.unfolding(branch, code) {
            return Ok(Act::Apply(line));
        }
        if let Some(gap) = self.paths.gap()? {
            return Ok(Act::Block(branch.point, gap));
        }
        if let Some(line) = self.unfolding_back(branch, code) {
            return Ok(Act::Apply(line));
        }
        match instance(&branch.state, code) {
            Some(line) => Ok(Act::Apply(line)),
            None => Ok(Act::Fail),
        }
    }
}
