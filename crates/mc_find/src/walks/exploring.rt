// A first walk, without folds and jumps.
use crate::walks::Attempt;
use crate::walks::walked::Walked;
use crate::walks::walking::Way;
use mc_base::{NoMemory, PointId};

impl Attempt<'_> {
    /// Ends the first branch, which has come to a cut: what was seen of it becomes a head, if there was no such shape.
    pub fn meet(&mut self, cut: PointId, walked: &mut Walked) -> Result<Way, NoMemory> {
        let Some(branch) = self.paths.pop() else {
            return Ok(Way::Stuck);
        };
        if !self.charge(&branch.state) {
            return Ok(Way::TooLong);
        }
        let seen = self.look_at(cut, &branch.state)?;
        match self.head_like(cut, &seen, None) {
            Some(_) => Ok(Way::On),
            None => {
                walked.targets.push(self.heads.len())?;
                self.add_head(cut, &branch.state, seen, &[])
            }
        }
    }
}
