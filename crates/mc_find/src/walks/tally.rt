// What an attempt has found, counted.
use crate::walks::Attempt;
use crate::walks::walked::{Blocked, add_blocked};
use mc_base::NoMemory;

impl Attempt<'_> {
    /// Where branches are blocked, each place once, and how many are.
    pub fn blocked(&self) -> Result<(Vec<Blocked>, u64), NoMemory> {
        let mut list = Vec::new(self.alloc);
        add_blocked(&mut list, self.entry.blocked.as_slice())?;
        let mut count = self.entry.blocked.len() as u64;
        for head in self.heads.as_slice() {
            if !head.is_dropped {
                add_blocked(&mut list, head.walked.blocked.as_slice())?;
                count = count.saturating_add(head.walked.blocked.len() as u64);
            }
        }
        Ok((list, count))
    }

    /// How many lines the branches have.
    pub fn length(&self) -> u64 {
        let mut count = self.entry.lines.len() as u64;
        for head in self.heads.as_slice() {
            if !head.is_dropped {
                count = count.saturating_add(head.walked.lines.len() as u64);
            }
        }
        count
    }

    /// How many heads have lost something.
    pub fn weak_heads(&self) -> u64 {
        let mut count = 0u64;
        for head in self.heads.as_slice() {
            if head.is_weak && !head.is_dropped {
                count = count.saturating_add(1);
            }
        }
        count
    }
}
