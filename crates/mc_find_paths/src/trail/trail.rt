// Branches that lines change.
use crate::paths::Paths;
use mc_base::{EdgeId, NoMemory};
use mc_lines::cert::Line;
use mc_symbolic::State;
use std::alloc::Global;

/// A branch, and the lines that led to it as it is.
pub struct Trail<'f> {
    paths: Paths<'f>,
    lines: Vec<Line>,
}

/// Drops the branch and its lines. What holds a trail calls this.
impl Drop for Trail<'_> {
    fn drop(self) {
        let Trail { paths, lines } = self;
        drop(paths);
        drop(lines);
    }
}

impl<'f> Trail<'f> {
    /// The first of some branches, to which no line has led.
    pub fn new(alloc: Global, paths: Paths<'f>) -> Trail<'f> {
        Trail {
            paths,
            lines: Vec::new(alloc),
        }
    }

    /// The state of the branch. None where it has ended.
    pub fn state(&self) -> Option<&State> {
        self.paths.state()
    }

    /// The branch.
    pub fn paths(&self) -> &Paths<'f> {
        &self.paths
    }

    /// The edge that was added last.
    pub fn last_edge(&self) -> Option<EdgeId> {
        match self.paths.state() {
            Some(state) => match state.edges().last() {
                Some(entry) => Some(entry.0),
                None => None,
            },
            None => None,
        }
    }

    /// Applies a line. With false it is no instance, and nothing has changed.
    pub fn apply(&mut self, line: Line) -> Result<bool, NoMemory> {
        if !self.paths.apply(&line)? {
            return Ok(false);
        }
        self.lines.push(line)?;
        Ok(true)
    }

    /// Adds the lines to others, and has none afterwards.
    pub fn hand_over(&mut self, lines: &mut Vec<Line>) -> Result<(), NoMemory> {
        lines.append(&mut self.lines)
    }
}
