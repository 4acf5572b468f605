// Open branches.
ghost use Rattle.std.specs.Prelude.{◌≡◌, All};
ghost use Rattle.mc_flow.specs.Valid.{IsValid};
ghost use Rattle.mc_base.specs.Ranges.Ends.{IsInt};

use crate::paths::advancing::advance;
use crate::paths::entering::{begins, entry};
use mc_base::{NoMemory, PointId};
use mc_check_line::{Branch, Setting};
use mc_document::proof::Stack;
use mc_flow::{Defs, Flow, Instr};
use mc_gaps::lacking::lacking_at;
use mc_lines::cert::Line;
use mc_rules_steps::Gap;
use mc_state::{Form, RawState};
use mc_symbolic::State;
use std::alloc::Global;
use std::marker::Model;

/// The open branches of a valid flow graph, with some cuts. The states of all of them are well made.
pub struct Paths<'f> {
    alloc: Global,
    flow: &'f Flow,
    defs: &'f Defs,
    cuts: &'f [PointId],
    open: Stack,
}

/// Drops the branches. What holds them calls this.
impl Drop for Paths<'_> {
    fn drop(self) {
        let Paths {
            alloc: _,
            flow: _,
            defs: _,
            cuts: _,
            open,
        } = self;
        drop(open);
    }
}

impl<'f> Model for Paths<'f> {
    ghost use Rattle.mc_find_paths.specs.Paths.Held.{Open, IsHeld, seen};

    ghost Value = { Open };

    ghost view = { seen };

    ghost invariant = { IsHeld };
}

impl<'f> Paths<'f> {
    /// No branches.
    pub fn new(alloc: Global, flow: &'f Flow, defs: &'f Defs, cuts: &'f [PointId]) -> Paths<'f>
        requires { IsValid flow.now defs.now }
    {
        Paths {
            alloc,
            flow,
            defs,
            cuts,
            open: Stack::new(alloc),
        }
    }

    /// The flow graph.
    pub fn flow(&self) -> &'f Flow {
        self.flow
    }

    /// The constants of the flow graph's operands.
    pub fn thresholds(&self) -> &'f [i64]
        ensures { All IsInt result.now }
    {
        self.flow.thresholds.as_slice()
    }

    /// Lets all branches go.
    pub fn clear(&mut self) {
        self.open = Stack::new(self.alloc);
    }

    /// Adds the branch of the entry before the others.
    pub fn enter(&mut self) -> Result<(), NoMemory> {
        // For the proof alone: the state of the entry is well made.
        mc_state::numbers_stay_bounded();
        let branch = entry(self.alloc, self.flow)?;
        self.open.push(branch)?;
        Ok(())
    }

    /// The state that is written, where it is well formed.
    pub fn state_of(&self, raw: &RawState) -> Result<Option<State>, NoMemory> {
        mc_state_io::raw::state_of(
            self.alloc,
            self.defs.as_slice(),
            self.flow.vars.as_slice(),
            self.flow.structs.list.as_slice(),
            raw,
        )
    }

    /// Adds a branch that begins at a point with a state as documents write it; whether it is well formed.
    pub fn enter_at(&mut self, point: PointId, raw: &RawState) -> Result<bool, NoMemory> {
        let found = mc_state_io::raw::state_of(
            self.alloc,
            self.defs.as_slice(),
            self.flow.vars.as_slice(),
            self.flow.structs.list.as_slice(),
            raw,
        )?;
        let Some(state) = found else {
            return Ok(false);
        };
        self.open.push(begins(point, state))?;
        Ok(true)
    }

    /// The first branch.
    pub fn top(&self) -> Option<&Branch> {
        self.open.top()
    }

    /// Takes the first branch.
    pub fn pop(&mut self) -> Option<Branch> {
        self.open.pop()
    }

    /// The state of the first branch.
    pub fn state(&self) -> Option<&State> {
        match self.open.top() {
            Some(branch) => Some(&branch.state),
            None => None,
        }
    }

    /// The same flow graph and cuts without branches.
    pub fn empty(&self) -> Paths<'f> {
        Paths {
            alloc: self.alloc,
            flow: self.flow,
            defs: self.defs,
            cuts: self.cuts,
            open: Stack::new(self.alloc),
        }
    }

    /// Takes the first branch, to be followed alone.
    pub fn split(&mut self) -> Result<Paths<'f>, NoMemory> {
        let mut alone = Stack::new(self.alloc);
        if let Some(branch) = self.open.pop() {
            alone.push(branch)?;
        }
        Ok(Paths {
            alloc: self.alloc,
            flow: self.flow,
            defs: self.defs,
            cuts: self.cuts,
            open: alone,
        })
    }

    /// The instruction of the first branch.
    pub fn code(&self) -> Option<&'f Instr> {
        match self.open.top() {
            Some(branch) => match self.flow.points.as_slice().get(branch.point.0 as usize) {
                Some(point) => Some(&point.code),
                None => None,
            },
            None => None,
        }
    }

    /// What the instruction of the first branch lacks there, if it lacks something.
    pub fn gap(&self) -> Result<Option<Gap>, NoMemory> {
        match self.open.top() {
            Some(branch) => lacking_at(
                self.alloc,
                self.flow,
                self.defs,
                branch.point,
                &branch.state,
            ),
            None => Ok(None),
        }
    }

    /// Applies a line at the first branch, in whose place its successors come; whether it is an instance. Jumps are none.
    pub fn apply(&mut self, line: &Line) -> Result<bool, NoMemory> {
        let setting = Setting {
            form: Form::Certificate,
            cuts: self.cuts,
            heads: &[],
        };
        advance(
            self.alloc,
            self.flow,
            self.defs,
            setting,
            line,
            &mut self.open,
        )
    }
}
