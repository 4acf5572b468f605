// The open document.
ghost use Rattle.std.specs.Prelude.{◌≡◌, ◌+◌, ◌<◌, ◌≤◌, Bool, true, Ok, Err, IfOk, IfErr, OnOk, if◌then◌else◌, insert, length, map, option_map, slice_set};
ghost use Rattle.mc_flow.specs.Valid.{IsValid};
ghost use Rattle.mc_check_line.specs.Judging.{head_of, path};
ghost use Rattle.mc_kernel.specs.Branches.{roots as all_roots};
ghost use Rattle.mc_kernel.specs.Judges.{Knowledge};
ghost use Rattle.mc_kernel.specs.Readings.{begun, finished, first_branch, has_all_heads};
ghost use Rattle.mc_document.specs.Proof.Lines.{AnswersAll, ComesTo, TellsFormed, cutting_at, ending_at, ending_with, heading_at, is_ready_at, marks, may_head_at, may_pass_at, passing_at, reopened_at, rule_at, ruled_at, ruling_at};
ghost use Rattle.mc_document.specs.declared.proof.fault.ApplyFault.TheVariants.{NoMemory};
ghost use Rattle.mc_document.specs.Proof.Positions.{Applies, IsComplete, IsLost, Tries, position_of};
ghost use Rattle.mc_document.specs.Proof.Stacks.{AreMade, HeadsAreMade, stage_of};
ghost use Rattle.mc_state.specs.Fits.{IsWellMade};
ghost use Rattle.mc_state.specs.RawStates.{state_of};
ghost use Rattle.mc_state.specs.State.{State as Symbolic};

use crate::proof::beginning::roots;
use crate::proof::first::advance;
use crate::proof::places::{
    comes_after, has_all_heads, is_chain, is_cut, is_skip, marks, stands_behind,
};
use crate::proof::stack::Stack;
use crate::proof::stage::{Stage, is_cutting, is_ruling};
use crate::proof::{ApplyFault, Complete};
use mc_base::PointId;
use mc_check_line::{Branch, Head, Setting};
use mc_flow::{Defs, Flow};
use mc_lines::cert::Line;
use mc_state::{Form, RawState};
use mc_symbolic::State;
use std::alloc::{AllocError, Global};
use std::marker::Model;

/// A document that is being read: a certificate or a chain of a valid flow graph.
pub struct Proof<'f> {
    alloc: Global,
    flow: &'f Flow,
    defs: &'f Defs,
    form: Form,
    stage: Stage,
    cuts: Vec<PointId>,
    heads: Vec<Head>,
    branches: Stack,
    stuck: u64,
    // Whether there was no memory for a line.
    lost: bool,
}

/// Drops its parts. What holds one calls this.
impl Drop for Proof<'_> {
    fn drop(self) {
        let Proof {
            alloc: _,
            flow: _,
            defs: _,
            form: _,
            stage,
            cuts,
            heads,
            branches,
            stuck: _,
            lost: _,
        } = self;
        drop(stage);
        drop(cuts);
        drop(heads);
        drop(branches);
    }
}

impl<'f> Model for Proof<'f> {
    ghost use Rattle.mc_document.specs.Proof.Positions.{Position};

    ghost Value = { Position };

    ghost use Rattle.mc_document.specs.Proof.Held.{IsHeld, seen};

    ghost view = { seen };

    ghost invariant = { IsHeld };
}

impl<'f> Proof<'f> {
    /// Begins a document of which nothing but the header is read.
    pub fn start(alloc: Global, flow: &'f Flow, defs: &'f Defs, form: Form) -> Proof<'f>
        requires { IsValid flow.now defs.now }
        ensures { result ≡ position_of flow.now defs.now (begun form) }
    {
        Proof {
            alloc,
            flow,
            defs,
            form,
            stage: Stage::Cutting,
            cuts: Vec::new(alloc),
            heads: Vec::new(alloc),
            branches: Stack::new(alloc),
            stuck: 0,
            lost: false,
        }
    }

    /// The first open branch. None before rule lines begin, and where no branch is open.
    pub fn current(&self) -> Option<&Branch>
        ensures { option_map (λ b. path b.now) result ≡ option_map (λ b. b.0) (first_branch self.now.branches) }
    {
        self.branches.top()
    }

    /// Where what is read of it allocates.
    pub fn alloc(&self) -> Global {
        self.alloc
    }

    /// Its flow graph.
    pub fn flow(&self) -> &'f Flow
        ensures { result.now ≡ self.now.flow }
    {
        self.flow
    }

    /// Its definitions.
    pub fn defs(&self) -> &'f Defs
        ensures { result.now ≡ self.now.defs }
    {
        self.defs
    }

    /// How far it is read.
    pub fn stage(&self) -> Stage
        ensures { stage_of result ≡ self.now.stage }
    {
        self.stage
    }

    /// Its cuts.
    pub fn cuts(&self) -> &[PointId]
        ensures { result.now ≡ self.now.cuts }
    {
        self.cuts.as_slice()
    }

    /// The states of its cuts.
    pub fn heads(&self) -> &[Head]
        ensures { map head_of result.now ≡ self.now.heads }
    {
        self.heads.as_slice()
    }

    /// Whether it is lost, as there was no memory for a line.
    pub fn is_lost(&self) -> bool
        ensures { result ≡ self.now.lost }
    {
        self.lost
    }

    /// Its flow graph is valid, and the states of its cuts and of its open branches are well made.
    pub fn is_held(&self)
        ensures valid { IsValid self.now.flow self.now.defs }
        ensures heads { HeadsAreMade self.now.flow self.now.defs self.now.heads }
        ensures branches { AreMade self.now.flow self.now.defs self.now.branches }
    {
        let _kept = &self.stage;
    }

    /// A cut: a Skip, after the cut before.
    pub fn cut(&mut self, point: PointId) -> Result<(), ApplyFault>
        ensures { ComesTo (cutting_at point self.old) self.old self.new result }
    {
        if !is_cutting(self.stage) {
            return Err(ApplyFault::Premise(1));
        }
        if !is_skip(self.flow, point) {
            return Err(ApplyFault::Premise(3));
        }
        if !comes_after(self.cuts.as_slice(), point) {
            return Err(ApplyFault::Premise(4));
        }
        self.cuts.push(point)?;
        Ok(())
    }

    /// Whether every loop head is a cut.
    pub fn has_all_heads(&self) -> bool
        ensures { result ≡ has_all_heads self.now.flow self.now.cuts }
    {
        has_all_heads(self.flow, self.cuts.as_slice())
    }

    /// Whether a head may stand here.
    fn may_head(&self) -> bool
        ensures { result ≡ may_head_at self.now self.now.stage }
    {
        match self.stage {
            Stage::Cutting => self.has_all_heads(),
            Stage::Heading => true,
            Stage::Ruling => false,
            Stage::Finished => false,
        }
    }

    /// The state that is written, where it is well formed.
    fn written(&self, raw: &RawState) -> Result<Option<State>, AllocError>
        ensures told { IfOk result (λ found. (well : RawState → Bool) → TellsFormed well self.now.flow self.now.defs
            → found ≡ (if well raw.now then Some (state_of raw.now) else None)) }
        ensures made { IfOk result (λ found. (s : Symbolic) → found ≡ Some s
            → IsWellMade self.now.defs self.now.flow.vars self.now.flow.structs.list s) }
    {
        mc_state_io::raw::state_of(
            self.alloc,
            self.defs.as_slice(),
            self.flow.vars.as_slice(),
            self.flow.structs.list.as_slice(),
            raw,
        )
    }

    /// A head: at a cut, not before the head before, with a well-formed state.
    pub fn head(&mut self, point: PointId, raw: &RawState) -> Result<(), ApplyFault>
        ensures { (well : RawState → Bool) → TellsFormed well self.old.flow self.old.defs
            → ComesTo (heading_at well point raw.now self.old) self.old self.new result }
    {
        if !self.may_head() {
            return Err(ApplyFault::Premise(1));
        }
        if !is_cut(self.cuts.as_slice(), point) || !stands_behind(self.heads.as_slice(), point) {
            return Err(ApplyFault::Premise(3));
        }
        let Some(state) = self.written(raw)? else {
            return Err(ApplyFault::Premise(4));
        };
        self.heads.push(Head { point, state })?;
        self.stage = Stage::Heading;
        Ok(())
    }

    /// Whether a pass may stand here.
    fn may_pass(&self) -> bool
        ensures { result ≡ may_pass_at self.now self.now.stage }
    {
        match self.stage {
            Stage::Cutting => is_chain(self.form) && self.has_all_heads(),
            Stage::Heading => is_chain(self.form) && self.has_all_heads(),
            Stage::Ruling => is_chain(self.form),
            Stage::Finished => false,
        }
    }

    /// The branches of the entry and of the states of cuts as they are are open.
    fn open_roots(&mut self) -> Result<(), ApplyFault>
        ensures { ComesTo (Ok (ruled_at self.old (all_roots self.old.flow self.old.heads))) self.old self.new result }
    {
        self.branches = roots(self.alloc, self.flow, self.heads.as_slice())?;
        self.stage = Stage::Ruling;
        Ok(())
    }

    /// A pass: the first one opens the entry and the heads.
    fn pass(&mut self) -> Result<(), ApplyFault>
        ensures { ComesTo (passing_at self.old) self.old self.new result }
    {
        if !self.may_pass() {
            return Err(ApplyFault::Premise(1));
        }
        if is_ruling(self.stage) {
            return Err(ApplyFault::Premise(3));
        }
        self.open_roots()
    }

    /// A pass begins: the branches of the entry and of the states of cuts as they are are open, and none is stuck.
    pub fn reopen(&mut self) -> Result<(), ApplyFault>
        ensures { ComesTo (Ok (reopened_at self.old)) self.old self.new result }
    {
        self.open_roots()?;
        self.stuck = 0;
        Ok(())
    }

    /// The first branch ends, and its point gets this state too: in this place among the states of cuts, before the one
    /// that had it.
    pub fn put_head(&mut self, place: usize, state: State) -> Result<(), ApplyFault>
        requires within { place ≤ length self.old.heads }
        requires made { IsWellMade self.old.defs self.old.flow.vars self.old.flow.structs.list state }
        ensures { ComesTo (ending_with (λ b. insert self.old.heads place (b.point, state)) self.old) self.old self.new result }
    {
        let Some(branch) = self.branches.top() else {
            return Err(ApplyFault::Premise(1));
        };
        let point = branch.point;
        self.heads.insert(place, Head { point, state })?;
        self.branches.end_first();
        Ok(())
    }

    /// The first branch ends, and its point gets this state instead of the one in this place among the states of cuts.
    pub fn swap_head(&mut self, place: usize, state: State) -> Result<(), ApplyFault>
        requires within { place < length self.old.heads }
        requires made { IsWellMade self.old.defs self.old.flow.vars self.old.flow.structs.list state }
        ensures { ComesTo (ending_with (λ b. slice_set self.old.heads place (b.point, state)) self.old) self.old self.new result }
    {
        let Some(branch) = self.branches.top() else {
            return Err(ApplyFault::Premise(1));
        };
        let point = branch.point;
        self.heads[place] = Head { point, state };
        self.branches.end_first();
        Ok(())
    }

    /// Whether rule lines are read, or may begin.
    fn is_ready(&self) -> bool
        ensures { result ≡ is_ready_at self.now self.now.stage }
    {
        match self.stage {
            Stage::Cutting => !is_chain(self.form) && self.has_all_heads(),
            Stage::Heading => !is_chain(self.form) && self.has_all_heads(),
            Stage::Ruling => true,
            Stage::Finished => false,
        }
    }

    /// The end: no branch is open.
    pub fn end(&mut self) -> Result<(), ApplyFault>
        ensures { ComesTo (ending_at self.old) self.old self.new result }
    {
        if !self.is_ready() {
            return Err(ApplyFault::Premise(1));
        }
        if !is_ruling(self.stage) || !self.branches.is_empty() {
            return Err(ApplyFault::Premise(3));
        }
        self.stage = Stage::Finished;
        Ok(())
    }

    /// How many branches are stuck after a line. No memory where they can't be counted.
    fn stuck_behind(&self, line: &Line) -> Result<u64, AllocError>
        ensures { IfOk result (λ n. n ≡ self.now.stuck + marks line.now) }
    {
        match self.stuck.checked_add(marks(line)) {
            Some(stuck) => Ok(stuck),
            None => Err(AllocError),
        }
    }

    /// The line of a rule, where rule lines are read.
    fn go_on(&mut self, line: &Line) -> Result<(), ApplyFault>
        ensures { (k : Knowledge) → AnswersAll k self.old.flow self.old.defs
            → ComesTo (ruling_at k line.now self.old) self.old self.new result }
    {
        let stuck = self.stuck_behind(line)?;
        let setting = Setting {
            form: self.form,
            cuts: self.cuts.as_slice(),
            heads: self.heads.as_slice(),
        };
        match advance(
            self.alloc,
            self.flow,
            self.defs,
            setting,
            line,
            &mut self.branches,
        ) {
            Ok(()) => {
                self.stuck = stuck;
                Ok(())
            }
            Err(fault) => Err(fault),
        }
    }

    /// The line of a rule, where rule lines may begin. A refused line does not begin them.
    fn begin(&mut self, line: &Line) -> Result<(), ApplyFault>
        ensures { (k : Knowledge) → AnswersAll k self.old.flow self.old.defs
            → ComesTo (ruling_at k line.now (ruled_at self.old (all_roots self.old.flow self.old.heads))) self.old self.new result }
    {
        let stuck = self.stuck_behind(line)?;
        let mut branches = roots(self.alloc, self.flow, self.heads.as_slice())?;
        let setting = Setting {
            form: self.form,
            cuts: self.cuts.as_slice(),
            heads: self.heads.as_slice(),
        };
        match advance(
            self.alloc,
            self.flow,
            self.defs,
            setting,
            line,
            &mut branches,
        ) {
            Ok(()) => {
                self.branches = branches;
                self.stage = Stage::Ruling;
                self.stuck = stuck;
                Ok(())
            }
            Err(fault) => Err(fault),
        }
    }

    /// The line of a rule.
    pub fn rule(&mut self, line: &Line) -> Result<(), ApplyFault>
        ensures { (k : Knowledge) → AnswersAll k self.old.flow self.old.defs
            → ComesTo (rule_at k line.now self.old) self.old self.new result }
    {
        if !self.is_ready() {
            return Err(ApplyFault::Premise(1));
        }
        if is_ruling(self.stage) {
            self.go_on(line)
        } else {
            self.begin(line)
        }
    }

    /// Tries a line. A refused line changes nothing.
    fn try_line(&mut self, line: &Line) -> Result<(), ApplyFault>
        ensures { Tries line.now self.old self.new result }
    {
        // For the proof alone: a right judge tells what stays where a line is refused.
        mc_kernel::oracle::judges_are_there();
        let _kept = &self.stage;
        match line {
            Line::Header(_, _) => Err(ApplyFault::Premise(1)),
            Line::Cut(point) => self.cut(*point),
            Line::Head(point, raw) => self.head(*point, raw),
            Line::Pass => self.pass(),
            Line::End => self.end(),
            _ => self.rule(line),
        }
    }

    /// Gives up the document, of which only the cuts and heads are kept.
    pub fn lose(&mut self) -> Result<(), ApplyFault>
        ensures lost { IsLost self.new }
        ensures fault { result ≡ Err NoMemory }
    {
        self.lost = true;
        self.stage = Stage::Cutting;
        self.branches = Stack::new(self.alloc);
        Err(ApplyFault::NoMemory)
    }

    /// Applies a line. A refused line changes nothing. Without memory the document is lost: no branch is open any more,
    /// and every later line finds no memory either.
    pub fn apply(&mut self, line: &Line) -> Result<(), ApplyFault>
        ensures applies { Applies line.now self.old self.new result }
        ensures lost { self.old.lost ≡ true → result ≡ Err NoMemory }
    {
        if self.lost {
            return self.lose();
        }
        match self.try_line(line) {
            Ok(()) => Ok(()),
            Err(ApplyFault::Premise(premise)) => Err(ApplyFault::Premise(premise)),
            Err(ApplyFault::NoMemory) => self.lose(),
        }
    }

    /// What the document is, where it has ended; else the document again, as where it is lost.
    pub fn finish(self) -> Result<Complete, Proof<'f>>
        ensures ok { IfOk result (λ c. IsComplete self.entry c) }
        ensures lost { OnOk result (IsLost self.entry → ⊥) }
        ensures err { IfErr result (λ p. (p ≡ self.entry) × (self.entry.stage ≡ finished → ⊥)) }
    {
        match self.stage {
            Stage::Finished => Ok(Complete {
                form: self.form,
                alarms: self.stuck,
            }),
            Stage::Cutting => Err(self),
            Stage::Heading => Err(self),
            Stage::Ruling => Err(self),
        }
    }
}
