// How branches are followed.
ghost use Rattle.std.specs.Prelude.{◌≡◌, ◌<◌, ◌≤◌, [], true, false, IfOk, OnOk};
ghost use Rattle.mc_follow.specs.Alarms.Outcomes.{IsCrowded, IsOnward};
ghost use Rattle.mc_follow.specs.Alarms.Walks.{AreCovered, IsAct, IsAtCode, IsAtFirst, IsCodeLine, IsWalk};
ghost use Rattle.mc_follow.specs.declared.alarms.walk.Turn.TheVariants.{On, Whole};

use crate::alarms::laws::{assertions_are_covered, branches_are_followed, documents_are_followed};
use crate::alarms::lines::PATHS;
use crate::alarms::walk::{Turn, Walk};
use mc_apply_steps::instructions::code_at;
use mc_base::NoMemory;
use mc_find_paths::next::{at_code, false_or_null};
use mc_flow::{Defs, Flow};
use mc_lines::cert::Line;
use std::alloc::AllocError;

/// What the first branch asks for.
#[derive(Drop)]
pub enum Act {
    /// This line.
    Apply(Line),
    /// That a side branch is ended.
    EndSide,
    /// What its instruction asks for.
    Code,
    /// There is no branch.
    Rest,
}

impl Walk<'_> {
    /// What the first branch asks for.
    fn next_act(&self) -> Act
        ensures { IsAct self.now.proof result }
    {
        let Some(branch) = self.proof.current() else {
            return Act::Rest;
        };
        if branch.goal.is_some() {
            return Act::EndSide;
        }
        if let Some(line) = false_or_null(&branch.state) {
            return Act::Apply(line);
        }
        Act::Code
    }

    /// The line that the instruction of the first branch asks for, where it lacks nothing.
    fn next_line(&self, flow: &Flow, defs: &Defs) -> Option<Line>
        ensures { IsCodeLine flow.now defs.now self.now.proof result }
    {
        match self.proof.current() {
            Some(branch) => match code_at(flow, branch.point) {
                Some(code) => at_code(defs, code, &branch.state),
                None => None,
            },
            None => None,
        }
    }

    /// Goes on by the instruction of the first branch: it is stuck, or a line of it comes.
    fn by_code(&mut self, flow: &Flow, defs: &Defs) -> Result<(), NoMemory>
        requires followed { IsWalk flow.now defs.now self.old }
        requires covered { AreCovered defs.now self.old.proof.branches }
        requires here { IsAtCode self.old.proof }
        ensures follows { OnOk result (IsOnward flow.now defs.now self.new) }
        ensures covered { OnOk result (AreCovered defs.now self.new.proof.branches) }
    {
        // For the proof alone: the line that is asked for is an instance, and what it asserts has a cover.
        documents_are_followed();
        branches_are_followed();
        assertions_are_covered();
        if self.stick(flow, defs)? {
            return Ok(());
        }
        match self.next_line(flow, defs) {
            Some(line) => {
                self.turn(flow, defs, line)?;
                Ok(())
            }
            // What is not unmet has a line.
            None => unreachable!(),
        }
    }

    /// Goes on by the line that ends the first branch as false, or unfolds an edge at null.
    fn by_first(&mut self, flow: &Flow, defs: &Defs, line: Line) -> Result<(), NoMemory>
        requires followed { IsWalk flow.now defs.now self.old }
        requires covered { AreCovered defs.now self.old.proof.branches }
        requires here { IsAtFirst line self.old.proof }
        ensures follows { OnOk result (IsOnward flow.now defs.now self.new) }
        ensures covered { OnOk result (AreCovered defs.now self.new.proof.branches) }
    {
        // For the proof alone: the line that is asked for is an instance, and asserts nothing.
        documents_are_followed();
        branches_are_followed();
        assertions_are_covered();
        self.turn(flow, defs, line)?;
        Ok(())
    }

    /// Goes on along the first branch.
    fn step(&mut self, flow: &Flow, defs: &Defs) -> Result<Turn, NoMemory>
        requires followed { IsWalk flow.now defs.now self.old }
        requires covered { AreCovered defs.now self.old.proof.branches }
        ensures follows { OnOk result (IsOnward flow.now defs.now self.new) }
        ensures covered { OnOk result (AreCovered defs.now self.new.proof.branches) }
        ensures whole { IfOk result (λ turn. turn ≡ Whole → (self.new.proof.branches ≡ []) × (self.new.ended ≡ self.old.ended)) }
    {
        match self.next_act() {
            Act::Apply(line) => {
                self.by_first(flow, defs, line)?;
                Ok(Turn::On)
            }
            Act::EndSide => {
                self.end_side(flow, defs)?;
                Ok(Turn::On)
            }
            Act::Code => {
                self.by_code(flow, defs)?;
                Ok(Turn::On)
            }
            Act::Rest => Ok(Turn::Whole),
        }
    }

    /// Whether more branches have ended than may be followed.
    pub fn is_over(&self) -> bool
        ensures over { result ≡ true → 65536 < self.now.ended }
        ensures within { result ≡ false → self.now.ended ≤ 65536 }
    {
        self.ended > PATHS
    }

    /// Follows all branches, until none is open, or the last line has ended one more than may end. No memory where lines can't
    /// be counted.
    pub fn follow(&mut self, flow: &Flow, defs: &Defs) -> Result<Turn, NoMemory>
        requires followed { IsWalk flow.now defs.now self.old }
        requires covered { AreCovered defs.now self.old.proof.branches }
        ensures over { IfOk result (λ turn. turn ≡ On → IsCrowded flow.now defs.now self.new.lines.items) }
        ensures whole { IfOk result (λ turn. turn ≡ Whole → IsWalk flow.now defs.now self.new × (self.new.proof.branches ≡ [])) }
    {
        for number in 0..u64::MAX {
            let _number = number;
            if self.is_over() {
                return Ok(Turn::On);
            }
            if self.step(flow, defs)? == Turn::Whole {
                return Ok(Turn::Whole);
            }
        }
        Err(AllocError)
    }
}
