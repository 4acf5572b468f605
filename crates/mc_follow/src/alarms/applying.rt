// Lines that are added to a chain.
ghost use Rattle.std.specs.Prelude.{◌≡◌, ◌+◌, [], IfOk, OnOk, true, false};
ghost use Rattle.mc_follow.specs.Alarms.Outcomes.{IsOnward};
ghost use Rattle.mc_follow.specs.Alarms.Walks.{AreCovered, IsAtCode, IsFirstGone, IsMet, IsNowhere, IsSure, IsTurned, IsWalk, MayApply, ending, goes_on};
ghost use Rattle.mc_flow.specs.Valid.{IsValid};

use crate::alarms::coming::sum;
use crate::alarms::laws::{branches_are_followed, documents_are_followed};
use crate::alarms::lines::{ending, goes_on};
use crate::alarms::mark::mark;
use crate::alarms::tracks::Tracks;
use crate::alarms::walk::Walk;
use crate::report::{push_alarm, push_real};
use mc_base::NoMemory;
use mc_document::proof::{ApplyFault, Proof};
use mc_flow::{Defs, Flow};
use mc_lines::cert::Line;
use mc_state::{Form, Version};
use std::alloc::{AllocError, Global};

impl<'f> Walk<'f> {
    /// A chain of which the pass is begun.
    pub fn start(alloc: Global, flow: &'f Flow, defs: &'f Defs) -> Result<Walk<'f>, NoMemory>
        requires valid { IsValid flow.now defs.now }
        requires no_loops { flow.now.heads ≡ [] }
        ensures follows { IfOk result (IsWalk flow.now defs.now) }
        ensures covered { IfOk result (λ walk. AreCovered defs.now walk.proof.branches) }
    {
        // For the proof alone: documents are read line by line.
        documents_are_followed();
        branches_are_followed();
        let mut proof = Proof::start(alloc, flow, defs, Form::Chain);
        let tracks = Tracks::entry(alloc)?;
        let mut lines = Vec::new(alloc);
        lines.push(Line::Header(Version::One, Form::Chain))?;
        lines.push(Line::Pass)?;
        match proof.apply(&Line::Pass) {
            Ok(()) => Ok(Walk {
                alloc,
                proof,
                tracks,
                lines,
                text: Vec::new(alloc),
                ended: 0,
            }),
            // Where no loop needs a cut, the pass may begin.
            Err(ApplyFault::Premise(_)) => unreachable!(),
            Err(ApplyFault::NoMemory) => Err(AllocError),
        }
    }

    /// Adds a line at the first branch; whether it is an instance there. Else nothing changes.
    pub fn apply(&mut self, flow: &Flow, defs: &Defs, line: Line) -> Result<bool, NoMemory>
        requires followed { IsWalk flow.now defs.now self.old }
        requires may { MayApply line self.old.proof }
        ensures follows { OnOk result (IsOnward flow.now defs.now self.new) }
        ensures counted { IfOk result (λ applied. applied ≡ true → self.new.ended ≡ self.old.ended + ending line) }
        ensures refused { IfOk result (λ applied. applied ≡ false
            → (self.new.proof ≡ self.old.proof) × (goes_on line ≡ true → IsNowhere flow.now defs.now line self.old.proof)) }
        ensures turned { IfOk result (λ applied. applied ≡ true → IsTurned flow.now defs.now line self.old.proof self.new.proof) }
    {
        // For the proof alone: documents are read line by line.
        documents_are_followed();
        branches_are_followed();
        if !goes_on(&line) {
            return Ok(false);
        }
        let ended = sum(self.ended, ending(&line))?;
        let coming = self.coming(defs, &line)?;
        match self.proof.apply(&line) {
            Ok(()) => {
                self.ended = ended;
                self.tracks.turn(&line, coming.node, coming.count)?;
                self.lines.push(line)?;
                Ok(true)
            }
            Err(ApplyFault::Premise(_)) => Ok(false),
            Err(ApplyFault::NoMemory) => Err(AllocError),
        }
    }

    /// Goes on by a line that is surely read.
    pub fn turn(&mut self, flow: &Flow, defs: &Defs, line: Line) -> Result<(), NoMemory>
        requires followed { IsWalk flow.now defs.now self.old }
        requires sure { IsSure flow.now defs.now line self.old.proof }
        ensures follows { OnOk result (IsOnward flow.now defs.now self.new) }
        ensures counted { OnOk result (self.new.ended ≡ self.old.ended + ending line) }
        ensures turned { OnOk result (IsTurned flow.now defs.now line self.old.proof self.new.proof) }
    {
        if self.apply(flow, defs, line)? {
            Ok(())
        } else {
            // An instance is not refused.
            unreachable!()
        }
    }

    /// Ends the first branch, with its line in the report, where its instruction lacks something; whether it does.
    pub fn stick(&mut self, flow: &Flow, defs: &Defs) -> Result<bool, NoMemory>
        requires followed { IsWalk flow.now defs.now self.old }
        requires here { IsAtCode self.old.proof }
        ensures follows { OnOk result (IsOnward flow.now defs.now self.new) }
        ensures still { IfOk result (λ stuck. stuck ≡ false → IsWalk flow.now defs.now self.new) }
        ensures met { IfOk result (λ stuck. stuck ≡ false
            → (self.new.proof ≡ self.old.proof) × IsMet flow.now defs.now self.old.proof) }
        ensures gone { IfOk result (λ stuck. stuck ≡ true → IsFirstGone self.old.proof self.new.proof) }
    {
        // For the proof alone: documents are read line by line.
        documents_are_followed();
        branches_are_followed();
        let Some(branch) = self.proof.current() else {
            return Ok(false);
        };
        let mut line = Vec::new(self.alloc);
        let found = push_alarm(
            self.alloc,
            &mut line,
            flow,
            defs,
            branch.point,
            &branch.state,
        )?;
        let Some(gap) = found else {
            return Ok(false);
        };
        let mark = mark(self.alloc, &branch.state, self.tracks.first(), gap)?;
        push_real(self.alloc, &mut line, &mark)?;
        let ended = sum(self.ended, 1)?;
        match self.proof.apply(&Line::C1) {
            Ok(()) => {
                self.ended = ended;
                self.tracks.pop();
                self.lines.push(Line::C1)?;
                self.text.extend_from_slice(line.as_slice())?;
                Ok(true)
            }
            Err(ApplyFault::Premise(_)) => Ok(false),
            Err(ApplyFault::NoMemory) => Err(AllocError),
        }
    }
}
