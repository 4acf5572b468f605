// The open chain of several passes.
ghost use Rattle.std.specs.Prelude.{◌≡◌, ◌<◌, ◌≤◌, ℕ, List, true, Err, IfErr, IfOk, OnOk, insert, length, option_map, slice_set};
ghost use Rattle.mc_flow.specs.Valid.{IsValid};
ghost use Rattle.mc_kernel.specs.Readings.{finished};
ghost use Rattle.mc_check_line.specs.Judging.{path};
ghost use Rattle.mc_kernel.specs.Branches.{Head as CutState};
ghost use Rattle.mc_document.specs.declared.proof.fault.ApplyFault.TheVariants.{NoMemory, Premise};
ghost use Rattle.mc_document.specs.Proof.Lines.{ComesTo};
ghost use Rattle.mc_document.specs.Proof.Positions.{IsLost};
ghost use Rattle.mc_joins.specs.Chains.Chains.{over};
ghost use Rattle.mc_joins.specs.Chains.Judges.{begun_chain, may_change};
ghost use Rattle.mc_joins.specs.Chains.Laws.{Made};
ghost use Rattle.mc_replay.specs.Changes.{states_held};
ghost use Rattle.mc_judge.specs.Passes.Lines.{ByLores, IsPut, IsReady, IsUnready, changer, is_due_at, joining_at, may_pass_at, opening_at, pass_at};
ghost use Rattle.mc_judge.specs.Passes.Positions.{Applies, IsWhole, Tries, passes_of};

use crate::passes::places::{place_at, place_for, states_at};
use mc_base::{Items, PointId};
use mc_document::proof::{ApplyFault, Branch, Proof, Stage, is_cut, is_ruling};
use mc_flow::{Defs, Flow};
use mc_joins::chains::{lores_are_there, numbering_makes_well};
use mc_joins::joins_make_well;
use mc_lines::cert::Line;
use mc_replay::{changes_are_parted, opened, rejoined};
use mc_state::{Form, JoinStep};
use mc_symbolic::State;
use std::alloc::Global;

/// A chain of several passes that is being read.
#[derive(Drop)]
pub struct Passes<'f> {
    // Its cuts, the states of cuts as they are, and the branches that are open in its last pass.
    proof: Proof<'f>,
    // The number of its last pass; 0 before the first.
    round: u64,
    // Whether a line of that pass has changed the states of cuts.
    changed: bool,
}

/// What a whole chain is.
#[derive(Clone, Copy, Debug, PartialEq, Eq)]
pub struct WholeChain {
    /// How many branches are stuck in its last pass.
    pub alarms: u64,
    /// Whether its last pass changes the states of cuts.
    pub changed: bool,
}

/// Whether a line that changes the states of cuts may stand at a branch of a chain: where a jump may, but not on a closing
/// branch.
fn may_change(cuts: &[PointId], branch: &Branch) -> bool
    ensures { (heads : List CutState) → result ≡ may_change (over cuts.now heads) (path branch.now) }
{
    branch.goal.is_none() && is_cut(cuts, branch.point) && branch.moved && !branch.closing
}

impl<'f> Passes<'f> {
    /// Begins a chain of which nothing but the header is read.
    pub fn start(alloc: Global, flow: &'f Flow, defs: &'f Defs) -> Passes<'f>
        requires { IsValid flow.now defs.now }
        ensures { result ≡ passes_of flow.now defs.now begun_chain }
    {
        Passes {
            proof: Proof::start(alloc, flow, defs, Form::Chain),
            round: 0,
            changed: false,
        }
    }

    /// Its flow graph is valid.
    pub fn is_held(&self)
        ensures { IsValid self.now.proof.flow self.now.proof.defs }
    {
        self.proof.is_held();
    }

    /// Applies a line. A refused line changes nothing. Without memory the chain is lost: no branch is open any more, and
    /// every later line finds no memory either.
    pub fn apply(&mut self, line: &Line) -> Result<(), ApplyFault>
        ensures applies { Applies line.now self.old self.new result }
        ensures lost { self.old.proof.lost ≡ true → result ≡ Err NoMemory }
    {
        if self.proof.is_lost() {
            return self.proof.lose();
        }
        match self.try_line(line) {
            Ok(()) => Ok(()),
            Err(ApplyFault::Premise(premise)) => Err(ApplyFault::Premise(premise)),
            Err(ApplyFault::NoMemory) => self.proof.lose(),
        }
    }

    /// Tries a line. A refused line changes nothing.
    fn try_line(&mut self, line: &Line) -> Result<(), ApplyFault>
        ensures { Tries line.now self.old self.new result }
    {
        // For the proof alone: a right lore tells what stays where a line is refused.
        lores_are_there();
        self.proof.is_held();
        match line {
            Line::Header(_, _) => Err(ApplyFault::Premise(1)),
            Line::Cut(point) => self.proof.cut(*point),
            Line::Head(point, raw) => self.proof.head(*point, raw),
            Line::Pass => self.pass(),
            Line::End => self.proof.end(),
            Line::C2(tries) => self.open_state(tries),
            Line::C3(number, steps) => self.join_state(*number, steps),
            _ => self.proof.rule(line),
        }
    }

    /// Whether a pass may stand here.
    fn may_pass(&self) -> bool
        ensures { result ≡ may_pass_at self.now.proof self.now.proof.stage }
    {
        match self.proof.stage() {
            Stage::Cutting => self.proof.has_all_heads(),
            Stage::Heading => true,
            Stage::Ruling => true,
            Stage::Finished => false,
        }
    }

    /// Whether no branch is open, and the pass before, if there is one, has changed the states of cuts.
    fn is_due(&self) -> bool
        ensures { result ≡ is_due_at self.now }
    {
        self.proof.current().is_none() && (!is_ruling(self.proof.stage()) || self.changed)
    }

    /// A pass: the entry and the states of cuts as they are are open.
    fn pass(&mut self) -> Result<(), ApplyFault>
        ensures { ComesTo (pass_at self.old) self.old self.new result }
    {
        if !self.may_pass() {
            return Err(ApplyFault::Premise(1));
        }
        if !self.is_due() {
            return Err(ApplyFault::Premise(3));
        }
        let Some(round) = self.round.checked_add(1) else {
            return Err(ApplyFault::NoMemory);
        };
        self.proof.reopen()?;
        self.round = round;
        self.changed = false;
        Ok(())
    }

    /// The first branch of a pass, if it may change the states of its cut.
    fn changer(&self) -> Option<&Branch>
        ensures { option_map (λ b. path b.now) result ≡ changer self.now }
    {
        if !is_ruling(self.proof.stage()) {
            return None;
        }
        let Some(branch) = self.proof.current() else {
            return None;
        };
        if may_change(self.proof.cuts(), branch) {
            Some(branch)
        } else {
            None
        }
    }

    /// The first branch of a pass and the states of its cut, where the first two premises of a line that changes these hold: the
    /// branch may do so, and its state is consistent.
    fn ready(&self) -> Result<(&Branch, Vec<&State>), ApplyFault>
        ensures found { IfOk result (λ found. IsReady self.now (path found.0.now) (states_held found.1.items)) }
        ensures refused { IfErr result (λ fault. (n : ℕ) → fault ≡ Premise n → IsUnready self.now n) }
    {
        let Some(branch) = self.changer() else {
            return Err(ApplyFault::Premise(1));
        };
        // For the proof alone: the states of a document are well made.
        self.proof.is_held();
        if branch.state.is_false() {
            return Err(ApplyFault::Premise(2));
        }
        let lefts = states_at(self.proof.alloc(), self.proof.heads(), branch.point)?;
        Ok((branch, lefts))
    }

    /// What C2 puts among the states of cuts at a branch that may change them, and in which place.
    fn opened_at(
        &self,
        branch: &Branch,
        lefts: &[&State],
        tries: &Items<Items<JoinStep>>,
    ) -> Result<(usize, State), ApplyFault>
        requires { IsReady self.now (path branch.now) (states_held lefts.now) }
        ensures put { IsPut insert (λ k. opening_at k tries.now self.now) self.now result }
        ensures within { IfOk result (λ found. found.0 ≤ length self.now.proof.heads) }
        ensures made { IfOk result (λ found. Made self.now.proof.flow self.now.proof.defs found.1) }
    {
        // For the proof alone.
        changes_are_parted();
        lores_are_there();
        numbering_makes_well();
        self.proof.is_held();
        match opened(
            self.proof.alloc(),
            self.proof.defs(),
            lefts,
            &branch.state,
            tries.as_slice(),
        )? {
            Ok(state) => Ok((place_at(self.proof.heads(), branch.point), state)),
            Err(premise) => Err(ApplyFault::Premise(premise)),
        }
    }

    /// What C2 puts among the states of cuts, and in which place.
    fn opened(&self, tries: &Items<Items<JoinStep>>) -> Result<(usize, State), ApplyFault>
        ensures put { IsPut insert (λ k. opening_at k tries.now self.now) self.now result }
        ensures within { IfOk result (λ found. found.0 ≤ length self.now.proof.heads) }
        ensures made { IfOk result (λ found. Made self.now.proof.flow self.now.proof.defs found.1) }
    {
        changes_are_parted();
        match self.ready() {
            Ok((branch, lefts)) => self.opened_at(branch, lefts.as_slice(), tries),
            Err(fault) => Err(fault),
        }
    }

    /// C2: the first branch ends, and its state, numbered anew, is a state more of its cut.
    fn open_state(&mut self, tries: &Items<Items<JoinStep>>) -> Result<(), ApplyFault>
        ensures { ByLores self.old (λ k. ComesTo (opening_at k tries.now self.old) self.old self.new result) }
    {
        let (place, state) = self.opened(tries)?;
        self.proof.put_head(place, state)?;
        self.changed = true;
        Ok(())
    }

    /// What C3 puts among the states of cuts at a branch that may change them, and in which place.
    fn rejoined_at(
        &self,
        branch: &Branch,
        lefts: &[&State],
        number: u64,
        steps: &Items<JoinStep>,
    ) -> Result<(usize, State), ApplyFault>
        requires { IsReady self.now (path branch.now) (states_held lefts.now) }
        ensures put { IsPut slice_set (λ k. joining_at k number steps.now self.now) self.now result }
        ensures within { IfOk result (λ found. found.0 < length self.now.proof.heads) }
        ensures made { IfOk result (λ found. Made self.now.proof.flow self.now.proof.defs found.1) }
    {
        // For the proof alone.
        changes_are_parted();
        lores_are_there();
        joins_make_well();
        self.proof.is_held();
        let Some(place) = place_for(self.proof.heads(), branch.point, number) else {
            return Err(ApplyFault::Premise(3));
        };
        match rejoined(
            self.proof.alloc(),
            self.proof.defs(),
            lefts,
            &branch.state,
            number,
            steps.as_slice(),
            self.round,
            self.proof.flow().thresholds.as_slice(),
        )? {
            Ok(state) => Ok((place, state)),
            Err(unmet) => Err(ApplyFault::Premise(unmet)),
        }
    }

    /// What C3 puts among the states of cuts, and in which place.
    fn rejoined(&self, number: u64, steps: &Items<JoinStep>) -> Result<(usize, State), ApplyFault>
        ensures put { IsPut slice_set (λ k. joining_at k number steps.now self.now) self.now result }
        ensures within { IfOk result (λ found. found.0 < length self.now.proof.heads) }
        ensures made { IfOk result (λ found. Made self.now.proof.flow self.now.proof.defs found.1) }
    {
        changes_are_parted();
        match self.ready() {
            Ok((branch, lefts)) => self.rejoined_at(branch, lefts.as_slice(), number, steps),
            Err(fault) => Err(fault),
        }
    }

    /// C3: the first branch ends, and what a whole join of a state of its cut with its state gives takes that state's
    /// place.
    fn join_state(&mut self, number: u64, steps: &Items<JoinStep>) -> Result<(), ApplyFault>
        ensures { ByLores self.old (λ k. ComesTo (joining_at k number steps.now self.old) self.old self.new result) }
    {
        let (place, state) = self.rejoined(number, steps)?;
        self.proof.swap_head(place, state)?;
        self.changed = true;
        Ok(())
    }

    /// What the chain is, where it has ended; else the chain again, as where it is lost.
    pub fn finish(self) -> Result<WholeChain, Passes<'f>>
        ensures ok { IfOk result (λ c. IsWhole self.entry c) }
        ensures lost { OnOk result (IsLost self.entry.proof → ⊥) }
        ensures err { IfErr result (λ p. (p ≡ self.entry) × (self.entry.proof.stage ≡ finished → ⊥)) }
    {
        let Passes {
            proof,
            round,
            changed,
        } = self;
        match proof.finish() {
            Ok(complete) => Ok(WholeChain {
                alarms: complete.alarms,
                changed,
            }),
            Err(proof) => Err(Passes {
                proof,
                round,
                changed,
            }),
        }
    }
}
