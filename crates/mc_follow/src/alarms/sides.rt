// Side branches.
ghost use Rattle.std.specs.Prelude.{◌≡◌, ◌≤◌, ◌++◌, ◌∷◌, [], IfOk, MatchOption, OnOk, length, map, option_map, pos, reverse, true};
ghost use Rattle.mc_follow.specs.Alarms.Sides.{AreMarksMet, AreMetsOf, HasMet, HasName, HaveNames, IsAtGoal, IsAtMark, IsAtMarks, IsCoverFound};
ghost use Rattle.mc_follow.specs.Alarms.Sides.{IsKnownWritten, IsLastEdge, IsMarkMet, IsNextNode, IsSound, MayName, MayNameAll, PushesLast, TellsFalse, TellsSound};
ghost use Rattle.mc_follow.specs.Alarms.Outcomes.{IsOnward};
ghost use Rattle.mc_follow.specs.Alarms.Walks.{IsAtCovered, IsFirstGone, IsSure, IsTurned, IsWalk, ending};
ghost use Rattle.mc_lines.specs.declared.cert.line.Line.TheVariants as line;
ghost use Rattle.mc_cover.specs.declared.goals.Mark.TheVariants as mark;
ghost use Rattle.mc_state.specs.Facts.{IsFalse};
ghost use Rattle.mc_state.specs.Terms.{plain};

use crate::alarms::laws::documents_are_followed;
use crate::alarms::walk::Walk;
use crate::ending::{Met, all_met, goals_are_made, rule_of};
use mc_base::{EdgeId, Items, Kind, NoMemory, NodeId};
use mc_cover::search::{cover, plain, plain_terms};
use mc_cover::{Goal, Mark, none_is_missed};
use mc_flow::{Defs, Flow};
use mc_lines::cert::Line;
use mc_state::{FoldInd, Goal as SideGoal, Term};
use mc_symbolic::State;
use std::alloc::Global;

/// The goals that the marks of the first cover of a side branch's goal meet, in order. None where there is no cover. The
/// state must not be false.
fn mets_of(
    alloc: Global,
    defs: &Defs,
    state: &State,
    goal: &SideGoal,
) -> Result<Option<Vec<Met>>, NoMemory>
    requires sound { IsFalse state.now → ⊥ }
    ensures { IfOk result (λ found. IsCoverFound defs.now state.now goal.now (option_map (λ mets. mets.items) found)) }
{
    let args = plain_terms(alloc, goal.args.as_slice())?;
    let at = plain(goal.at);
    let Some(marks) = cover(alloc, state, defs, &[], goal.pred, at, args.as_slice())? else {
        return Ok(None);
    };
    let first = Goal {
        pred: goal.pred,
        at,
        args: Items::of(args),
        stop: None,
    };
    let mets = all_met(alloc, state, defs, first, marks.as_slice())?;
    Ok(Some(mets))
}

// Takes the edge on top of a stack.
fn take_edge(made: &mut Vec<EdgeId>) -> Option<EdgeId>
    ensures { MatchOption result (reverse made.old.items ≡ []) (λ edge. reverse made.old.items ≡ edge ∷ reverse made.new.items) }
{
    made.pop()
}

// Takes the last goal.
fn take_met(mets: &mut Vec<Met>) -> Option<Met>
    ensures { MatchOption result (reverse mets.old.items ≡ []) (λ met. reverse mets.old.items ≡ met ∷ reverse mets.new.items) }
{
    mets.pop()
}

// The first edges from the top of a stack, on which there are so many.
fn take_edges(alloc: Global, made: &mut Vec<EdgeId>, count: usize) -> Result<Vec<EdgeId>, NoMemory>
    requires { count ≤ length made.old.items }
    ensures count { IfOk result (λ edges. length edges.items ≡ count) }
    ensures taken { IfOk result (λ edges. reverse made.old.items ≡ edges.items ++ reverse made.new.items) }
{
    let mut edges = Vec::new(alloc);
    for _ in 0..count {
        match made.pop() {
            Some(edge) => edges.push(edge)?,
            None => unreachable!(),
        }
    }
    Ok(edges)
}

// Whether a term is a node alone.
fn is_alone(term: Term) -> bool
    ensures { result ≡ true → term.add ≡ pos 0 }
{
    term.add == 0
}

// The line that names a term by a new node.
fn naming(term: Term, kind: Kind) -> Line
    ensures { result ≡ line.L8 term.node term.add kind }
{
    Line::L8(term.node, term.add, kind)
}

impl Walk<'_> {
    /// The goals of the first branch's cover, in order.
    fn met_now(&self, flow: &Flow, defs: &Defs) -> Result<Vec<Met>, NoMemory>
        requires followed { IsWalk flow.now defs.now self.now }
        requires here { IsAtCovered defs.now self.now.proof }
        requires sound { IsSound self.now.proof }
        ensures { IfOk result (λ mets. AreMetsOf defs.now self.now.proof (reverse mets.items)) }
    {
        // For the proof alone: the state is well made, and where there is a cover, there is a first one.
        documents_are_followed();
        none_is_missed();
        let _points = flow.points.len();
        let Some(branch) = self.proof.current() else {
            unreachable!()
        };
        let Some(goal) = &branch.goal else {
            unreachable!()
        };
        match mets_of(self.alloc, defs, &branch.state, goal)? {
            Some(mets) => Ok(mets),
            None => unreachable!(),
        }
    }

    /// The edge that was made last.
    fn last_edge(&self) -> Option<EdgeId>
        ensures { IsLastEdge self.now.proof result }
    {
        match self.proof.current() {
            Some(branch) => match branch.state.edges().last() {
                Some(entry) => Some(entry.0),
                None => None,
            },
            None => None,
        }
    }

    /// The node that would be the next new one.
    fn next_node(&self) -> Option<NodeId>
        ensures { IsNextNode self.now.proof result }
    {
        match self.proof.current() {
            Some(branch) => Some(branch.state.next_node()),
            None => None,
        }
    }

    /// Whether the first branch's state is false.
    fn is_false(&self) -> bool
        ensures { TellsFalse self.now.proof result }
    {
        match self.proof.current() {
            Some(branch) => branch.state.is_false(),
            None => false,
        }
    }

    /// Goes on by a line of a side branch, which does not end it; whether its state is not false then.
    fn lay(&mut self, flow: &Flow, defs: &Defs, line: Line) -> Result<bool, NoMemory>
        requires followed { IsWalk flow.now defs.now self.old }
        requires sure { IsSure flow.now defs.now line self.old.proof }
        requires lasts { ending line ≡ 0 }
        ensures follows { OnOk result (IsWalk flow.now defs.now self.new) }
        ensures turned { OnOk result (IsTurned flow.now defs.now line self.old.proof self.new.proof) }
        ensures sound { IfOk result (TellsSound self.new.proof) }
    {
        self.turn(flow, defs, line)?;
        Ok(!self.is_false())
    }

    /// Writes all that is known on the first branch: a node for zero is named and forgotten, and what stays is written. A
    /// fold may then take a block of which an atom of a rule above it speaks. Whether the state is not false then.
    fn write_known(&mut self, flow: &Flow, defs: &Defs) -> Result<bool, NoMemory>
        requires followed { IsWalk flow.now defs.now self.old }
        requires here { IsAtGoal flow.now defs.now self.old.proof }
        ensures follows { OnOk result (IsWalk flow.now defs.now self.new) }
        ensures written { IfOk result (IsKnownWritten flow.now defs.now self.old.proof self.new.proof) }
    {
        // For the proof alone: both lines are instances.
        goals_are_made();
        let node = match self.next_node() {
            Some(node) => node,
            None => unreachable!(),
        };
        if !self.lay(flow, defs, Line::L8(NodeId(0), 0, Kind::Ptr))? {
            return Ok(false);
        }
        let sound = self.lay(flow, defs, Line::L11(node))?;
        Ok(sound)
    }

    /// The node of a term: its own, or a new one. None where the state is false then.
    fn name(
        &mut self,
        flow: &Flow,
        defs: &Defs,
        kind: Kind,
        term: &Term,
    ) -> Result<Option<NodeId>, NoMemory>
        requires followed { IsWalk flow.now defs.now self.old }
        requires here { MayName self.old.proof kind term.now }
        ensures follows { OnOk result (IsWalk flow.now defs.now self.new) }
        ensures named { IfOk result (HasName self.old.proof self.new.proof kind term.now) }
    {
        // For the proof alone: the line is an instance.
        documents_are_followed();
        goals_are_made();
        if is_alone(*term) {
            return Ok(Some(term.node));
        }
        let node = self.next_node();
        if self.lay(flow, defs, naming(*term, kind))? {
            Ok(node)
        } else {
            Ok(None)
        }
    }

    /// The nodes of terms, of these kinds. None where the state is false then.
    fn names(
        &mut self,
        flow: &Flow,
        defs: &Defs,
        kinds: &[Kind],
        terms: &[Term],
    ) -> Result<Option<Vec<NodeId>>, NoMemory>
        requires followed { IsWalk flow.now defs.now self.old }
        requires here { MayNameAll self.old.proof kinds.now terms.now }
        ensures follows { OnOk result (IsWalk flow.now defs.now self.new) }
        ensures named { IfOk result (λ found. HaveNames self.old.proof self.new.proof kinds.now terms.now
            (option_map (λ nodes. nodes.items) found)) }
    {
        let mut nodes = Vec::new(self.alloc);
        for (i, kind) in kinds.iter().enumerate() {
            match self.name(flow, defs, *kind, &terms[i])? {
                Some(node) => nodes.push(node)?,
                None => return Ok(None),
            }
        }
        Ok(Some(nodes))
    }

    /// Makes an edge by a line, and puts it on the stack; whether the state is not false then.
    fn make(
        &mut self,
        flow: &Flow,
        defs: &Defs,
        line: Line,
        made: &mut Vec<EdgeId>,
    ) -> Result<bool, NoMemory>
        requires followed { IsWalk flow.now defs.now self.old }
        requires sure { IsSure flow.now defs.now line self.old.proof }
        requires lasts { ending line ≡ 0 }
        ensures follows { OnOk result (IsWalk flow.now defs.now self.new) }
        ensures turned { OnOk result (IsTurned flow.now defs.now line self.old.proof self.new.proof) }
        ensures sound { IfOk result (TellsSound self.new.proof) }
        ensures pushed { OnOk result (PushesLast self.new.proof made.old.items made.new.items) }
    {
        let sound = self.lay(flow, defs, line)?;
        match self.last_edge() {
            Some(edge) => {
                made.push(edge)?;
                Ok(sound)
            }
            None => Ok(sound),
        }
    }

    /// Folds a rule whose calls are made; whether the state is not false then.
    fn fold(
        &mut self,
        flow: &Flow,
        defs: &Defs,
        met: &Met,
        place: usize,
        block: Option<EdgeId>,
        made: &mut Vec<EdgeId>,
    ) -> Result<bool, NoMemory>
        requires followed { IsWalk flow.now defs.now self.old }
        requires mark { met.now.mark ≡ mark.ByRule place block }
        requires here { IsAtMark flow.now defs.now self.old.proof met.now (reverse made.old.items) }
        ensures follows { OnOk result (IsWalk flow.now defs.now self.new) }
        ensures met { IfOk result
            (IsMarkMet flow.now defs.now met.now self.old.proof (reverse made.old.items) self.new.proof
            (reverse made.new.items)) }
    {
        // For the proof alone: the rule is there, its names may be named, and it folds.
        documents_are_followed();
        goals_are_made();
        let pred = met.goal.pred;
        let rule = match rule_of(defs, pred, place) {
            Some(rule) => rule,
            None => unreachable!(),
        };
        let kinds = rule.names.as_slice();
        let names = match self.names(flow, defs, kinds, met.names.as_slice())? {
            Some(names) => names,
            None => return Ok(false),
        };
        let calls = take_edges(self.alloc, made, rule.calls.len())?;
        let fold = FoldInd {
            pred,
            rule: place as u64,
            names: Items::of(names),
            block,
            edges: Items::of(calls),
        };
        let folded = self.make(flow, defs, Line::L3(fold), made)?;
        Ok(folded)
    }

    /// Closes a segment by the edge that was made last; whether the state is not false then.
    fn close(
        &mut self,
        flow: &Flow,
        defs: &Defs,
        met: &Met,
        seg: EdgeId,
        made: &mut Vec<EdgeId>,
    ) -> Result<bool, NoMemory>
        requires followed { IsWalk flow.now defs.now self.old }
        requires mark { met.now.mark ≡ mark.BySeg seg }
        requires here { IsAtMark flow.now defs.now self.old.proof met.now (reverse made.old.items) }
        ensures follows { OnOk result (IsWalk flow.now defs.now self.new) }
        ensures met { IfOk result
            (IsMarkMet flow.now defs.now met.now self.old.proof (reverse made.old.items) self.new.proof
            (reverse made.new.items)) }
    {
        // For the proof alone: what is after the segment is made, and it closes.
        documents_are_followed();
        goals_are_made();
        match take_edge(made) {
            Some(rest) => {
                let closed = self.make(flow, defs, Line::L5(seg, rest), made)?;
                Ok(closed)
            }
            None => unreachable!(),
        }
    }

    /// Makes the goal of a mark of what the mark leaves; whether the state is not false then.
    fn meet(
        &mut self,
        flow: &Flow,
        defs: &Defs,
        met: &Met,
        made: &mut Vec<EdgeId>,
    ) -> Result<bool, NoMemory>
        requires followed { IsWalk flow.now defs.now self.old }
        requires here { IsAtMark flow.now defs.now self.old.proof met.now (reverse made.old.items) }
        ensures follows { OnOk result (IsWalk flow.now defs.now self.new) }
        ensures met { IfOk result
            (IsMarkMet flow.now defs.now met.now self.old.proof (reverse made.old.items) self.new.proof
            (reverse made.new.items)) }
    {
        // For the proof alone: an Ind is there, and no mark is one of a segment.
        goals_are_made();
        match met.mark {
            Mark::ByInd(edge) => {
                made.push(edge)?;
                Ok(true)
            }
            Mark::BySeg(seg) => {
                let closed = self.close(flow, defs, met, seg, made)?;
                Ok(closed)
            }
            Mark::ByRule { place, block } => {
                let folded = self.fold(flow, defs, met, place, block, made)?;
                Ok(folded)
            }
            Mark::AtEnd => unreachable!(),
            Mark::ByCall { .. } => unreachable!(),
        }
    }

    /// Makes the goals of a cover, the last one first; whether the state is not false then.
    fn meet_all(
        &mut self,
        flow: &Flow,
        defs: &Defs,
        mut mets: Vec<Met>,
        made: &mut Vec<EdgeId>,
    ) -> Result<bool, NoMemory>
        requires followed { IsWalk flow.now defs.now self.old }
        requires here { IsAtMarks flow.now defs.now self.old.proof (reverse mets.items) (reverse made.old.items) }
        ensures follows { OnOk result (IsWalk flow.now defs.now self.new) }
        ensures met { IfOk result
            (AreMarksMet flow.now defs.now (reverse mets.items) self.old.proof
            (reverse made.old.items) self.new.proof (reverse made.new.items)) }
    {
        while let Some(met) = take_met(&mut mets) {
            if !self.meet(flow, defs, &met, made)? {
                return Ok(false);
            }
        }
        Ok(true)
    }

    /// An edge that meets the goal of the first branch, a side branch, made of the edges of a cover where all that is known
    /// is written. None where the state is false.
    fn met_by(&mut self, flow: &Flow, defs: &Defs) -> Result<Option<EdgeId>, NoMemory>
        requires followed { IsWalk flow.now defs.now self.old }
        requires here { IsAtCovered defs.now self.old.proof }
        ensures follows { OnOk result (IsWalk flow.now defs.now self.new) }
        ensures met { IfOk result (HasMet self.old.proof self.new.proof) }
    {
        // For the proof alone: the goal may be made, and one edge is left at the end.
        documents_are_followed();
        goals_are_made();
        if self.is_false() {
            return Ok(None);
        }
        let mets = self.met_now(flow, defs)?;
        if !self.write_known(flow, defs)? {
            return Ok(None);
        }
        let mut made = Vec::new(self.alloc);
        if !self.meet_all(flow, defs, mets, &mut made)? {
            return Ok(None);
        }
        Ok(take_edge(&mut made))
    }

    /// Ends the first branch, which is a side branch: by an edge that meets its goal, or as false.
    pub fn end_side(&mut self, flow: &Flow, defs: &Defs) -> Result<(), NoMemory>
        requires followed { IsWalk flow.now defs.now self.old }
        requires here { IsAtCovered defs.now self.old.proof }
        ensures follows { OnOk result (IsOnward flow.now defs.now self.new) }
        ensures ended { OnOk result (IsFirstGone self.old.proof self.new.proof) }
    {
        match self.met_by(flow, defs)? {
            Some(edge) => self.turn(flow, defs, Line::L14(edge)),
            None => self.turn(flow, defs, Line::L12),
        }
    }
}
