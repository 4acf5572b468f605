// How many branches come of a line.
ghost use Rattle.std.specs.Prelude.{◌≡◌, ◌+◌, IfOk, option_copied};
ghost use Rattle.mc_state.specs.Graph.Graph.{edge_with};
ghost use Rattle.mc_follow.specs.Alarms.Tracks.{come, own_calls, own_calls_in, rules_of, step_count, unfold_count};
ghost use Rattle.mc_follow.specs.Alarms.Walks.{IsComing};

use crate::alarms::walk::Walk;
use mc_base::{EdgeId, NoMemory, NodeId, PredId};
use mc_flow::Defs;
use mc_flow::defs::{Call, Def, Rule};
use mc_lines::cert::Line;
use mc_state::InstrRule;
use mc_state::graph::Edge;
use mc_symbolic::State;
use std::alloc::AllocError;

/// What comes of a line at a branch: how many branches, and the next new node there.
#[derive(Clone, Copy)]
pub struct Coming {
    pub node: NodeId,
    pub count: u64,
}

/// The sum. No memory where it can't be counted.
pub fn sum(left: u64, right: u64) -> Result<u64, NoMemory>
    ensures { IfOk result (λ n. n ≡ left + right) }
{
    match left.checked_add(right) {
        Some(sum) => Ok(sum),
        None => Err(AllocError),
    }
}

/// How many calls are of a predicate.
fn own_calls(pred: PredId, calls: &[Call]) -> u64
    ensures { result ≡ own_calls pred calls.now }
{
    let mut count = 0u64;
    for call in calls {
        if call.pred.0 == pred.0 {
            count += 1;
        }
    }
    count
}

/// The same of rules. No memory where they can't be counted.
fn own_calls_in(pred: PredId, rules: &[Rule]) -> Result<u64, NoMemory>
    ensures { IfOk result (λ n. n ≡ own_calls_in pred rules.now) }
{
    let mut count = 0u64;
    for rule in rules {
        count = sum(count, own_calls(pred, rule.calls.as_slice()))?;
    }
    Ok(count)
}

/// How many branches come of an edge that is unfolded.
fn unfold_count(defs: &[Def], edge: &Edge) -> Result<u64, NoMemory>
    ensures { IfOk result (λ n. n ≡ unfold_count defs.now (Some edge.now)) }
{
    match edge {
        Edge::Block { .. } => Ok(0),
        Edge::Ind { pred, .. } => match defs.get(pred.0 as usize) {
            Some(def) => Ok(def.rules.len() as u64),
            None => Ok(0),
        },
        Edge::Seg { pred, .. } => match defs.get(pred.0 as usize) {
            Some(def) => sum(1, own_calls_in(*pred, def.rules.as_slice())?),
            None => Ok(1),
        },
    }
}

/// How many come of an edge with an id.
fn unfold_count_at(defs: &Defs, state: &State, edge: EdgeId) -> Result<u64, NoMemory>
    ensures { IfOk result (λ n. n ≡ unfold_count defs.now (edge_with state.now.graph.edges edge)) }
{
    match state.edge(edge) {
        Some(edge) => unfold_count(defs.as_slice(), edge),
        None => Ok(0),
    }
}

/// How many come of an instruction.
fn step_count(rule: InstrRule) -> u64
    ensures { result ≡ step_count rule }
{
    match rule {
        InstrRule::S10 => 2,
        InstrRule::S13 => 2,
        InstrRule::S14 => 2,
        InstrRule::S16 => 2,
        InstrRule::S17 => 0,
        _ => 1,
    }
}

/// How many branches come of a line at a state. No memory where they can't be counted.
fn come(defs: &Defs, state: &State, line: &Line) -> Result<u64, NoMemory>
    ensures { IfOk result (λ n. n ≡ come defs.now state.now line.now) }
{
    match line {
        Line::Step(rule) => Ok(step_count(*rule)),
        Line::L1(edge) => unfold_count_at(defs, state, *edge),
        Line::L2(edge) => unfold_count_at(defs, state, *edge),
        Line::L15(edge) => unfold_count_at(defs, state, *edge),
        Line::L12 => Ok(0),
        Line::L13(_, _, _) => Ok(0),
        Line::L14(_) => Ok(0),
        Line::C1 => Ok(0),
        _ => Ok(1),
    }
}

impl Walk<'_> {
    /// What comes of a line at the first branch.
    pub fn coming(&self, defs: &Defs, line: &Line) -> Result<Coming, NoMemory>
        ensures { IfOk result (IsComing defs.now line.now self.now.proof) }
    {
        let Some(branch) = self.proof.current() else {
            return Ok(Coming {
                node: NodeId(0),
                count: 0,
            });
        };
        Ok(Coming {
            node: branch.state.next_node(),
            count: come(defs, &branch.state, line)?,
        })
    }
}
