// The steps of a join, one after the other.
ghost use Rattle.std.specs.Prelude.{◌≡◌, All, IfOk};
ghost use Rattle.mc_base.specs.Ranges.Ends.{IsInt};
ghost use Rattle.mc_joins.specs.Parts.{Basis};
ghost use Rattle.mc_replay.specs.Good.{AreGood};
ghost use Rattle.mc_replay.specs.Joined.{seen};
ghost use Rattle.mc_replay.specs.Replayed.{IsAnswer, IsReplay};
ghost use Rattle.mc_replay.specs.Steps.{ForTests};
ghost use Rattle.mc_replay.specs.Whole.{IsReached, MayJoin, TellsOf};

use crate::joining::{Joining, begin};
use crate::pairs::Pair;
use crate::steps::{is_stuck, take_step};
use crate::whole::joined_state;
use mc_base::NoMemory;
use mc_flow::defs::Defs;
use mc_joins::made_are_told;
use mc_state::JoinStep;
use mc_symbolic::State;
use std::alloc::Global;

/// How far steps lead.
#[derive(Drop)]
pub enum Replayed {
    /// They are a whole join, which gives this state.
    Done(State),
    /// Each applies in its place, and edges are left at a pair: the pairs so far, and whether no step applies at the next.
    Open { pairs: Vec<Pair>, stuck: bool },
    /// The step with this number, counted from 1, is the first that does not apply.
    Wrong(u64),
}

/// Where the join has come to its end what it gives, else whether it is stuck.
fn answer(
    alloc: Global,
    left: &State,
    right: &State,
    join: Joining,
    defs: &Defs,
    round: u64,
    thresholds: &[i64],
) -> Result<Replayed, NoMemory>
    requires good { AreGood join }
    requires reached { IsReached left.now right.now (seen join) }
    requires ints { All IsInt thresholds.now }
    ensures { IfOk result (λ replayed. ForTests defs.now join (λ w.
        IsAnswer w round thresholds.now left.now right.now (seen join) replayed)) }
{
    match join.next_pair() {
        Some(_) => {}
        None => {
            let state = joined_state(alloc, left, right, &join, round, thresholds)?;
            return Ok(Replayed::Done(state));
        }
    }
    let stuck = is_stuck(alloc, &join, defs)?;
    let Joining {
        left: _,
        right: _,
        pairs,
        edges: _,
        closed: _,
    } = join;
    Ok(Replayed::Open { pairs, stuck })
}

/// The steps of a join applied one after the other to two states that are not false, in a pass: a whole join with what it
/// gives, or how far they lead. Each state is copied once; where a test of a step finds that a predicate's arguments want
/// nodes, the state is copied once more for it.
pub fn replay(
    alloc: Global,
    defs: &Defs,
    left: &State,
    right: &State,
    steps: &[JoinStep],
    round: u64,
    thresholds: &[i64],
) -> Result<Replayed, NoMemory>
    requires states { MayJoin defs.now left.now right.now }
    requires ints { All IsInt thresholds.now }
    ensures { IfOk result (λ replayed. (w : Basis) → w.defs ≡ defs.now → TellsOf w left.now right.now
        → IsReplay w round thresholds.now left.now right.now steps.now replayed) }
{
    made_are_told();
    let mut join = begin(alloc, left, right)?;
    for (place, step) in steps.iter().enumerate() {
        if !take_step(alloc, &mut join, defs, *step)? {
            return Ok(Replayed::Wrong(place as u64 + 1));
        }
    }
    answer(alloc, left, right, join, defs, round, thresholds)
}
