// What the lines that change the states of a cut give there. Whether such a line may stand at a branch, and that its state is not
// false, is known before.
ghost use Rattle.std.specs.Prelude.{◌≡◌, ◌↔◌, ◌∷◌, All, IfOk, IsTrue, length, slice_get};
ghost use Rattle.std.specs.Option.{option_copied};
ghost use Rattle.std.specs.List.{AllByRecursion};
ghost use Rattle.mc_base.specs.Ranges.Ends.{IsInt};
ghost use Rattle.mc_state.specs.Facts.{IsTidy};
ghost use Rattle.mc_state.specs.Lists.{all_both};
ghost use Rattle.mc_joins.specs.Chains.Judges.{gets_stuck};
ghost use Rattle.mc_replay.specs.Whole.{MayJoin};
ghost use Rattle.mc_replay.specs.Changes.{states_held, AreMadeFor, ForTestsOf, ForTestsOfAll, IsJoined, IsOpened, IsRejoined, OpeningIsParted, JoiningIsParted};

use crate::answers::{Replayed, replay};
use mc_base::{Items, NoMemory};
use mc_flow::defs::Defs;
use mc_joins::alike::{are_same, is_tidy};
use mc_joins::anew::{Renewed, anew};
use mc_joins::{joins_are_determined, joins_make_well, joins_name_all, made_are_told};
use mc_state::{JoinStep, tests_tell};
use mc_symbolic::State;
use std::alloc::Global;

/// What is judged here is what is left of the lines after their first two premises.
pub fn changes_are_parted()
    ensures opening { OpeningIsParted }
    ensures joining { JoiningIsParted }
{}

/// Whether each of the states is tidy.
fn are_tidy(alloc: Global, states: &[&State]) -> Result<bool, NoMemory>
    ensures { IfOk result (λ tidy. IsTrue tidy ↔ AllByRecursion IsTidy (states_held states.now)) }
{
    for state in states {
        if !is_tidy(alloc, state)? {
            return Ok(false);
        }
    }
    Ok(true)
}

/// Whether steps are a legal prefix of a join after which no step applies.
fn gets_stuck(
    alloc: Global,
    defs: &Defs,
    left: &State,
    own: &State,
    steps: &[JoinStep],
) -> Result<bool, NoMemory>
    requires { MayJoin defs.now left.now own.now }
    ensures { IfOk result (λ stuck. ForTestsOf defs.now left.now own.now
        (λ w. stuck ≡ gets_stuck w own.now left.now steps.now)) }
{
    match replay(alloc, defs, left, own, steps, 1, &[])? {
        Replayed::Done(_) => Ok(false),
        Replayed::Open { pairs: _, stuck } => Ok(stuck),
        Replayed::Wrong(_) => Ok(false),
    }
}

/// Whether each list of steps gets stuck in a join of its state with the branch's.
fn all_get_stuck(
    alloc: Global,
    defs: &Defs,
    lefts: &[&State],
    own: &State,
    tries: &[Items<JoinStep>],
) -> Result<bool, NoMemory>
    requires long { length tries.now ≡ length lefts.now }
    requires states { AllByRecursion (λ left. MayJoin defs.now left own.now) (states_held lefts.now) }
    ensures { IfOk result (λ stuck. ForTestsOfAll defs.now (states_held lefts.now) own.now
        (λ w. stuck ≡ all_both (gets_stuck w own.now) (states_held lefts.now) tries.now)) }
{
    for (i, left) in lefts.iter().enumerate() {
        if !gets_stuck(alloc, defs, left, own, tries[i].as_slice())? {
            return Ok(false);
        }
    }
    Ok(true)
}

/// C2: what the branch's state becomes as a state more of the cut, whose states are these: the same, numbered anew. There is a
/// list of steps for each of them (premise 3), all are tidy (4), and each list gets stuck (5).
pub fn opened(
    alloc: Global,
    defs: &Defs,
    lefts: &[&State],
    own: &State,
    tries: &[Items<JoinStep>],
) -> Result<Result<State, u8>, NoMemory>
    requires { AreMadeFor defs.now (own.now ∷ states_held lefts.now) }
    ensures { IfOk result (IsOpened defs.now (states_held lefts.now) tries.now own.now) }
{
    // for the proof alone
    tests_tell();
    if tries.len() != lefts.len() {
        return Ok(Err(3));
    }
    if !is_tidy(alloc, own)? {
        return Ok(Err(4));
    }
    if !are_tidy(alloc, lefts)? {
        return Ok(Err(4));
    }
    if !all_get_stuck(alloc, defs, lefts, own, tries)? {
        return Ok(Err(5));
    }
    let Renewed { state, renaming: _ } = anew(alloc, own)?;
    Ok(Ok(state))
}

/// What a whole join gives, if the steps are one.
fn joined(
    alloc: Global,
    defs: &Defs,
    left: &State,
    own: &State,
    steps: &[JoinStep],
    round: u64,
    thresholds: &[i64],
) -> Result<Option<State>, NoMemory>
    requires states { MayJoin defs.now left.now own.now }
    requires ints { All IsInt thresholds.now }
    ensures { IfOk result (λ found. ForTestsOf defs.now left.now own.now
        (IsJoined round thresholds.now left.now own.now steps.now found)) }
{
    match replay(alloc, defs, left, own, steps, round, thresholds)? {
        Replayed::Done(state) => Ok(Some(state)),
        Replayed::Open { pairs: _, stuck: _ } => Ok(None),
        Replayed::Wrong(_) => Ok(None),
    }
}

/// The state with a number, from 0 on.
fn state_at<'a>(states: &[&'a State], number: u64) -> Option<&'a State>
    ensures { option_copied result ≡ slice_get (states_held states.now) number }
{
    match states.get(number as usize) {
        Some(state) => Some(*state),
        None => None,
    }
}

/// C3: what takes the place of a state of the cut, whose states are these: what a whole join of it with the branch's state gives. The
/// cut has a state of this number (premise 3), both are tidy (4), the steps are a whole join (5), and what it gives is not the same
/// as that state under any renaming (6).
pub fn rejoined(
    alloc: Global,
    defs: &Defs,
    lefts: &[&State],
    own: &State,
    number: u64,
    steps: &[JoinStep],
    round: u64,
    thresholds: &[i64],
) -> Result<Result<State, u8>, NoMemory>
    requires made { AreMadeFor defs.now (own.now ∷ states_held lefts.now) }
    requires ints { All IsInt thresholds.now }
    ensures { IfOk result (IsRejoined defs.now round thresholds.now (states_held lefts.now) number steps.now own.now) }
{
    // for the proof alone
    made_are_told();
    joins_name_all();
    joins_make_well();
    joins_are_determined();
    let Some(left) = state_at(lefts, number) else {
        return Ok(Err(3));
    };
    if !is_tidy(alloc, own)? {
        return Ok(Err(4));
    }
    if !is_tidy(alloc, left)? {
        return Ok(Err(4));
    }
    let Some(state) = joined(alloc, defs, left, own, steps, round, thresholds)? else {
        return Ok(Err(5));
    };
    if are_same(alloc, &state, left)? {
        return Ok(Err(6));
    }
    Ok(Ok(state))
}
