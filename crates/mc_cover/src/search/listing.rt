// The marks of a goal, in order.
ghost use Rattle.std.specs.Prelude.{◌≡◌, ◌++◌, IfOk, OnOk, Some, map};
ghost use Rattle.std.specs.List.{flat_map};
ghost use Rattle.mc_cover.specs.declared.goals.Mark.TheVariants as mark;
ghost use Rattle.std.specs.Option.{option_copied};
ghost use Rattle.mc_cover.specs.Marks.{blocks_for, marks_with, marks_of_rules, rules_of, marks_on};

use crate::Mark;
use mc_base::{EdgeId, NoMemory};
use mc_flow::defs::{Def, Rule};
use std::alloc::Global;

// How many marks there is room for at first.
const ROOM: usize = 16;

// Adds each edge as an Ind.
fn push_inds(all: &mut Vec<Mark>, ids: &[EdgeId]) -> Result<(), NoMemory>
    ensures { OnOk result (all.new.items ≡ all.old.items ++ map mark.ByInd ids.now) }
{
    for id in ids {
        all.push(Mark::ByInd(*id))?;
    }
    Ok(())
}

// Adds each edge as a Seg.
fn push_segs(all: &mut Vec<Mark>, ids: &[EdgeId]) -> Result<(), NoMemory>
    ensures { OnOk result (all.new.items ≡ all.old.items ++ map mark.BySeg ids.now) }
{
    for id in ids {
        all.push(Mark::BySeg(*id))?;
    }
    Ok(())
}

// Adds a rule with a block: whole, and with each choice of the call that goes on to the stop.
fn push_with(
    all: &mut Vec<Mark>,
    place: usize,
    rule: &Rule,
    block: Option<EdgeId>,
) -> Result<(), NoMemory>
    ensures { OnOk result (all.new.items ≡ all.old.items ++ marks_with place rule.now block) }
{
    all.push(Mark::ByRule { place, block })?;
    for call in 0..rule.calls.len() {
        all.push(Mark::ByCall { place, block, call })?;
    }
    Ok(())
}

// Adds a rule with each block that it may have.
fn push_rule(all: &mut Vec<Mark>, ids: &[EdgeId], place: usize, rule: &Rule) -> Result<(), NoMemory>
    ensures { OnOk result (all.new.items ≡ all.old.items ++ flat_map (marks_with place rule.now) (blocks_for ids.now rule.now.block)) }
{
    if rule.block.is_none() {
        return push_with(all, place, rule, None);
    }
    for id in ids {
        push_with(all, place, rule, Some(*id))?;
    }
    Ok(())
}

// Adds all rules.
fn push_rules(all: &mut Vec<Mark>, ids: &[EdgeId], rules: &[Rule]) -> Result<(), NoMemory>
    ensures { OnOk result (all.new.items ≡ all.old.items ++ marks_of_rules ids.now 0 rules.now) }
{
    for (place, rule) in rules.iter().enumerate() {
        push_rule(all, ids, place, rule)?;
    }
    Ok(())
}

// The rules of a predicate that may be defined.
fn rules_of(def: Option<&Def>) -> &[Rule]
    ensures { result.now ≡ rules_of (option_copied def.entry) }
{
    match def {
        Some(def) => def.rules.as_slice(),
        None => &[],
    }
}

/// The marks of a goal with edges of these ids.
pub fn marks_on(alloc: Global, ids: &[EdgeId], def: Option<&Def>) -> Result<Vec<Mark>, NoMemory>
    ensures { IfOk result (λ all. all.items ≡ marks_on ids.now (option_copied def.entry)) }
{
    let mut all = Vec::with_capacity(alloc, ROOM)?;
    all.push(Mark::AtEnd)?;
    push_inds(&mut all, ids)?;
    push_segs(&mut all, ids)?;
    push_rules(&mut all, ids, rules_of(def))?;
    Ok(all)
}
