// The first rules of a predicate that give a guess.
ghost use Rattle.std.specs.Prelude.{◌≡◌, Some, None, IfOk, option_map};
ghost use Rattle.std.specs.Option.{option_copied};
ghost use Rattle.mc_state.specs.Known.{Test, Tells};
ghost use Rattle.mc_cover.specs.Guessed.{block_of_rule, first_block, first_empty};
ghost use Rattle.mc_cover.specs.Search.Setting.{free_edges};

use crate::guess::blocks::block;
use mc_base::{EdgeId, NoMemory, NodeId};
use mc_flow::defs::Rule;
use mc_state::Term;
use mc_symbolic::State;
use std::alloc::Global;

/// A rule whose block is there: the block's id, and the nodes of its fields.
#[derive(Drop)]
pub struct BlockFor<'a> {
    pub rule: &'a Rule,
    pub id: EdgeId,
    pub contents: Vec<NodeId>,
}

/// The rule with its block, if it has one that is there.
fn with_block<'a>(
    alloc: Global,
    state: &State,
    used: &[EdgeId],
    at: &Term,
    rule: &'a Rule,
) -> Result<Option<BlockFor<'a>>, NoMemory>
    ensures { IfOk result (λ found. (know : Test) → Tells know state.now
        → option_map (λ b. record { rule = b.rule.now; id = b.id; contents = b.contents.items }) found
        ≡ block_of_rule know at.now (free_edges state.now used.now) rule.now rule.now.block) }
{
    match rule.block {
        None => Ok(None),
        Some(shape) => match block(alloc, state, used, at, shape)? {
            None => Ok(None),
            Some(found) => Ok(Some(BlockFor {
                rule,
                id: found.0,
                contents: found.1,
            })),
        },
    }
}

/// The first rule whose block is there, with the least such block.
pub fn first_block<'a>(
    alloc: Global,
    state: &State,
    used: &[EdgeId],
    at: &Term,
    rules: &'a [Rule],
) -> Result<Option<BlockFor<'a>>, NoMemory>
    ensures { IfOk result (λ found. (know : Test) → Tells know state.now
        → option_map (λ b. record { rule = b.rule.now; id = b.id; contents = b.contents.items }) found
        ≡ first_block know at.now (free_edges state.now used.now) rules.now) }
{
    for rule in rules {
        match with_block(alloc, state, used, at, rule)? {
            Some(found) => return Ok(Some(found)),
            None => {}
        }
    }
    Ok(None)
}

/// The first rule without a block.
pub fn first_empty(rules: &[Rule]) -> Option<&Rule>
    ensures { option_copied result ≡ first_empty rules.now }
{
    for rule in rules {
        match rule.block {
            None => return Some(rule),
            Some(_shape) => {}
        }
    }
    None
}
