// Joins of what is known on two sides.
use crate::entries::{list, pairs};
use crate::known::{entailed, known_with};
use anyhow::Result;
use mc_base::{NoMemory, NodeId};
use mc_cases::Case;
use mc_pure::Pure;
use mc_pure_ops::join::{are_joinable, join};
use serde_json::Value;
use std::alloc::Global;

const THRESHOLDS: [i64; 3] = [7, 20, 100];

/// The join of the two sides, where they may be joined.
fn joined(
    alloc: Global,
    left: &Pure,
    right: &Pure,
    pairs: &[(NodeId, NodeId)],
    round: u64,
) -> Result<Option<Pure>, NoMemory> {
    if left.is_false() || right.is_false() || !are_joinable(left, right, pairs) {
        return Ok(None);
    }
    let joint = join(alloc, left, right, pairs, round, &THRESHOLDS)?;
    Ok(Some(joint))
}

/// What a case asks of the join: where blocks start, or which of its atoms are entailed.
fn said(alloc: Global, joint: &Pure, case: Case<'_>) -> Result<Value> {
    if case.text_or("asks", "") == "blocks" {
        list(alloc, joint.starts())
    } else {
        entailed(alloc, joint, case)
    }
}

/// What the join of a case says; null where there is none.
pub fn answer(alloc: Global, case: Case<'_>) -> Result<Value> {
    let left = known_with(alloc, case, "left", "left_blocks")?;
    let right = known_with(alloc, case, "right", "right_blocks")?;
    let pairs = pairs(alloc, case, "pairs")?;
    match joined(
        alloc,
        &left,
        &right,
        pairs.as_slice(),
        case.number("round")?,
    )? {
        Some(joint) => said(alloc, &joint, case),
        None => Ok(Value::Null),
    }
}
