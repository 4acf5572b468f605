// Ranges of numbers: sums, differences, products, what both hold, what either holds, where widening stops.
ghost use Rattle.std.specs.Prelude.{IfSome};
ghost use Rattle.mc_base.specs.Ranges.Range.{IsIntRange};

use anyhow::{Result, bail};
use mc_base::ranges::Range;
use mc_cases::Case;
use serde_json::Value;
use std::alloc::{AllocError, Global};

const THRESHOLDS: [i64; 3] = [100, 0, 10];

// An end of a range.
fn end(value: &Value) -> Option<i32> {
    i32::try_from(value.as_i64()?).ok()
}

// Two ends, in any order.
fn ends(case: Case<'_>, key: &str) -> Result<(i32, i32)> {
    match case.list(key)? {
        [low, high] => match (end(low), end(high)) {
            (Some(low), Some(high)) => Ok((low, high)),
            _ => bail!("no int at {key:?}"),
        },
        _ => bail!("no two ends at {key:?}"),
    }
}

// The range of two ends.
fn range(ends: (i32, i32)) -> Range {
    Range {
        lo: i64::from(ends.0),
        hi: i64::from(ends.1),
    }
}

// The range of two ends in order.
fn filled(ends: (i32, i32)) -> Option<Range>
    ensures { IfSome result (λ range. IsIntRange range) }
{
    if ends.0 > ends.1 {
        return None;
    }
    Some(Range {
        lo: i64::from(ends.0),
        hi: i64::from(ends.1),
    })
}

/// What comes of a case's call on its two ranges.
pub fn came(alloc: Global, case: Case<'_>) -> Result<String> {
    let left = ends(case, "left")?;
    let right = ends(case, "right")?;
    Ok(answer(alloc, case.text("call")?, left, right)?)
}

fn answer(
    alloc: Global,
    call: &str,
    left: (i32, i32),
    right: (i32, i32),
) -> Result<String, AllocError> {
    match call {
        "meet" => shown(alloc, Some(range(left).meet(range(right)))),
        "hull" => shown(alloc, Some(range(left).hull(range(right)))),
        "includes" => format!(in alloc; "{}", range(left).includes(range(right))),
        _ => shown(alloc, of_filled(call, left, right)),
    }
}

// What comes of a call on ranges that hold a number.
fn of_filled(call: &str, left: (i32, i32), right: (i32, i32)) -> Option<Range> {
    let left = filled(left)?;
    let right = filled(right)?;
    match call {
        "add" => left.add(right),
        "sub" => left.sub(right),
        "mul" => left.mul(right),
        "widen" => Some(left.widen(right, &THRESHOLDS)),
        _ => None,
    }
}

fn shown(alloc: Global, range: Option<Range>) -> Result<String, AllocError> {
    match range {
        None => String::from_str(alloc, "none"),
        Some(range) => {
            let low = range.lo;
            let high = range.hi;
            format!(in alloc; "[{low},{high}]")
        }
    }
}
