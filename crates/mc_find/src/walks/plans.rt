// Plans by which states are folded at a cut.
use crate::matching::Step;
use mc_base::{Kind, NoMemory};
use mc_flow::Defs;
use std::alloc::Global;

/// How states are folded at a cut: how many fields before a live variable's node blocks stay, by how much the numbers of
/// new segments are more, where it begins on the ladder, and how many heads the cut may have.
#[derive(Clone, Copy, PartialEq, Eq)]
pub struct Plan {
    pub before: usize,
    pub room: i64,
    pub step: Step,
    pub keys: usize,
}

/// A plan.
pub const fn planned(before: usize, room: i64, step: Step, keys: usize) -> Plan {
    Plan {
        before,
        room,
        step,
        keys,
    }
}

/// Whether a predicate has a number among its parameters.
fn have_numbers(defs: &Defs) -> bool {
    for def in defs.as_slice() {
        if def.params.as_slice().contains(&Kind::Int) {
            return true;
        }
    }
    false
}

/// The plans that are tried at a cut, one after the other. The first is the one with which it begins.
pub fn plans(alloc: Global, defs: &Defs, keys: usize) -> Result<Vec<Plan>, NoMemory> {
    let many = keys.saturating_mul(4);
    let mut list = Vec::new(alloc);
    list.push(planned(0, 0, Step::Plain, keys))?;
    list.push(planned(1, 0, Step::Plain, keys))?;
    list.push(planned(2, 0, Step::Plain, keys))?;
    if have_numbers(defs) {
        list.push(planned(0, 1, Step::Plain, keys))?;
        list.push(planned(0, -1, Step::Plain, keys))?;
    }
    list.push(planned(0, 0, Step::Coarse, keys))?;
    list.push(planned(0, 0, Step::Match, keys))?;
    list.push(planned(0, 0, Step::Plain, many))?;
    list.push(planned(0, 0, Step::Coarse, many))?;
    Ok(list)
}
