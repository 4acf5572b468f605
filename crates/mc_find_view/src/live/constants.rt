// Which variables hold constants alone.
use crate::live::moves::set_variable;
use mc_base::{Kind, NoMemory};
use mc_flow::{Flow, Instr, Operand};
use std::alloc::Global;

/// Whether an instruction sets its variable to a constant.
fn sets_constant(code: &Instr) -> bool {
    match code {
        Instr::Copy(_, Operand::Const(_), _) => true,
        _ => false,
    }
}

/// For each variable whether it is a number to which the program gives constants alone.
pub fn constant_variables(alloc: Global, flow: &Flow) -> Result<Vec<bool>, NoMemory> {
    let mut list = Vec::with_capacity(alloc, flow.vars.len())?;
    for info in flow.vars.as_slice() {
        list.push(info.kind == Kind::Int)?;
    }
    for point in flow.points.as_slice() {
        if let Some(x) = set_variable(&point.code) {
            if !sets_constant(&point.code) {
                if let Some(slot) = list.get_mut(x.0 as usize) {
                    *slot = false;
                }
            }
        }
    }
    Ok(list)
}
