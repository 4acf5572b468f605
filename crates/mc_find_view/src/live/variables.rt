// Which variables are read later.
use crate::live::Rows;
use crate::live::moves::{set_variable, two_operands};
use mc_base::{NoMemory, VarId};
use mc_flow::{Flow, Instr, Operand};
use std::alloc::Global;

/// Marks the variable of an operand.
fn read(row: &mut Rows, o: Operand) {
    if let Operand::Var(x) = o {
        row.set(0, x.0 as usize, true);
    }
}

/// Marks the variables that an instruction reads.
fn read_all(row: &mut Rows, code: &Instr) {
    if let Some((a, b)) = two_operands(code) {
        read(row, a);
        read(row, b);
        return;
    }
    match code {
        Instr::Copy(_, from, _) => read(row, *from),
        Instr::Load(_, base, _, _, _) => read(row, Operand::Var(*base)),
        Instr::Free(freed, _) => read(row, *freed),
        Instr::AssumeShape(_, _, args, _) => read_args(row, args.as_slice()),
        Instr::AssertShape(_, at, args, _) => {
            read(row, *at);
            read_args(row, args.as_slice());
        }
        _ => {}
    }
}

/// Marks the variables of arguments.
fn read_args(row: &mut Rows, args: &[Operand]) {
    for arg in args {
        read(row, *arg);
    }
}

/// Unmarks the variables that an instruction sets or makes undefined.
fn set_all(row: &mut Rows, code: &Instr) {
    if let Instr::Undef(list, _) = code {
        for x in list.as_slice() {
            unset(row, *x);
        }
    }
    if let Some(x) = set_variable(code) {
        unset(row, x);
    }
}

fn unset(row: &mut Rows, x: VarId) {
    row.set(0, x.0 as usize, false);
}

/// Puts what is read from a point on into its row; whether that changed.
fn update(live: &mut Rows, row: &mut Rows, point: usize, code: &Instr) -> bool {
    row.fill_row(0, false);
    let (one, other) = code.targets();
    if let Some(q) = one {
        row.add_row(live, q.0 as usize, 0);
    }
    if let Some(q) = other {
        row.add_row(live, q.0 as usize, 0);
    }
    set_all(row, code);
    read_all(row, code);
    live.take_row(row, 0, point)
}

/// Goes over all points once, from the last to the first; whether a row changed.
fn pass(flow: &Flow, live: &mut Rows, row: &mut Rows) -> bool {
    let mut changed = false;
    let points = flow.points.as_slice();
    for behind in 0..points.len() {
        let at = points.len() - 1 - behind;
        if let Some(point) = points.get(at) {
            if update(live, row, at, &point.code) {
                changed = true;
            }
        }
    }
    changed
}

/// For each point a row with the variables that may be read from there on before they are set.
pub fn live_variables(alloc: Global, flow: &Flow) -> Result<Rows, NoMemory> {
    let width = flow.vars.len();
    let mut live = Rows::new(alloc, flow.points.len(), width, false)?;
    let mut row = Rows::new(alloc, 1, width, false)?;
    for _ in 0..flow.points.len() {
        if !pass(flow, &mut live, &mut row) {
            return Ok(live);
        }
    }
    Ok(live)
}
