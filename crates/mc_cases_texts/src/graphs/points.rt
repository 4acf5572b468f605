// Instructions as texts: what an instruction is, the variable that it sets, what it reads, and where it goes on to.
use mc_base::{NoMemory, PointId, PredId, StructId, VarId};
use mc_flow::{Instr, Operand};

/// An operand, after a blank.
pub fn add_operand(out: &mut String, operand: Operand) -> Result<(), NoMemory> {
    match operand {
        Operand::Var(x) => add_var(out, x),
        Operand::Const(c) => write!(out, " {c}"),
    }
}

fn add_var(out: &mut String, x: VarId) -> Result<(), NoMemory> {
    let number = x.0;
    write!(out, " v{number}")
}

/// A point, after a blank.
pub fn add_point(out: &mut String, point: PointId) -> Result<(), NoMemory> {
    let number = point.0;
    write!(out, " {number}")
}

fn add_operands(out: &mut String, operands: &[Operand]) -> Result<(), NoMemory> {
    for operand in operands {
        add_operand(out, *operand)?;
    }
    Ok(())
}

fn add_struct(out: &mut String, shape: StructId) -> Result<(), NoMemory> {
    let number = shape.0;
    write!(out, " s{number}")
}

/// A line: the word of an instruction, what it sets and reads, and the points that may follow.
pub fn add_code(out: &mut String, code: &Instr) -> Result<(), NoMemory> {
    out.push_str(word(code))?;
    add_set(out, code)?;
    add_read(out, code)?;
    add_targets(out, code)?;
    out.push('\n')
}

// The word of an instruction.
fn word(code: &Instr) -> &'static str {
    match code {
        Instr::Skip(_) => "skip",
        Instr::Copy(_, _, _) => "copy",
        Instr::Undef(_, _) => "undef",
        Instr::Input(_, _) => "input",
        Instr::Add(_, _, _, _) => "add",
        Instr::Sub(_, _, _, _) => "sub",
        Instr::Mul(_, _, _, _) => "mul",
        Instr::Load(_, _, _, _, _) => "load",
        Instr::Store(_, _, _, _, _) => "store",
        Instr::Malloc(_, _, _) => "malloc",
        Instr::Free(_, _) => "free",
        Instr::TestEq(_, _, _, _) => "eq",
        Instr::TestLe(_, _, _, _) => "le",
        Instr::AssumeShape(_, _, _, _) => "assume",
        Instr::AssertShape(_, _, _, _) => "assert",
        Instr::AssertEmpty(_) => "empty",
        Instr::End => "end",
        Instr::Fail => "fail",
    }
}

// The variable that is set, if one is.
fn set_by(code: &Instr) -> Option<VarId> {
    match code {
        Instr::Copy(x, _, _)
        | Instr::Input(x, _)
        | Instr::Add(x, _, _, _)
        | Instr::Sub(x, _, _, _)
        | Instr::Mul(x, _, _, _)
        | Instr::Load(x, _, _, _, _)
        | Instr::Malloc(x, _, _)
        | Instr::AssumeShape(_, x, _, _) => Some(*x),
        _ => None,
    }
}

fn add_set(out: &mut String, code: &Instr) -> Result<(), NoMemory> {
    match set_by(code) {
        Some(x) => add_var(out, x),
        None => Ok(()),
    }
}

// What an instruction reads: fields as struct and number, predicates by number.
fn add_read(out: &mut String, code: &Instr) -> Result<(), NoMemory> {
    match code {
        Instr::Copy(_, a, _) | Instr::Free(a, _) => add_operand(out, *a),
        Instr::Add(_, a, b, _)
        | Instr::Sub(_, a, b, _)
        | Instr::Mul(_, a, b, _)
        | Instr::TestEq(a, b, _, _)
        | Instr::TestLe(a, b, _, _) => add_operands(out, &[*a, *b]),
        Instr::Undef(xs, _) => add_vars(out, xs.as_slice()),
        _ => add_block_read(out, code),
    }
}

fn add_vars(out: &mut String, vars: &[VarId]) -> Result<(), NoMemory> {
    for x in vars {
        add_var(out, *x)?;
    }
    Ok(())
}

// The same, of instructions on blocks and shapes.
fn add_block_read(out: &mut String, code: &Instr) -> Result<(), NoMemory> {
    match code {
        Instr::Load(_, y, s, f, _) => add_field(out, *y, *s, *f),
        Instr::Store(y, s, f, a, _) => {
            add_field(out, *y, *s, *f)?;
            add_operand(out, *a)
        }
        Instr::Malloc(_, s, _) => add_struct(out, *s),
        Instr::AssumeShape(p, _, xs, _) => {
            add_predicate(out, *p)?;
            add_operands(out, xs.as_slice())
        }
        Instr::AssertShape(p, a, xs, _) => {
            add_predicate(out, *p)?;
            add_operand(out, *a)?;
            add_operands(out, xs.as_slice())
        }
        _ => Ok(()),
    }
}

fn add_field(out: &mut String, base: VarId, shape: StructId, field: u64) -> Result<(), NoMemory> {
    add_var(out, base)?;
    add_struct(out, shape)?;
    write!(out, " f{field}")
}

fn add_predicate(out: &mut String, predicate: PredId) -> Result<(), NoMemory> {
    let number = predicate.0;
    write!(out, " p{number}")
}

// The points that may follow, after an arrow.
fn add_targets(out: &mut String, code: &Instr) -> Result<(), NoMemory> {
    let (first, second) = code.targets();
    if let Some(point) = first {
        out.push_str(" >")?;
        add_point(out, point)?;
    }
    match second {
        Some(point) => add_point(out, point),
        None => Ok(()),
    }
}
